//! The feed of lines of blocks and places, which reads back as these lines: the shortest one of a
//! block, and the line that is printed for it.
#![tactic(auto)]

mod fields;
mod file;
pub mod laws;
mod line;
mod plain;
mod publication;

pub use file::feed_text;
pub use line::printed_line;
pub use plain::is_plain;
pub use publication::{Publication, publish};
