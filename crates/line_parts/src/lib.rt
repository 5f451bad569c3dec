//! A file cut at line feeds into parts, so that its lines can be read side by side.
#![tactic(auto)]

mod cut;
mod lines;
mod part;
mod rounds;
mod whole;

pub use cut::{count_feeds, cut_part, parts_of};
pub use lines::PartLines;
pub use part::{LEAST_PART, LinePart};
pub use rounds::{LONG_PART, first_parts, part_size};
pub use whole::whole_lines;
