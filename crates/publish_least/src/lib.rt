//! The fewest lines of a geofeed that answer as a search tree does under a block.
#![tactic(auto)]

mod half;
pub mod laws;
mod least;
mod line;
mod memo;
mod part;
mod set;
mod walk;

pub use least::least_lines;
pub use line::Line;
