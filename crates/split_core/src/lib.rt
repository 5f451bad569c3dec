//! Ranges split into the fewest blocks, and the points at which a list of
//! ranges cuts the address space.
#![tactic(auto)]

pub mod laws;
mod points;
mod split;
mod walk;

pub use points::{cuts, push_edges, put_in_order};
pub use split::blocks;
pub use walk::Blocks;
