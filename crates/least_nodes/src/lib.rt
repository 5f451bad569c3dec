//! The order in which the nodes of a tree are written, and the law
//! that no list of nodes is shorter.
#![tactic(auto)]

pub mod laws;
mod layout;
mod marks;
mod node_set;
mod place_set;
mod seen;

pub use layout::{Layout, order};
pub use node_set::NodeSet;
pub use place_set::PlaceSet;
