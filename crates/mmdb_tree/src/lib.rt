//! Nodes of the search tree of a MaxMind DB file: two records of 24, 28 or 32 bits each.
#![tactic(auto)]

mod bits;
mod laws;
mod node;

pub use bits::{Bits, record_bits};
pub use laws::{node_reads_back, tree_reads_back};
pub use node::{get_record, push_node};
