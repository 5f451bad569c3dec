//! The store of a search tree's nodes, and what its nodes mean.
#![tactic(auto)]

mod compact;
mod fault;
mod graft;
pub mod laws;
mod near;
mod node;
mod others;
mod paint;
mod pairs;
mod store;

pub use fault::StoreFault;
pub use near::{Near, NearHasher};
pub use node::{NodeId, Pair, Rec, Root};
pub use paint::Part;
pub use store::Store;
