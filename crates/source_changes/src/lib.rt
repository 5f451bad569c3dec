//! What a call changes that sets or drops a source: the statements that came or went, and the law
//! that what is said of an address changes only on their grounds.
#![tactic(auto)]

mod changed;
mod compared;
mod ground_list;
pub mod laws;
pub mod shelf;

pub use changed::{changed_grounds, keep_all, push_borrows};
pub use compared::Compared;
pub use ground_list::{GroundList, GroundsLeft};
