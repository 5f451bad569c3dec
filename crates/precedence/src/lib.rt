//! All sources in force: the record of an address and why it has it, the report,
//! cut points and segments.
#![tactic(auto)]

mod aliases;
mod chunks;
mod delegations;
mod near;
mod notes;
mod overriding;
mod points;
mod runs;
mod sources;
mod statistics;
mod why;

pub use authority::{DropFault, ReadyFeed};
pub use near::Near;
pub use sources::Sources;
pub use why::Why;
