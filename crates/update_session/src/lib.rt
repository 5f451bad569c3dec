//! A session: sources in force, and the file that is emitted for them,
//! by what changed since the last one.
#![tactic(auto)]

mod alias;
mod build;
mod choosing;
mod compacting;
mod fault;
mod grounds;
pub mod laws;
mod marking;
mod marks;
mod numbering;
mod replaced;
mod session;
mod setting;
mod write;

pub use fault::{BackFault, EmitFault};
pub use precedence::{DropFault, ReadyFeed};
pub use session::Session;
