//! Who speaks for an address: dumps and feeds together, with the notes of the one on the other.
#![tactic(auto)]

mod fault;
mod force;
mod kind_index;
mod near;
mod notes;
mod ready;
mod speakers;
mod voices;

pub use fault::DropFault;
pub use force::Authority;
pub use kind_index::KindIndex;
pub use near::Near;
pub use ready::ReadyFeed;
pub use speakers::Speakers;
