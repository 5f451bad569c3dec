//! The generated job of `gen N FILE`: its sources, set in its session, and that its file can
//! always be made.
#![tactic(auto)]

pub mod laws;
mod sources;

pub use sources::{gen_session, set_first, set_second};
