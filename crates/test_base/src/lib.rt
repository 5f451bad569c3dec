//! Tests of the lowest crates, apart, so that a change of a test proves no crate again; and the
//! gate of all tests.
#![tactic(auto)]

mod looking;

pub use looking::Looking;

#[cfg(test)]
mod tests;
