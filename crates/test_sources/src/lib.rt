//! Tests of places, of who speaks, and of all sources in force, apart, so that a change of a test
//! proves no crate again.
#![tactic(auto)]

#[cfg(test)]
mod tests;
