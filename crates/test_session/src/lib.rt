//! Tests of sessions, apart, so that a change of a test proves no crate again.
#![tactic(auto)]

#[cfg(test)]
mod tests;
