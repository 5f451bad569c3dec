//! Tests of jobs, of the commands and of what is said of a stop, apart, so that a change of a test
//! proves no crate again.
#![tactic(auto)]

#[cfg(test)]
mod tests;
