//! Tests of the file and of what it is made of, apart, so that a change of a test proves no crate
//! again.
#![tactic(auto)]

#[cfg(test)]
mod tests;
