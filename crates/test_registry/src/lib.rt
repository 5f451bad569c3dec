//! Tests of the readers of registries' files and of references to feeds, apart, so that a change of
//! a test proves no crate again.
#![tactic(auto)]

#[cfg(test)]
mod tests;
