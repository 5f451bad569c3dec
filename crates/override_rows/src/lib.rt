//! Reads overrides: what an operator sets above all other sources.
#![tactic(auto)]

mod outcome;
mod read;

pub use read::{LONGEST_OVERRIDES, MOST as MOST_OVERRIDES, read_overrides};
