//! What becomes of each line of a feed, and how many addresses each country has.
#![tactic(auto)]

mod count;
mod counted;
mod judging;
pub mod laws;
mod spread;
mod sweep;
mod texts;
mod verdict;

pub use count::Count;
pub use counted::census;
pub use judging::check;
pub use texts::{census_text, verdict_text};
pub use verdict::{Ruling, Verdict};
