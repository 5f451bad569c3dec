//! Why an address has its record, as the text that is printed.
#![tactic(auto)]

mod lines;
mod text;

pub use text::explanation;
