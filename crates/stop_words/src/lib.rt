//! What is said of a stop: one line with where it is and what to do about it,
//! for the person who ran the program.
#![tactic(auto)]

mod causes;
mod files;
mod hints;
mod looks;
mod near;
mod refused;
mod shown;
mod steps;
mod stop;
mod usage;
mod warned;

pub use stop::{System, stop_text};
pub use warned::{more_text, warning_text};
