//! Lines of comma-separated fields with comments, as feeds and overrides have them.
#![tactic(auto)]

mod bare;
mod fate;
mod fault;
mod known;
pub mod laws;
mod rest;
mod rows;
mod scan;
mod tails;

pub use bare::{BareRow, bare_row};
pub use fate::{Accepted, Fate, Judged, RepeatRules, judge};
pub use known::{KnownTails, OwnTail};
pub use rest::{Content, content_of, rest_of};
pub use rows::{Row, all_handed, column, next_row, reader_of, said_in};
pub use scan::has_fields;
pub use tails::{LineCut, Tails, cut_line};
