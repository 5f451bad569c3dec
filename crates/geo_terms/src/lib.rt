//! Places, statements, notes and sources: what the readers make,
//! and the definitions of who speaks for an address.
#![tactic(auto)]

mod alias;
pub mod laws;
mod note;
mod order;
mod place;
mod places;
mod same;
mod source;
mod statement;

pub use alias::{MAPPED_HEAD, SIX_TO_FOUR_HEAD, home, is_alias, lies_in_alias};
pub use note::{LineNote, Note, Origin, Rule, note_text};
pub use order::Statement;
pub use place::{Place, PlaceFault, Said};
pub use places::fields::{country_place, place_in, place_of};
pub use places::texts::{Texts, mixed};
pub use places::{Places, PlacesFault};
pub use same::same_bytes;
pub use source::{Dump, Feed, Overrides, SourceFault, Stats};
pub use statement::{Delegation, Entry, Override, Reference};
