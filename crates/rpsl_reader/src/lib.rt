//! Reads the objects of a registry dump (RPSL, RFC 2622 section 2) from pieces of its text.
#![tactic(auto)]

mod attribute;
mod front;
mod gathered;
mod item;
pub mod laws;
mod limits;
mod line;
mod object;
mod pending;
mod progress;
mod read;
mod reader;
mod seen;
mod selection;

pub use item::{Attribute, Item, Object};
pub use progress::Progress;
pub use reader::Reader;
pub use seen::{AttributeSight, Said, Sight, Sights, parts_of};
pub use selection::Selection;
