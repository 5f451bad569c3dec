//! A MaxMind DB file: written from a store of nodes, and walked.
#![tactic(auto)]

mod adopted;
mod data;
mod fault;
mod laws;
mod marker;
mod metadata;
mod nodes;
mod numbers;
mod place;
mod place_members;
mod writing;

pub use adopted::Mmdb;
pub use fault::{FileFault, OpenFault, WalkFault};
pub use laws::{
    last_marker_is_the_writers, numbers_stand_for_places, written_file_is_walked,
    written_section_holds,
};
pub use metadata::Meta;
pub use place::place_value;
pub use writing::{Emitted, numbers_to_places, write_file};
