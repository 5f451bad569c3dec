//! The crates that all others stand on.
mod addresses;
mod cuts;
mod made;
mod outside;
mod parts;
mod pieces;
mod small;
