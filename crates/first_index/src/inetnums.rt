//! The index of references: who speaks at an address, and which reference to a feed covers a block.

mod cover;
mod firsts;
mod index;
mod links;
mod shelf;

pub use index::Index;
