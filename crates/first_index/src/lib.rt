//! The index of statements: which one of a list is the first that holds an address; and that of
//! references. Beside the first slow answers that look at every statement.
#![tactic(auto)]

mod boundaries;
mod columns;
mod index;
pub mod inetnums;
mod near;
mod nested;
mod numbered;
pub mod plain;

pub use index::FirstIndex;
pub use numbered::Numbered;
