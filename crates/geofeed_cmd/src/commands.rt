//! The commands.
pub(crate) mod build;
pub(crate) mod census;
pub(crate) mod check;
pub(crate) mod explain;
pub(crate) mod generate;
pub(crate) mod lookup;
pub(crate) mod write_feed;
