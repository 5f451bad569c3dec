//! The readers of feeds and overrides, and what a new source changes.
mod changes;
mod feeds;
mod overrides;
mod rests;
mod shown;
