//! What the generator makes: feeds of any size, for trials of speed and of replacements.
#![tactic(auto)]

mod feed;

pub use feed::gen_feed;
