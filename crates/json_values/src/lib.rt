//! Values of the data section as JSON (RFC 8259).
#![tactic(auto)]

mod text;

pub use text::json_text;
