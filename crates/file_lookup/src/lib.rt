//! What a file says of an address, as text.
#![tactic(auto)]

mod lookup;

pub use lookup::{LONGEST_FILE, LookupFault, file_line, lookup_text};
