//! The values of the data section of a MaxMind DB file.
#![tactic(auto)]

mod budget;
mod decoding;
mod fault;
mod full_values;
mod kind;
mod laws;
mod leaves;
mod member;
mod noted_values;
mod packer;
mod packing;
mod packing_members;
mod reader;
mod reading;
mod section;
mod sizes;
mod spelled_list;
mod value;
mod writing;

pub use budget::{BYTES as MOST_BYTES, VALUES as MOST_VALUES};
pub use decoding::decode;
pub use fault::{DataCause, DataFault};
pub use laws::{
    keys_are_texts, packed_at_the_least_offset, packed_reads_back, pointers_read_back, reads_back,
};
pub use member::{Around, Member};
pub use packer::Packer;
pub use sizes::{LEVELS as MOST_LEVELS, fits};
pub use value::Value;
pub use writing::encode;
