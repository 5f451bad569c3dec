//! Addresses, ranges and blocks, and the small types and text shapes that every other crate speaks.
#![tactic(auto)]

mod addr;
mod address;
mod bits;
mod block;
mod bytes;
mod digits;
mod fault;
mod front;
mod line;
mod list;
mod memory;
mod prefix;
mod print;
mod range;
mod side;
mod span;
mod text;
mod v4;
mod v6;

pub use addr::Addr;
pub use address::{is_six, parse_addr};
pub use bits::one_list_of_bits;
pub use block::{Block, is_aligned, span_of};
pub use bytes::Bytes;
pub use digits::{are_digits, decimal};
pub use fault::{AddrFault, BlockFault};
pub use line::{Line, Lines, cut_at, cut_near, is_blank, skip_mark, trim_blanks};
pub use list::List;
pub use memory::Memory;
pub use prefix::parse_block;
pub use print::{addr_text, block_text, range_text};
pub use range::{Range, range_of};
pub use span::parse_span;
pub use text::Text;
