//! A line of the shortest list, as a block and its leaf.
use geo_addr::Block;

/// A block and the leaf that the addresses have for which no longer line speaks.
/// Leaf 0 is no place.
#[derive(Clone, Copy, Debug, PartialEq, Eq)]
pub struct Line {
    pub block: Block,
    pub leaf: u32,
}
