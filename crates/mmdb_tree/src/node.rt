//! Writing and reading a node of the search tree.
ghost use Rattle.std.specs.Prelude.{◌≡◌, ◌+◌, ◌*◌, ◌<◌, ◌≤◌, ◌++◌, length, OnOk, OnErr};
ghost use Rattle.mmdb_tree.specs.Nodes.{limit, node_bytes, node_record, width};

use crate::bits::Bits;
use byteorder::{BigEndian, ByteOrder};
use std::alloc::AllocError;

/// Appends a node with its two records of so many bits each (MaxMind DB 2.0, "Binary Search Tree
/// Section"). An error is want of memory.
// Each node of a file is one call, and by itself it is not inlined.
#[inline(always)]
pub fn push_node(tree: &mut Vec<u8>, bits: Bits, left: u32, right: u32) -> Result<(), AllocError>
    requires left_fits { left < limit bits }
    requires right_fits { right < limit bits }
    ensures appended { OnOk result (tree.new.items
        ≡ tree.old.items ++ node_bytes bits left right) }
    ensures refused { OnErr result (tree.new.items ≡ tree.old.items) }
{
    // Bytes are cut from whole words, so that few steps write them.
    match bits {
        Bits::B24 => {
            let [a, b, c, d] = (left * 256 + right / (1 << 16)).to_be_bytes();
            let [e, f] = ((right % (1 << 16)) as u16).to_be_bytes();
            tree.extend_from_slice(&[a, b, c, d, e, f])
        }
        Bits::B28 => {
            let tops = left / (1 << 24) * 16 + right / (1 << 24);
            let [a, b, c, d] = (left % (1 << 24) * 256 + tops).to_be_bytes();
            let [_, e, f, g] = right.to_be_bytes();
            tree.extend_from_slice(&[a, b, c, d, e, f, g])
        }
        Bits::B32 => {
            let word = u64::from(left) * (1 << 32) + u64::from(right);
            tree.extend_from_slice(&word.to_be_bytes())
        }
    }
}

/// The left record of node `n`, or with `right` the right one.
#[tactic(auto, unfolding(crate::specs::Nodes::node_record))]
pub fn get_record(tree: &[u8], bits: Bits, n: u32, right: bool) -> u32
    requires within { n * width bits + width bits ≤ length tree.now }
    ensures { result ≡ node_record bits tree.now n right }
{
    let start = n as usize * bits.width();
    let node = &tree[start..start + bits.width()];
    match (bits, right) {
        (Bits::B24, false) => BigEndian::read_u24(node),
        (Bits::B24, true) => BigEndian::read_u24(&node[3..]),
        (Bits::B28, false) => BigEndian::read_u32(&[node[3] / 16, node[0], node[1], node[2]]),
        (Bits::B28, true) => BigEndian::read_u32(&[node[3] % 16, node[4], node[5], node[6]]),
        (Bits::B32, false) => BigEndian::read_u32(node),
        (Bits::B32, true) => BigEndian::read_u32(&node[4..]),
    }
}
