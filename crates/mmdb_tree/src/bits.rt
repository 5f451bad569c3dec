//! The sizes of a record.
ghost use Rattle.std.specs.Prelude.{◌≡◌, ◌+◌, ◌^◌, ◌<◌, ◌≤◌};
ghost use Rattle.mmdb_tree.specs.Nodes.{record_size, width, smallest};

/// The size of a record, in bits (MaxMind DB 2.0, `record_size` of the metadata).
#[derive(Clone, Copy, Debug, PartialEq, Eq)]
pub enum Bits {
    B24,
    B28,
    B32,
}

impl Bits {
    /// The number of bits, as the metadata has it.
    pub fn size(self) -> u8
        ensures { result ≡ record_size self }
    {
        match self {
            Bits::B24 => 24,
            Bits::B28 => 28,
            Bits::B32 => 32,
        }
    }

    /// How many bytes a node takes.
    pub fn width(self) -> usize
        ensures { result ≡ width self }
    {
        match self {
            Bits::B24 => 6,
            Bits::B28 => 7,
            Bits::B32 => 8,
        }
    }
}

/// The smallest record size that holds every record of a tree of `nodes` nodes over a data section
/// of `section_len` bytes, or `None` where none does.
///
/// A record that leads to the data is the node count, 16 and an offset in the section.
pub fn record_bits(nodes: u64, section_len: u64) -> Option<Bits>
    requires few_nodes { nodes < 2 ^ 62 }
    requires short { section_len < 2 ^ 62 }
    ensures { result ≡ smallest (nodes + 16 + section_len) }
{
    let end = nodes + 16 + section_len;
    if end < 1 << 24 {
        Some(Bits::B24)
    } else if end < 1 << 28 {
        Some(Bits::B28)
    } else if end < 1 << 32 {
        Some(Bits::B32)
    } else {
        None
    }
}
