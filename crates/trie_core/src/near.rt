//! A hasher for nodes and places that keeps near in a set what is asked for together.
ghost use Rattle.std.specs.Prelude.{◌≡◌};
ghost use Rattle.trie_core.specs.NearHash as near;

use std::hash::{BuildHasherDefault, Hasher};

/// What makes the hasher of a set of nodes, or of a map from them.
pub type Near = BuildHasherDefault<NearHasher>;

/// A hasher of the numbers of nodes and places.
///
/// Near numbers come to one group of the table, and so does a pair of 0 and such a number: what is
/// made and asked for one after the other stands together. All other pairs of numbers are mixed.
#[derive(Clone, Copy, Default)]
pub struct NearHasher {
    earlier: u64,
    later: u64,
}

impl Hasher for NearHasher {
    ghost write = { near.write };

    ghost finish = { near.finish };

    fn finish(&self) -> u64 {
        let mixed = mixed(self.earlier, self.later);
        if self.earlier == 0 {
            return beside(self.later, mixed);
        }
        if self.later == 0 {
            return beside(self.earlier, mixed);
        }
        mixed >> 32
    }

    fn write(&mut self, bytes: &[u8]) {
        self.earlier = self.earlier << 32 | self.later >> 32;
        self.later = self.later << 32 | low_number(bytes);
    }
}

// The number that the first four bytes spell, the lowest first; 0 where there are fewer.
fn low_number(bytes: &[u8]) -> u64
    ensures { result ≡ near.low_number bytes.now }
{
    if bytes.len() < 4 {
        return 0;
    }
    u64::from(u32::from_le_bytes([bytes[0], bytes[1], bytes[2], bytes[3]]))
}

// Two numbers mixed.
pub(crate) fn mixed(a: u64, b: u64) -> u64
    ensures { result ≡ near.mixed a b }
{
    let sum = a.wrapping_mul(0x9e37_79b9_7f4a_7c15).wrapping_add(b);
    (sum ^ sum >> 32).wrapping_mul(0xd6e8_feb8_6659_fd93)
}

// The hash that comes to the group of the number. The table takes the group from the low bits, and
// tells the keys of a group by the high ones.
fn beside(number: u64, mixed: u64) -> u64
    ensures { result ≡ near.beside number mixed }
{
    mixed >> 56 << 24 | number & 0xff_ffff
}
