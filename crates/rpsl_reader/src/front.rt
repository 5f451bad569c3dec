//! The first bytes of a line, which are looked at together.
ghost use Rattle.std.specs.Prelude.{◌≡◌, ◌≢◌, ℕ, ◌<◌, ◌≤◌, length, map, slice_index, IsTrue};
ghost use Rattle.std.specs.Prelude.{◌==◌, false, if◌then◌else◌, nat_lt, true};
ghost use Rattle.std.specs.List.{list_any};
ghost use Rattle.std.specs.Simd.Lanes.{mask_l};
ghost use Rattle.rpsl_reader.specs.Attributes.{is_name_byte};
ghost use Rattle.rpsl_reader.specs.declared.front.TheConstants.{HALF, TOGETHER, WIDE};

use std::simd::prelude::*;

/// How many bytes are looked at together.
pub(crate) const TOGETHER: usize = 16;

/// How many of the first bytes of a line are small letters, digits and hyphens, which may all stand
/// in a name.
pub(crate) fn plain_front(line: &[u8]) -> usize
    requires { TOGETHER ≤ length line.now }
    ensures within { result ≤ TOGETHER }
    ensures named { (k : ℕ) → k < result → IsTrue (is_name_byte (slice_index line.now k)) }
{
    let bytes = u8x16::from_slice(line);
    let no_letters = unless_between(bytes, b'a', b'z', u8x16::splat(255));
    let neither = unless_between(bytes, b'0', b'9', no_letters);
    leading_zeros(unless_between(bytes, b'-', b'-', neither))
}

// Zeros where bytes lie between two others, and elsewhere the lanes of `others`.
#[inline(always)]
fn unless_between(bytes: u8x16, low: u8, high: u8, others: u8x16) -> u8x16
    ensures long { length result ≡ TOGETHER }
    ensures lanes { (k : ℕ) → k < TOGETHER → slice_index result k
        ≡ (if nat_lt (slice_index bytes k) low then slice_index others k
        else (if nat_lt high (slice_index bytes k) then slice_index others k else 0)) }
{
    let above = where_less(u8x16::splat(high), bytes, others, u8x16::splat(0));
    where_less(bytes, u8x16::splat(low), others, above)
}

// The lanes of `chosen` where a byte is less than another, and elsewhere those of `others`.
#[inline(always)]
fn where_less(bytes: u8x16, than: u8x16, chosen: u8x16, others: u8x16) -> u8x16
    ensures long { length result ≡ TOGETHER }
    ensures lanes { (k : ℕ) → k < TOGETHER → slice_index result k
        ≡ (if nat_lt (slice_index bytes k) (slice_index than k) then slice_index chosen k
        else slice_index others k) }
{
    bytes.simd_lt(than).select(chosen, others)
}

// How many lanes come before the first that is not zero.
#[inline(always)]
fn leading_zeros(bytes: u8x16) -> usize
    ensures within { result ≤ TOGETHER }
    ensures zeros { (k : ℕ) → k < result → slice_index bytes k ≡ 0 }
{
    let others = bytes.simd_ne(u8x16::splat(0)).to_bitmask();
    if others == 0 {
        return TOGETHER;
    }
    others.trailing_zeros() as usize
}

/// How many bytes are searched together for the end of a line: few lines are longer.
pub(crate) const WIDE: usize = 64;

/// The offset of the first line feed among the first 64 bytes of a text, or 64 where there is none.
#[inline(always)]
pub(crate) fn feed_among(text: &[u8]) -> usize
    requires { WIDE ≤ length text.now }
    ensures free { (k : ℕ) → k < result → slice_index text.now k ≢ 10 }
    ensures feed { result < WIDE → slice_index text.now result ≡ 10 }
{
    let near = near_feed(text);
    if near < HALF {
        return near;
    }
    let (_, behind) = text.split_at(HALF);
    HALF + near_feed(behind)
}

// The same among the first 32 bytes of a text, or 32.
#[inline(always)]
fn near_feed(text: &[u8]) -> usize
    requires { HALF ≤ length text.now }
    ensures within { result ≤ HALF }
    ensures free { (k : ℕ) → k < result → slice_index text.now k ≢ 10 }
    ensures feed { result < HALF → slice_index text.now result ≡ 10 }
{
    let found = feeds(u8x32::from_slice(text));
    if found == 0 {
        return HALF;
    }
    found.trailing_zeros() as usize
}

// A bit for each lane that is a line feed, the first one's lowest.
#[inline(always)]
fn feeds(bytes: u8x32) -> u64
    ensures { result ≡ mask_l (map (λ b. b == 10) bytes) }
{
    bytes.simd_eq(u8x32::splat(b'\n')).to_bitmask()
}

/// How many bytes are looked at together in a text that is not short.
const HALF: usize = 32;

/// Whether a text has no `#`: one of 16 to 64 bytes is looked at from both ends.
pub(crate) fn lacks_hash(text: &[u8]) -> bool
    ensures { result ≡ true → list_any (λ b. b == 35) text.now ≡ false }
{
    if text.len() < TOGETHER || WIDE < text.len() {
        return !text.contains(&b'#');
    }
    if text.len() <= HALF {
        let (_, end) = text.split_at(text.len() - TOGETHER);
        return lacks_few(text) && lacks_few(end);
    }
    let (_, end) = text.split_at(text.len() - HALF);
    lacks_many(text) && lacks_many(end)
}

// Whether no `#` is among the first 16 bytes of a text.
#[inline(always)]
fn lacks_few(text: &[u8]) -> bool
    requires { TOGETHER ≤ length text.now }
    ensures { result ≡ true → (k : ℕ) → k < TOGETHER → slice_index text.now k ≢ 35 }
{
    few_hashes(u8x16::from_slice(text)) == 0
}

// Whether no `#` is among the first 32 bytes of a text.
#[inline(always)]
fn lacks_many(text: &[u8]) -> bool
    requires { HALF ≤ length text.now }
    ensures { result ≡ true → (k : ℕ) → k < HALF → slice_index text.now k ≢ 35 }
{
    many_hashes(u8x32::from_slice(text)) == 0
}

// A bit for each lane that is a `#`.
#[inline(always)]
fn few_hashes(bytes: u8x16) -> u64
    ensures { result ≡ mask_l (map (λ b. b == 35) bytes) }
{
    bytes.simd_eq(u8x16::splat(b'#')).to_bitmask()
}

#[inline(always)]
fn many_hashes(bytes: u8x32) -> u64
    ensures { result ≡ mask_l (map (λ b. b == 35) bytes) }
{
    bytes.simd_eq(u8x32::splat(b'#')).to_bitmask()
}
