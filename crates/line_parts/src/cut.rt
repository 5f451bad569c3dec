//! A file cut into parts.
ghost use Rattle.std.specs.Prelude.{◌≡◌, ◌+◌, ◌<◌, ◌≤◌, ◌^◌, ◌++◌, ◌⊎◌, [], false, true, All};
ghost use Rattle.std.specs.Prelude.{IfOk, length, map, drop, take, nat_eq, ◌==◌};
ghost use Rattle.std.specs.List.{flat_map, starts_with};
ghost use Rattle.std.specs.Simd.Lanes.{mask_l};
ghost use Rattle.geo_addr.specs.Lines.{byte_order_mark, numbered_lines, without_mark};
ghost use Rattle.line_parts.specs.Parts.{AreCut, EndsBehind, EndsWithFeed, feeds, lines_in};
ghost use Rattle.line_parts.specs.Parts.{part_end};
ghost use Rattle.line_parts.specs.declared.cut.TheConstants.{TOGETHER};

use crate::part::LinePart;
use geo_addr::{Memory, cut_at, skip_mark};
use std::alloc::Global;
use std::simd::prelude::*;

/// Cuts a file behind the first line feed at or after each `size` bytes.
///
/// Where a byte order mark stands there, which is part of a line, what is left is one part.
pub fn parts_of(alloc: Global, file: &[u8], size: usize) -> Result<Vec<LinePart<'_>>, Memory>
    ensures lines { IfOk result (λ parts. flat_map lines_in parts.items ≡ numbered_lines file.now) }
    ensures cut { IfOk result (λ parts. AreCut size file.now parts.items []) }
    ensures short { IfOk result (λ parts. All (λ p. EndsBehind size p.text.now) parts.items) }
{
    let lines = LinePart {
        before: 0,
        text: file,
    };
    cut_part(alloc, lines, size)
}

/// Cuts some lines of a file where `parts_of` would, had it no others.
pub fn cut_part(
    alloc: Global,
    lines: LinePart<'_>,
    size: usize,
) -> Result<Vec<LinePart<'_>>, Memory>
    ensures lines { IfOk result (λ parts. flat_map lines_in parts.items ≡ lines_in lines.entry) }
    ensures cut { IfOk result (λ parts. AreCut size lines.entry.text.now parts.items []) }
    ensures short { IfOk result (λ parts. All (λ p. EndsBehind size p.text.now) parts.items) }
{
    let mut parts = Vec::new(alloc);
    let mut before = lines.before;
    let mut left = lines.text;
    while !left.is_empty() {
        let (text, after) = cut_behind(left, size);
        let part = part_behind(before, text);
        parts.push(part).map_err(Memory::from)?;
        before += count_feeds(text);
        left = after;
    }
    Ok(parts)
}

fn part_behind(before: u64, text: &[u8]) -> LinePart<'_>
    requires { before + length text.now < 2 ^ 64 }
    ensures before { result.before ≡ before }
    ensures text { result.text.now ≡ text.now }
{
    LinePart { before, text }
}

// The text up to the first line feed from this index on, with it, and what stands after it.
fn cut_behind(text: &[u8], size: usize) -> (&[u8], &[u8])
    requires { 0 < length text.now }
    ensures joined { result.0.now ++ result.1.now ≡ text.now }
    ensures end { (result.1.now ≡ []) ⊎ EndsWithFeed result.0.now }
    ensures unmarked { without_mark result.1.now ≡ result.1.now }
    ensures first { result.0.now ≡ take (part_end size text.now) text.now }
    ensures rest { result.1.now ≡ drop (part_end size text.now) text.now }
    ensures short { EndsBehind size result.0.now }
    ensures shorter { length result.1.now < length text.now }
{
    if text.len() <= size {
        return (text, &[]);
    }
    let (_, after) = cut_at(&text[size..], b'\n');
    match after {
        Some(after) => {
            if has_mark(after) {
                return (text, &[]);
            }
            (&text[..text.len() - after.len()], after)
        }
        None => (text, &[]),
    }
}

// Whether a text begins with a byte order mark.
pub(crate) fn has_mark(text: &[u8]) -> bool
    ensures without { result ≡ false → without_mark text.now ≡ text.now }
    ensures with { result ≡ true → text.now ≡ byte_order_mark ++ without_mark text.now }
    ensures exact { result ≡ starts_with nat_eq text.now byte_order_mark }
{
    skip_mark(text).len() < text.len()
}

/// How many bytes are looked at together.
const TOGETHER: usize = 64;

/// How many line feeds a text has.
pub fn count_feeds(text: &[u8]) -> u64
    ensures { result ≡ feeds text.now }
{
    let mut count = 0;
    let mut left = text;
    while left.len() >= TOGETHER {
        let (front, more) = left.split_at(TOGETHER);
        count += u64::from(count_together(front));
        left = more;
    }
    count + u64::from(count_few(left))
}

// How many line feeds a text of `TOGETHER` bytes has.
fn count_together(text: &[u8]) -> u32
    requires { length text.now ≡ TOGETHER }
    ensures { result ≡ feeds text.now }
{
    feeds_among(u8x64::from_slice(text)).count_ones()
}

// A bit for each lane that is a line feed.
#[inline(always)]
fn feeds_among(bytes: u8x64) -> u64
    ensures { result ≡ mask_l (map (λ b. b == 10) bytes) }
{
    bytes.simd_eq(u8x64::splat(b'\n')).to_bitmask()
}

// How many line feeds a text of at most 255 bytes has.
fn count_few(text: &[u8]) -> u8
    requires { length text.now < 256 }
    ensures { result ≡ feeds text.now }
{
    let mut count = 0;
    for byte in text {
        if *byte == b'\n' {
            count += 1;
        }
    }
    count
}
