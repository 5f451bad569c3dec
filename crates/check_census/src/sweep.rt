//! The lowest address at which each entry of a feed speaks.
ghost use Rattle.std.specs.Prelude.{◌≡◌, None, Some, IfOk, length, map};
ghost use Rattle.std.specs.List.Sorted.{IsStrictlyIncreasing};
ghost use Rattle.geo_terms.specs.Sources.{feed_of};
ghost use Rattle.check_census.specs.Sweep.{fixed_ranges, marked, swept};
ghost use Rattle.check_census.specs.Verdicts.{first_heard, heard_line, or_else};

use geo_addr::{Addr, Memory, Range};
use geo_terms::{Entry, Feed};
use precedence::{Near, Sources};
use std::alloc::Global;

/// For each entry of a feed in force the lowest address at which it speaks.
///
/// One pass over the points at which the speaker or its entry can change: between two of them
/// nothing new is heard. Each is looked for first where the last one was found.
pub(crate) fn first_addresses(
    alloc: Global,
    sources: &Sources,
    feed: &Feed,
) -> Result<Vec<Option<u128>>, Memory>
    requires { feed_of sources.now feed.now.url ≡ Some feed.now }
    ensures { IfOk result (λ firsts. firsts.items
        ≡ map (λ e. first_heard sources.now feed.now.url e.line) feed.now.entries) }
{
    let url = feed.url.as_str();
    let lines = lines_of(alloc, feed.entries.as_slice())?;
    let points = sources.hearing_cuts(url, &fixed_ranges())?;
    let firsts = sweep(alloc, sources, url, lines.as_slice(), points.as_slice())?;
    Ok(firsts)
}

fn lines_of(alloc: Global, entries: &[Entry]) -> Result<Vec<u64>, Memory>
    ensures { IfOk result (λ lines. lines.items ≡ map (λ e. e.line) entries.now) }
{
    let mut lines = Vec::with_capacity(alloc, entries.len())?;
    for entry in entries {
        lines.push(entry.line)?;
    }
    Ok(lines)
}

// The first addresses of lines, by what is heard at ascending points.
fn sweep(
    alloc: Global,
    sources: &Sources,
    url: &str,
    lines: &[u64],
    points: &[u128],
) -> Result<Vec<Option<u128>>, Memory>
    requires lines { IsStrictlyIncreasing lines.now }
    ensures { IfOk result (λ firsts. firsts.items
        ≡ swept sources.now url.now lines.now points.now) }
{
    let mut firsts = nowhere(alloc, lines)?;
    let mut near = Near::default();
    for point in points {
        let heard = heard_line(sources, url, Addr(*point), &mut near);
        mark(&mut firsts, lines, heard, *point);
    }
    Ok(firsts)
}

// No addresses yet.
fn nowhere(alloc: Global, lines: &[u64]) -> Result<Vec<Option<u128>>, Memory>
    ensures { IfOk result (λ firsts. firsts.items ≡ map (λ l. None) lines.now) }
{
    let firsts = lines.iter().map(|_line| None).collect(alloc)?;
    Ok(firsts)
}

// The line of the feed of this URL that speaks at an address.
fn heard_line(sources: &Sources, url: &str, at: Addr, near: &mut Near) -> Option<u64>
    ensures { result ≡ heard_line sources.now url.now at.0 }
{
    let speaker = sources.why_speaker(at, near)?;
    if speaker.url.as_str() != url {
        return None;
    }
    let entry = sources.why_entry(at, near)?;
    Some(entry.line)
}

// Gives the line that is heard this point, unless it has a lower one.
fn mark(firsts: &mut Vec<Option<u128>>, lines: &[u64], heard: Option<u64>, at: u128)
    requires lines { IsStrictlyIncreasing lines.now }
    requires long { length firsts.old.items ≡ length lines.now }
    ensures { firsts.new.items ≡ marked heard at lines.now firsts.old.items }
{
    let Some(line) = heard else {
        return;
    };
    let Ok(index) = lines.binary_search(&line) else {
        return;
    };
    firsts[index] = earlier(firsts[index], at);
}

// The lower address: the one that is there already.
fn earlier(first: Option<u128>, at: u128) -> Option<u128>
    ensures { result ≡ or_else first (Some at) }
{
    match first {
        Some(first) => Some(first),
        None => Some(at),
    }
}

// The IPv4 addresses and the two blocks that carry IPv4 addresses: ::ffff:0:0/96 and 2002::/16.
fn fixed_ranges() -> [Range; 3]
    ensures { result ≡ fixed_ranges }
{
    [
        Range {
            first: 0,
            last: (1 << 32) - 1,
        },
        Range {
            first: 0xffff << 32,
            last: (0x1_0000 << 32) - 1,
        },
        Range {
            first: 0x2002 << 112,
            last: (0x2003 << 112) - 1,
        },
    ]
}
