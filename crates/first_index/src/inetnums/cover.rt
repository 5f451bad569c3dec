//! The references of a URL that cover a block, from the one that begins last on.
ghost use Rattle.std.specs.Prelude.{◌≡◌, ◌≤◌, ◌<◌, Some, length, IfSome};
ghost use Rattle.std.specs.Option.{option_copied};
ghost use Rattle.geo_terms.specs.Precedence.{reference_before};
ghost use Rattle.geo_terms.specs.First.{better};
ghost use Rattle.first_index.specs.Links.{AreLinks, AreShelved, EndsAt, IsEnd, IsFirstReaching};
ghost use Rattle.first_index.specs.Links.{IsNearest, TellsSome};

use crate::inetnums::links::Link;
use crate::inetnums::shelf::{is_behind, is_of, last_of};
use geo_terms::{Reference, Statement};

/// The end of the references that stand before or with those of this URL and family that begin at
/// or before this address.
pub fn end_of(refs: &[Reference], url: &str, family: u8, first: u128) -> usize
    requires { AreShelved refs.now }
    ensures within { result ≤ length refs.now }
    ensures end { IsEnd (record { url = url.now; family = family; first = first }) refs.now result }
{
    refs.partition_point(|reference| !is_behind(url, family, first, reference))
}

/// The first in the order of references of those before the end that are of this URL and family and
/// reach this address.
pub fn first_reaching<'a>(
    refs: &'a [Reference],
    links: &[Link],
    url: &str,
    family: u8,
    last: u128,
    end: usize,
) -> Option<&'a Reference>
    requires within { end ≤ length refs.now }
    requires linked { length links.now ≡ length refs.now }
    requires links { AreLinks refs.now links.now }
    requires grouped { EndsAt url.now family refs.now end }
    ensures { IsFirstReaching url.entry.now family last refs.entry.now 0 end
        (option_copied result) }
{
    let mut first: Option<&'a Reference> = None;
    let mut left = end;
    while let Some(index) = nearest(refs, links, url, family, last, left) {
        first = Some(better(first, &refs[index]));
        left = index;
    }
    first
}

// The new reference where it goes before the first one so far, else that one.
fn better<'a>(first: Option<&'a Reference>, next: &'a Reference) -> &'a Reference
    ensures { Some result.now ≡ better reference_before (option_copied first.entry) next.entry.now }
{
    match first {
        Some(first) => {
            if next.order(first).is_lt() {
                next
            } else {
                first
            }
        }
        None => next,
    }
}

// The last index before the end at which a reference of this URL and family reaches this address:
// from link to link.
fn nearest(
    refs: &[Reference],
    links: &[Link],
    url: &str,
    family: u8,
    last: u128,
    end: usize,
) -> Option<usize>
    requires within { end ≤ length refs.now }
    requires linked { length links.now ≡ length refs.now }
    requires links { AreLinks refs.now links.now }
    requires grouped { EndsAt url.now family refs.now end }
    ensures near { IsNearest url.now family last refs.now end result }
    ensures below { IfSome result (λ index. index < end) }
{
    let mut left = end;
    while let Some(index) = left.checked_sub(1) {
        let reference = &refs[index];
        let link = links[index];
        if !is_of(url, family, reference) {
            return None;
        }
        if last_of(reference) >= last {
            return Some(index);
        }
        left = link.outer.min(index);
    }
    None
}

/// Whether one of the references before the end, of this URL and family, reaches this address.
pub fn some_reach(
    refs: &[Reference],
    links: &[Link],
    url: &str,
    family: u8,
    last: u128,
    end: usize,
) -> bool
    requires within { end ≤ length refs.now }
    requires linked { length links.now ≡ length refs.now }
    requires links { AreLinks refs.now links.now }
    requires grouped { EndsAt url.now family refs.now end }
    ensures { TellsSome url.now family last refs.now end result }
{
    let Some(index) = end.checked_sub(1) else {
        return false;
    };
    let reference = &refs[index];
    let link = links[index];
    is_of(url, family, reference) && link.reach >= last
}
