//! What is kept of each reference in an index, so that those that cover a
//! block are found in a few looks.
ghost use Rattle.std.specs.Prelude.{◌≡◌, ◌&&◌, IfOk, length, nat_le, slice_get, Some};
ghost use Rattle.geo_terms.specs.declared.statement.Reference.{Reference};
ghost use Rattle.first_index.specs.Links.{AreLinks, AreShelved, IsOuter, IsReach};
ghost use Rattle.first_index.specs.Shelf.{same_group};

use crate::inetnums::shelf::{family, is_of, last_of};
use geo_addr::Memory;
use geo_terms::Reference;
use std::alloc::Global;

/// What is kept of the reference at an index, of those of its URL and family.
#[derive(Clone, Copy, Debug)]
pub struct Link {
    /// How far the references up to this index reach.
    pub reach: u128,
    /// The index behind the last earlier one that reaches farther than this one.
    pub outer: usize,
}

/// A link for each of these references.
pub fn links_of(alloc: Global, refs: &[Reference]) -> Result<Vec<Link>, Memory>
    requires { AreShelved refs.now }
    ensures links { IfOk result (λ links. AreLinks refs.now links.items) }
    ensures linked { IfOk result (λ links. length links.items ≡ length refs.now) }
{
    let mut links = Vec::with_capacity(alloc, refs.len())?;
    for (index, reference) in refs.iter().enumerate() {
        let link = Link {
            reach: reach_of(refs, links.as_slice(), index, reference),
            outer: outer_of(refs, links.as_slice(), index, reference),
        };
        links.push(link)?;
    }
    Ok(links)
}

// How far the references up to this index reach, by the link of the index before.
fn reach_of(refs: &[Reference], links: &[Link], index: usize, reference: &Reference) -> u128
    requires here { slice_get refs.now index ≡ Some reference.now }
    requires made { length links.now ≡ index }
    requires links { AreLinks refs.now links.now }
    requires shelved { AreShelved refs.now }
    ensures { IsReach refs.now reference.now index result }
{
    let last = last_of(reference);
    let Some(before) = index.checked_sub(1) else {
        return last;
    };
    let earlier = &refs[before];
    let link = links[before];
    if are_together(earlier, reference) {
        link.reach.max(last)
    } else {
        last
    }
}

// Where to go on from this index: from link to link, as long as none reaches farther.
fn outer_of(refs: &[Reference], links: &[Link], index: usize, reference: &Reference) -> usize
    requires here { slice_get refs.now index ≡ Some reference.now }
    requires made { length links.now ≡ index }
    requires links { AreLinks refs.now links.now }
    ensures { IsOuter refs.now reference.now index result }
{
    let mut left = index;
    while let Some(before) = left.checked_sub(1) {
        let earlier = &refs[before];
        let link = links[before];
        if !is_inner(earlier, reference) {
            break;
        }
        left = link.outer.min(before);
    }
    left
}

// Whether a reference is of the group of another one and reaches no farther.
fn is_inner(x: &Reference, y: &Reference) -> bool
    ensures { result ≡ (same_group x.now y.now && nat_le x.now.range.last y.now.range.last) }
{
    are_together(x, y) && last_of(x) <= last_of(y)
}

// Whether two references are of one URL and one family.
fn are_together(x: &Reference, y: &Reference) -> bool
    ensures { result ≡ same_group x.now y.now }
{
    is_of(y.url.as_str(), family(&y.range), x)
}
