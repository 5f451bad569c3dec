//! The order in which references stand in an index: those of one URL and one family together, by
//! their first addresses, and of those that begin alike the largest first.
ghost use Rattle.std.specs.Prelude.{◌≡◌, not};
ghost use Rattle.std.specs.Ordering.{is_lt};
ghost use Rattle.std.specs.declared.cmp.Ordering.{Ordering};
ghost use Rattle.first_index.specs.Shelf.{family, key_of, key_cmp, shelf_cmp, is_of, same_group};

use geo_addr::Range;
use geo_terms::Reference;
use std::cmp::Ordering;

// Whether a range is IPv6, as a number to sort by.
pub(crate) fn family(range: &Range) -> u8
    ensures { result ≡ family range.now }
{
    if range.is_v4() { 0 } else { 1 }
}

#[tactic(auto, unfolding(crate::specs::Shelf::shelf_cmp, crate::specs::Shelf::key_cmp))]
pub(crate) fn shelf_order(x: &Reference, y: &Reference) -> Ordering
    ensures { result ≡ shelf_cmp x.now y.now }
{
    let by_url = x.url.cmp(&y.url);
    let by_family = family(&x.range).cmp(&family(&y.range));
    let by_first = x.range.first.cmp(&y.range.first);
    by_url
        .then(by_family)
        .then(by_first)
        .then(y.range.last.cmp(&x.range.last))
}

// Whether a reference stands behind all those of this URL and family that begin at or before this
// address.
#[tactic(auto, unfolding(crate::specs::Shelf::key_cmp))]
pub(crate) fn is_behind(url: &str, of_family: u8, first: u128, reference: &Reference) -> bool
    ensures { result ≡ is_lt (key_cmp (record { url = url.now; family = of_family; first = first })
        (key_of reference.now)) }
{
    let by_url = url.cmp(reference.url.as_str());
    let by_family = of_family.cmp(&family(&reference.range));
    let by_first = first.cmp(&reference.range.first);
    by_url.then(by_family).then(by_first).is_lt()
}

// Whether a reference is of this URL and family.
pub(crate) fn is_of(url: &str, of_family: u8, reference: &Reference) -> bool
    ensures { result ≡ is_of url.now of_family reference.now }
{
    reference.url.as_str() == url && family(&reference.range) == of_family
}

// The last address of a reference.
pub(crate) fn last_of(reference: &Reference) -> u128
    ensures { result ≡ reference.now.range.last }
{
    reference.range.last
}
