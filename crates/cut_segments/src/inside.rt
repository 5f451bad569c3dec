//! The cut points of a source that lie inside given ranges, by halving.
ghost use Rattle.std.specs.Prelude.{◌≡◌, ◌↔◌, ◌⊎◌, ◌&&◌, ◌++◌, ◌∷◌, ◌<◌, [], ℕ, if◌then◌else◌, All};
ghost use Rattle.std.specs.Prelude.{Any, Contains, length, nat_le, OnOk};
ghost use Rattle.std.specs.List.{AllAdjacentBelow, list_any};
ghost use Rattle.std.specs.List.Sorted.{IsStrictlyIncreasing};
ghost use Rattle.geo_addr.specs.Ranges.{IsRange, IsWithin};

use geo_addr::{Memory, Range};

/// Appends those of ascending points that lie inside one of several ascending ranges.
///
/// The longer of the two lists is halved for each member of the shorter one.
pub fn push_inside(found: &mut Vec<u128>, points: &[u128], ranges: &[Range]) -> Result<(), Memory>
    requires ascending { IsStrictlyIncreasing points.now }
    requires ranges { All IsRange ranges.now }
    requires apart { AllAdjacentBelow (λ r t. r.last < t.first) ranges.now (length ranges.now) }
    ensures { OnOk result ((c : ℕ) → Contains found.new.items c ↔ (Contains found.old.items c
        ⊎ (Contains points.now c × Any (λ r. IsWithin r c) ranges.now))) }
{
    if ranges.len() < points.len() {
        push_by_range(found, points, ranges)
    } else {
        push_by_point(found, points, ranges)
    }
}

fn push_by_range(found: &mut Vec<u128>, points: &[u128], ranges: &[Range]) -> Result<(), Memory>
    requires { IsStrictlyIncreasing points.now }
    ensures { OnOk result ((c : ℕ) → Contains found.new.items c ↔ (Contains found.old.items c
        ⊎ (Contains points.now c × Any (λ r. IsWithin r c) ranges.now))) }
{
    for range in ranges {
        found.extend_from_slice(part_inside(points, *range))?;
    }
    Ok(())
}

/// The part of ascending points that lies inside a range.
pub fn part_inside(points: &[u128], range: Range) -> &[u128]
    requires { IsStrictlyIncreasing points.now }
    ensures { (c : ℕ) → Contains result.now c ↔ (Contains points.now c × IsWithin range c) }
{
    let first = points.partition_point(|point| *point < range.first);
    let (_, from) = points.split_at(first);
    let past = from.partition_point(|point| *point <= range.last);
    let (inside, _) = from.split_at(past);
    inside
}

fn push_by_point(found: &mut Vec<u128>, points: &[u128], ranges: &[Range]) -> Result<(), Memory>
    requires ranges { All IsRange ranges.now }
    requires apart { AllAdjacentBelow (λ r t. r.last < t.first) ranges.now (length ranges.now) }
    ensures { OnOk result ((c : ℕ) → Contains found.new.items c ↔ (Contains found.old.items c
        ⊎ (Contains points.now c × Any (λ r. IsWithin r c) ranges.now))) }
{
    for point in points {
        push_if(found, *point, is_inside(ranges, *point))?;
    }
    Ok(())
}

fn push_if(found: &mut Vec<u128>, point: u128, is_inside: bool) -> Result<(), Memory>
    ensures { OnOk result
        (found.new.items ≡ found.old.items ++ (if is_inside then point ∷ [] else [])) }
{
    if is_inside {
        found.push(point)?;
    }
    Ok(())
}

// Whether a point lies inside one of ascending ranges.
fn is_inside(ranges: &[Range], point: u128) -> bool
    requires ranges { All IsRange ranges.now }
    requires apart { AllAdjacentBelow (λ r t. r.last < t.first) ranges.now (length ranges.now) }
    ensures { result ≡ list_any (λ r. nat_le r.first point && nat_le point r.last) ranges.now }
{
    let begun = ranges.partition_point(|range| range.first <= point);
    match begun.checked_sub(1) {
        Some(last) => {
            let range = ranges[last];
            point <= range.last
        }
        None => false,
    }
}
