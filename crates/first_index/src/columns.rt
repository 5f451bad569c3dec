//! Boundaries in columns: 20 bytes each in place of 32, and the column of addresses is of use by
//! itself.
ghost use Rattle.std.specs.Prelude.{◌≡◌, ◌<◌, ◌≤◌, ◌-◌, ◌++◌, ◌∷◌, [], ℕ, IfOk, IsTrue, None};
ghost use Rattle.std.specs.Prelude.{OnErr, OnOk, Some, drop, false, length, slice_get, slice_set};
ghost use Rattle.first_index.specs.Boundaries.{told};
ghost use Rattle.first_index.specs.Columns.{AreColumns, begin_at, coded_index, of_columns};

use crate::boundaries::Boundary;
use geo_addr::Memory;

// Stands for no index.
const NONE: u32 = u32::MAX;

// An index as one number; there is no memory for one that is greater.
pub fn coded(first: Option<usize>) -> Result<u32, Memory>
    ensures { IfOk result (λ code. coded_index code ≡ first) }
{
    let Some(index) = first else {
        return Ok(NONE);
    };
    let Ok(code) = u32::try_from(index) else {
        return Err(Memory);
    };
    if code == NONE {
        return Err(Memory);
    }
    Ok(code)
}

pub fn decoded(code: u32) -> Option<usize>
    ensures { result ≡ coded_index code }
{
    if code == NONE {
        return None;
    }
    Some(code as usize)
}

// Whether the boundary at an index and the one before it stand at one address.
pub fn stands_at(boundaries: &[Boundary], index: usize, at: u128) -> bool
    ensures { result ≡ begin_at (drop index boundaries.now) at }
{
    match boundaries.get(index) {
        Some(boundary) => boundary.at == at,
        None => false,
    }
}

// Whether an address is behind the last of these points.
pub fn is_past(points: &[u128], at: u128) -> bool
    ensures past { IsTrue result → (p : ℕ)
        → slice_get points.now (length points.now - 1) ≡ Some p → p < at }
    ensures held { result ≡ false → (p : ℕ)
        × ((slice_get points.now (length points.now - 1) ≡ Some p) × (at ≤ p)) }
{
    match points.last() {
        Some(last) => *last < at,
        None => true,
    }
}

// Puts a point and its code behind those in the columns, or stops with the columns as they were:
// where the room that was made for all of them is used up, there is no memory for more.
pub fn put_column(
    points: &mut Vec<u128>,
    codes: &mut Vec<u32>,
    at: u128,
    code: u32,
) -> Result<(), Memory>
    ensures put { OnOk result ((points.new.items ≡ points.old.items ++ at ∷ [])
        × (codes.new.items ≡ codes.old.items ++ code ∷ [])) }
    ensures kept { OnErr result ((points.new.items ≡ points.old.items)
        × (codes.new.items ≡ codes.old.items)) }
{
    if points.len() >= points.capacity() || codes.len() >= codes.capacity() {
        return Err(Memory);
    }
    points.push(at)?;
    codes.push(code)?;
    Ok(())
}

// Puts another code in place of the last one.
pub fn set_last(codes: &mut Vec<u32>, code: u32)
    ensures { codes.new.items ≡ slice_set codes.old.items (length codes.old.items - 1) code }
{
    if let Some(last) = codes.len().checked_sub(1) {
        codes[last] = code;
    }
}

// What boundaries in two columns tell of an address.
pub fn told(points: &[u128], codes: &[u32], at: u128) -> Option<usize>
    requires { AreColumns points.now codes.now }
    ensures { result ≡ told None (of_columns points.now codes.now) at }
{
    let passed = points.partition_point(|point| *point <= at);
    let last = passed.checked_sub(1)?;
    decoded(codes[last])
}
