//! What boundaries tell of an address, looked for first where the last answer stood.
ghost use Rattle.std.specs.Prelude.{◌≡◌, ◌≤◌, ◌<◌, ℕ, None, Some, IfSome, IsTrue, false, length};
ghost use Rattle.std.specs.Prelude.{slice_get};
ghost use Rattle.first_index.specs.Boundaries.{told};
ghost use Rattle.first_index.specs.Columns.{AreColumns, of_columns};

use crate::columns::decoded;

// What boundaries in two columns tell of an address. It is looked for first at a few boundaries
// from the one at `near` on, and else by halving; `near` is then where it was found.
pub fn told_near(points: &[u128], codes: &[u32], at: u128, near: &mut usize) -> Option<usize>
    requires { AreColumns points.now codes.now }
    ensures { result ≡ told None (of_columns points.now codes.now) at }
{
    if let Some(first) = told_from(points, codes, at, near) {
        return first;
    }
    let passed = points.partition_point(|point| *point <= at);
    let last = passed.checked_sub(1)?;
    *near = last;
    decoded(codes[last])
}

// What is told, if one of a few boundaries from the one at `near` on tells it.
#[tactic(auto, using(crate::proofs::NearLemmas::told_here))]
fn told_from(points: &[u128], codes: &[u32], at: u128, near: &mut usize) -> Option<Option<usize>>
    requires { AreColumns points.now codes.now }
    ensures { IfSome result (λ first. first ≡ told None (of_columns points.now codes.now) at) }
{
    if !is_passed(points, at, *near) {
        return None;
    }
    for _ in 0..4 {
        if !is_passed(points, at, *near + 1) {
            return Some(decoded(codes[*near]));
        }
        *near += 1;
    }
    None
}

// Whether there is a point at an index, and it is not behind the address.
fn is_passed(points: &[u128], at: u128, index: usize) -> bool
    ensures within { IsTrue result → index < length points.now }
    ensures below { IsTrue result → (p : ℕ) → slice_get points.now index ≡ Some p → p ≤ at }
    ensures behind { result ≡ false → (p : ℕ) → slice_get points.now index ≡ Some p → at < p }
{
    match points.get(index) {
        Some(point) => *point <= at,
        None => false,
    }
}
