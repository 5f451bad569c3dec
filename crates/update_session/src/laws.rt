//! What callers of a session rest on, as functions that do nothing: what each ensures is the law.
ghost use Rattle.std.specs.Prelude.{◌≡◌, ◌↔◌, ◌≤◌, ◌+◌, ◌*◌, length, IsTrue, List, None};
ghost use Rattle.geo_addr.specs.Ranges.{Ends};
ghost use Rattle.geo_terms.specs.Cuts.{statement_ranges};
ghost use Rattle.geo_terms.specs.Sources.{InForce};
ghost use Rattle.update_session.specs.Standing.{BackAsMarked, StandingStays};
ghost use Rattle.update_session.specs.State.{State, file_of, is_too_large};
ghost use Rattle.update_session.specs.Touch.{bound};

use source_changes::laws::order_does_not_matter;

/// There is no file of a fresh build exactly where records of 32 bits do not hold its numbers.
pub fn too_large_means_no_file()
    ensures { (s : State) → IsTrue (is_too_large s) ↔ (file_of s ≡ None) }
{}

/// The bound of an emit grows with the number of statements that have
/// changed and of those in force alone.
pub fn bound_by_statements()
    ensures { (touched : List Ends) (s : InForce)
        → bound touched s ≤ 256 * (length touched + 2 * length (statement_ranges s) + 1) }
{}

/// Where a session stands after a call follows from where it stood before and from the call alone.
pub fn standing_stays()
    ensures { StandingStays }
{
    order_does_not_matter();
}

/// Going back to a mark gives what was in force, and touched, when the session was marked: so an
/// emit gives the file of an emit there, and takes no step where nothing was touched then.
pub fn back_as_marked()
    ensures { BackAsMarked }
{}
