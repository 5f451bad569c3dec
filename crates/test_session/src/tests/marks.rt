//! Marks, going back to them, and compaction. The numbers were reckoned by hand: a file has 6 bytes
//! for each of its nodes, 16 zero bytes, its data section (22 bytes for a country, and 9 more for
//! another one), and 203 bytes from the marker on. The program of checks/second gives the same.
use crate::tests::acts::Act::{self, Again, Anew, Back, Compact, Drop, Emit, Mark, Set, Unmarked};
use crate::tests::acts::first_wrong_job;
use crate::tests::given::Kind::Stats;

/// Half of the IPv4 addresses.
const HALF: &[u8] = b"x|DE|ipv4|128.0.0.0|2147483648||allocated\n";

const FRENCH_HALF: &[u8] = b"x|FR|ipv4|128.0.0.0|2147483648||allocated\n";

/// 256 addresses.
const NET: &[u8] = b"x|DE|ipv4|192.0.2.0|256||allocated\n";

const AUSTRIAN_NET: &[u8] = b"x|AT|ipv4|192.0.2.0|256||allocated\n";

static MARKED: [&[Act]; 9] = [
    &[
        Set(Stats, "x", HALF),
        Emit(985),
        Mark("m"),
        Drop(Stats, "x"),
        Emit(225),
        Back("m"),
        // Nothing is touched, and so `emit` makes no step, by its contract.
        Anew(0),
        Emit(985),
        Compact(124),
    ],
    &[
        Set(Stats, "x", HALF),
        Mark("m"),
        Drop(Stats, "x"),
        Back("m"),
        Emit(985),
    ],
    &[Compact(0)],
    // A mark that replaces another, with an emit behind it; back twice; a drop after it.
    &[
        Set(Stats, "x", NET),
        Mark("m"),
        Emit(1123),
        Set(Stats, "x", HALF),
        Mark("m"),
        Back("m"),
        Emit(985),
        Back("m"),
        Drop(Stats, "x"),
        Emit(225),
        Back("m"),
        Emit(985),
    ],
    // Nodes of a mark are kept, and those that only its old root had are not.
    &[
        Set(Stats, "x", HALF),
        Emit(985),
        Mark("m"),
        Set(Stats, "x", NET),
        Emit(1123),
        Mark("m"),
        Compact(147),
        Set(Stats, "x", HALF),
        Emit(985),
        Drop(Stats, "x"),
        Back("m"),
        Emit(1123),
    ],
    // The tree of no sources has no nodes.
    &[
        Mark("m"),
        Set(Stats, "x", NET),
        Emit(1123),
        Back("m"),
        Compact(0),
        Emit(225),
    ],
    // A third file, of a session that was compacted behind the second.
    &[
        Set(Stats, "x", NET),
        Emit(1123),
        Set(Stats, "y", FRENCH_HALF),
        Emit(1132),
        Compact(147),
        Set(Stats, "x", AUSTRIAN_NET),
        Anew(2),
    ],
    &[Unmarked("m"), Mark("m"), Unmarked("n"), Back("m")],
    // Where an allocation of the first emit fails (`rt try --test --fail-alloc N`) the second
    // gives the file.
    &[Set(Stats, "x", HALF), Again(985)],
];

// The table, by a function of its own, so that its length stands in no other proof.
fn marked() -> &'static [&'static [Act]] {
    &MARKED
}

#[test]
fn jobs_with_marks(rt: HostRuntime) {
    assert_eq!(rt; first_wrong_job(&rt, rt.alloc(), marked()), None);
}
