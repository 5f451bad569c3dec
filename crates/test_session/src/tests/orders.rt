//! Lines that stand elsewhere between two emits, what an emit touches, and what is not there. The
//! grounds and edges were counted from the lines by hand, and the sizes of files are those that the
//! program of checks/second gives.
use crate::tests::acts::Act::{self, Absent, Anew, Drop, Edges, Emit, Lines, Same, Set, Touched};
use crate::tests::acts::first_wrong_job;
use crate::tests::given::FEED;
use crate::tests::given::Kind::{Feed, Overrides, Rpsl, Stats};
use crate::tests::lines::Shape::{Blocks, Networks, References};

static ORDERS: [&[Act]; 4] = [
    // The lines of all sources go round, and no node is made anew.
    &[
        Lines(References, "", 0),
        Lines(Blocks, "DE", 0),
        Lines(Networks, "DE", 0),
        Touched(1128),
        Emit(1072),
        Lines(References, "", 7),
        Lines(Blocks, "DE", 7),
        Lines(Networks, "DE", 7),
        Anew(0),
        Same,
    ],
    // The two lines of a file, of which one is noted, are swapped.
    &[
        Set(
            Stats,
            "x",
            b"x|DE|ipv4|10.0.0.0|256||allocated\nx|ZZ|ipv4|10.0.1.0|256||allocated\n",
        ),
        Emit(1123),
        Drop(Stats, "x"),
        Set(
            Stats,
            "x",
            b"x|ZZ|ipv4|10.0.1.0|256||allocated\nx|DE|ipv4|10.0.0.0|256||allocated\n",
        ),
        Same,
    ],
    // A large first emit, and a small second one.
    &[
        Set(Stats, "all", b"x|US|ipv4|10.0.0.0|16777216||allocated\n"),
        Set(
            Rpsl,
            "r",
            b"inetnum: 10.0.0.0/8\ngeofeed: https://e.example/f.csv\n",
        ),
        Lines(Blocks, "DE", 0),
        Touched(1002),
        Edges(1001),
        Emit(1201),
        Lines(Blocks, "CH", 0),
        Touched(2),
        Edges(1),
    ],
    // What is not there is not dropped.
    &[
        Set(Stats, "x", b"x|DE|ipv4|10.0.0.0|16777216||allocated\n"),
        Absent(Stats, "y"),
        Absent(Rpsl, "x"),
        Absent(Feed, FEED),
        Absent(Overrides, ""),
        Touched(1),
    ],
];

// The table, by a function of its own, so that its length stands in no other proof.
fn orders() -> &'static [&'static [Act]] {
    &ORDERS
}

#[test]
fn lines_that_stand_elsewhere(rt: HostRuntime) {
    assert_eq!(rt; first_wrong_job(&rt, rt.alloc(), orders()), None);
}
