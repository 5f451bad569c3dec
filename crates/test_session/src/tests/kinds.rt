//! Sources of all kinds, set and dropped between emits. How many grounds each call touches was
//! counted by hand; the files are those of new sessions.
use crate::tests::acts::Act::{self, Anew, Drop, Set};
use crate::tests::acts::first_wrong_job;
use crate::tests::given::FEED;
use crate::tests::given::Kind::{Feed, Overrides, Rpsl, Stats};

const OTHER: &str = "https://e.example/g.csv";

/// References of `10.0.0.0/8`, `10.3.0.0/17` and `10.3.0.0/16` to the feed.
const WIDE: &[u8] = b"\n\n\n\ninetnum: 10.0.0.0/8\ngeofeed: https://e.example/f.csv\n";

const NARROW: &[u8] = b"\n\n\n\ninetnum: 10.3.0.0/17\ngeofeed: https://e.example/f.csv\n";

const HERE: &[u8] = b"\n\n\n\ninetnum: 10.3.0.0/16\ngeofeed: https://e.example/f.csv\n";

/// One of `10.3.0.0/16` to the other feed, and the same on the second line.
const THERE: &[u8] = b"\n\n\n\ninetnum: 10.3.0.0/16\ngeofeed: https://e.example/g.csv\n";

const ABOVE: &[u8] = b"inetnum: 10.3.0.0/16\ngeofeed: https://e.example/g.csv\n";

static CALLS: [&[Act]; 1] = [&[
    Set(Stats, "x", b"x|DE|ipv4|10.0.0.0|33554432||allocated\n"),
    Anew(1),
    Set(Overrides, "", b"10.0.0.0/8,set,FR\n"),
    Anew(1),
    Set(Overrides, "", b"11.0.0.0/8,set,FR\n"),
    Anew(2),
    Set(Rpsl, "r", WIDE),
    Anew(1),
    Set(Feed, FEED, b"10.2.0.0/16,AT,,,\n"),
    Anew(1),
    Set(Feed, FEED, b"10.3.0.0/16,AT,,,\n"),
    Anew(2),
    Set(Rpsl, "r", NARROW),
    Anew(2),
    // The same on another line.
    Set(Overrides, "", b"\n\n\n\n\n\n\n\n11.0.0.0/8,set,FR\n"),
    Anew(0),
    Set(Rpsl, "r", THERE),
    Anew(2),
    Set(Feed, OTHER, b"10.3.4.0/24,,,,\n"),
    Anew(1),
    Set(Stats, "y", b"x|SE|ipv6|2001::|16||allocated\n"),
    Anew(1),
    Set(Feed, OTHER, b"10.3.4.0/24,NL,,,\n"),
    Anew(2),
    Set(Feed, OTHER, b"\n\n\n\n\n\n10.3.4.0/24,NL,,,\n"),
    Anew(0),
    Set(Stats, "y", b"#\n#\nx|SE|ipv6|2001::|16||allocated\n"),
    Anew(0),
    Set(Stats, "y", b"#\n#\nx|NO|ipv6|2001::|16||allocated\n"),
    Anew(2),
    Set(Stats, "z", b"x|CH|ipv6|2002:a00::|24||allocated\n"),
    Anew(1),
    Set(Overrides, "", b"2000::/3,set,IT\n"),
    Anew(2),
    Set(Rpsl, "s", HERE),
    Anew(1),
    Set(Rpsl, "r", ABOVE),
    Anew(0),
    Drop(Feed, FEED),
    Anew(1),
    Set(Feed, FEED, b"10.3.0.0/16,BE,,,\n"),
    Anew(1),
    Drop(Overrides, ""),
    Anew(1),
    Drop(Rpsl, "r"),
    Anew(1),
    Set(Stats, "x", b"x|DE|ipv4|10.0.0.0|16777216||allocated\n"),
    Anew(2),
    Set(Stats, "x", b"x|DE|ipv4|10.0.0.0|16777216||allocated\n"),
    Anew(0),
    Drop(Stats, "x"),
    Anew(1),
    Drop(Feed, OTHER),
    Anew(1),
    Set(Overrides, "", b"0.0.0.0/0,set,ES\n"),
    Anew(1),
    Drop(Rpsl, "s"),
    Anew(1),
    Drop(Stats, "y"),
    Anew(1),
    Drop(Stats, "z"),
    Anew(1),
    Drop(Feed, FEED),
    Anew(1),
]];

// The table, by a function of its own, so that its length stands in no other proof.
fn calls() -> &'static [&'static [Act]] {
    &CALLS
}

#[test]
fn each_call_between_emits(rt: HostRuntime) {
    assert_eq!(rt; first_wrong_job(&rt, rt.alloc(), calls()), None);
}
