//! Worked rows: sources, their report, the records of addresses, and the reasons for some. What is
//! wanted was told from the texts by hand.
use crate::tests::given::Given;
use crate::tests::given::Kind::{Feed, Overrides, Rpsl, Stats};
use crate::tests::scripts::Step::{All, Reasons, Records, Report};
use crate::tests::scripts::{Script, Step, first_wrong};

const FEED: &str = "https://e.example/f.csv";

const OTHER: &str = "https://e.example/g.csv";

const OBJECT: &str = "inetnum: 192.0.2.0 - 192.0.2.255\ngeofeed: https://e.example/f.csv\n";

const STATS: Given = (Stats, "nro", "x|DE|ipv4|192.0.0.0|65536||allocated\n");

const WIDE_FEED: Given = (Feed, FEED, "192.0.0.0/16,FR,,,\n");

const NARROW: Given = (
    Rpsl,
    "b",
    "inetnum: 192.0.2.0 - 192.0.2.255\ndescr: 2\ndescr: 3\ndescr: 4\ndescr: 5\n\
        geofeed: https://e.example/g.csv\n",
);

const WIDE: Given = (
    Rpsl,
    "a",
    "inetnum: 192.0.0.0 - 192.0.255.255\ngeofeed: https://e.example/f.csv\n",
);

const DATED: Given = (
    Rpsl,
    "b",
    "inetnum: 192.0.2.0 - 192.0.2.255\ndescr: 2\ndescr: 3\ndescr: 4\n\
        last-modified: 2023-01-01T00:00:00Z\ngeofeed: https://e.example/g.csv\n",
);

const LATER: Given = (
    Rpsl,
    "c",
    "inetnum: 192.0.2.0 - 192.0.2.255\nlast-modified: 2024-01-01T00:00:00Z\n\
        geofeed: https://e.example/f.csv\n",
);

/// A part of a realistic job: of the two objects of the dump the second one lies apart.
const SMALL_JOB: &[Given] = &[
    (
        Rpsl,
        "ripe",
        "% An extract.\n\ninetnum: 192.0.2.0 - 192.0.2.255\nnetname: N\ncountry: DE\n\
            remarks: Geofeed https://geo.example.net/a.csv\n\
            last-modified: 2023-05-04T10:11:12Z\nsource: RIPE\n\n\
            inetnum: 10.0.0.0 - 10.0.0.255\nnetname: N\n\
            geofeed: https://geo.example.net/a.csv\n\
            remarks: Geofeed https://geo.example.net/old.csv\n",
    ),
    (
        Stats,
        "nro",
        "#\n#\n#\n#\n#\nripencc|GB|ipv4|192.0.0.0|65536|20100101|allocated|A1\n#\n#\n#\n\
            apnic|ZZ|ipv4|203.0.112.0|256|20120101|allocated|A3\n",
    ),
    (Overrides, "", "192.0.2.10-192.0.2.19,set,AT,,Wien,\n"),
    (
        Feed,
        "https://geo.example.net/a.csv",
        "#\n192.0.2.0/25,de,DE-BY,München,\n",
    ),
];

/// Entries, objects and delegations: which of them goes first.
static ENTRIES: [Script; 6] = [
    // An entry goes before a delegation.
    &[
        All(&[
            (Rpsl, "ripe", OBJECT),
            (Feed, FEED, "192.0.2.0/25,de,DE-BY,München,\n"),
            (Stats, "x", "x|AT|ipv4|192.0.2.0|256||allocated\n"),
        ]),
        Report(""),
        Records(
            &["192.0.2.1", "192.0.2.200", "192.0.3.0"],
            "DE,DE-BY,München,;AT,,,;-;",
        ),
    ],
    // An object whose feed is not there keeps its authority inside a wider one.
    &[
        All(&[
            (
                Rpsl,
                "ripe",
                "inetnum: 192.0.0.0 - 192.0.255.255\ngeofeed: https://e.example/f.csv\n\n\
                    inetnum: 192.0.2.0 - 192.0.2.255\ngeofeed: https://e.example/g.csv\n",
            ),
            (Feed, FEED, "192.0.0.0/16,FR,,,\n"),
            (Stats, "x", "x|DE|ipv4|192.0.0.0|65536||allocated\n"),
        ]),
        Report("rpsl ripe 5 P09\n"),
        Records(&["192.0.3.1", "192.0.2.1"], "FR,,,;DE,,,;"),
    ],
    // Of two objects of one range the later one speaks.
    &[
        All(&[
            (
                Rpsl,
                "ripe",
                "inetnum: 192.0.2.0 - 192.0.2.255\ngeofeed: https://e.example/f.csv\n\
                    last-modified: 2023-01-01T00:00:00Z\n\n\
                    inetnum: 192.0.2.0 - 192.0.2.255\ngeofeed: https://e.example/g.csv\n\
                    last-modified: 2024-01-01T00:00:00Z\n",
            ),
            (Feed, FEED, "192.0.2.0/24,FR,,,\n"),
            (Feed, OTHER, "192.0.2.0/24,DE,,,\n"),
        ]),
        Report("rpsl ripe 2 P08\n"),
        Records(&["192.0.2.1"], "DE,,,;"),
    ],
    // Overrides of both families are everywhere.
    &[
        All(&[(Overrides, "", "0.0.0.0/0,set,FR\n::/0,set,FR\n")]),
        Report(""),
        Records(
            &[
                "0.0.0.0",
                "255.255.255.255",
                "::1:0:0",
                "::ffff:1.2.3.4",
                "2002::1",
                "ffff:ffff:ffff:ffff:ffff:ffff:ffff:ffff",
            ],
            "FR,,,;FR,,,;FR,,,;FR,,,;FR,,,;FR,,,;",
        ),
    ],
    // An entry that says nothing keeps a delegation silent, and a wide one is not cut to fit.
    &[
        All(&[
            (Rpsl, "ripe", OBJECT),
            (
                Feed,
                FEED,
                "192.0.0.0/16,US,,,\n192.0.2.0/25,,,,\n192.0.2.128/25,ZZ,,,\n",
            ),
            (Stats, "x", "x|DE|ipv4|192.0.2.0|256||allocated\n"),
        ]),
        Report("feed https://e.example/f.csv 1 F09\n"),
        Records(
            &[
                "192.0.2.0",
                "192.0.2.127",
                "192.0.2.128",
                "192.0.2.255",
                "192.0.3.0",
            ],
            "-;-;-;-;-;",
        ),
    ],
    &[
        All(&[
            (Rpsl, "ripe", OBJECT),
            (Feed, FEED, "192.0.0.0/16,US,,,\n"),
            (Stats, "x", "x|DE|ipv4|192.0.2.0|256||allocated\n"),
        ]),
        Report("feed https://e.example/f.csv 1 F09\n"),
        Records(&["192.0.2.1"], "DE,,,;"),
    ],
];

fn entries() -> &'static [Script] {
    &ENTRIES
}

/// What is said where IPv6 carries IPv4 addresses.
static CARRIED: [Script; 4] = [
    // What stands in the blocks that carry IPv4 addresses does not speak there.
    &[
        All(&[(Overrides, "", "2002:a00::/24,set,FR\n")]),
        Report("overrides - 1 A01\n"),
        Records(&["2002:a00:1::"], "-;"),
    ],
    &[
        All(&[(Overrides, "", "2000::/3,set,FR\n")]),
        Report(""),
        Records(&["2001::1", "2003::1", "2002::1"], "FR,,,;FR,,,;-;"),
    ],
    &[
        All(&[(Stats, "x", "x|DE|ipv4|128.0.0.0|2147483648||allocated")]),
        Report(""),
        Records(
            &[
                "128.0.0.1",
                "2002:8000:1::",
                "::ffff:128.0.0.1",
                "127.0.0.1",
            ],
            "DE,,,;DE,,,;DE,,,;-;",
        ),
    ],
    // One delegation, at its addresses and where IPv6 carries one of them.
    &[
        All(&[(Stats, "x", "x|DE|ipv4|128.0.0.0|2147483648||allocated")]),
        Reasons("128.0.0.1", "0; - 0; 0; x 1; DE,,,"),
        Reasons("::ffff:128.0.0.1", "0; - 0; 0; x 1; DE,,,"),
        Reasons("2002:8000:1::", "0; - 0; 0; x 1; DE,,,"),
    ],
];

fn carried() -> &'static [Script] {
    &CARRIED
}

/// Several sources of several kinds, and notes.
static TOGETHER: [Script; 6] = [
    // An object inside a wider one, in two dumps, of which the narrow object's comes first.
    &[
        All(&[STATS, WIDE_FEED, NARROW, WIDE]),
        Report("rpsl b 6 P09\n"),
        Records(&["192.0.3.1", "192.0.2.1"], "FR,,,;DE,,,;"),
    ],
    // The same after another dump came instead of the narrow object's,
    // and a later one beside it.
    &[
        All(&[STATS, WIDE_FEED, NARROW, WIDE, DATED, LATER]),
        Report("rpsl b 6 P08\nrpsl b 6 P09\n"),
    ],
    // An override of all IPv4 addresses decides at each of them.
    &[
        All(&[
            (Rpsl, "ripe", OBJECT),
            (Feed, FEED, "192.0.2.0/25,de,DE-BY,München,\n"),
            (Stats, "nro", "x|AT|ipv4|192.0.2.0|256||allocated\n"),
            (Overrides, "", "0.0.0.0/0,set,FR\n"),
        ]),
        Report(""),
        Records(
            &["0.0.0.0", "192.0.2.1", "255.255.255.255", "::1:0:0"],
            "FR,,,;FR,,,;FR,,,;-;",
        ),
    ],
    // A report is in its order, whatever that of the sources.
    &[
        All(&[
            (
                Stats,
                "ripe",
                "#\n#\n#\n#\n#\n#\nx|ZZ|ipv4|192.0.2.0|256||allocated\n",
            ),
            (Overrides, "", "::ffff:0:0/96,set,FR\n"),
            (Stats, "apnic", "#\n#\nx|ZZ|ipv4|192.0.2.0|256||allocated\n"),
            (Feed, FEED, "2002::/16,FR,,,\n"),
        ]),
        Report(
            "feed https://e.example/f.csv 1 A01\nfeed https://e.example/f.csv 1 F09\n\
            stats apnic 3 S06\nstats ripe 7 S06\noverrides - 1 A01\n",
        ),
    ],
    // A note on overrides.
    &[
        All(&[(Overrides, "", "#\n#\n192.0.2.0/24,Set,FR\n")]),
        Report("overrides - 3 O04\n"),
        Records(&["192.0.2.1"], "-;"),
    ],
    // An override inside an object, and a delegation around it.
    &[
        All(SMALL_JOB),
        Report("rpsl ripe 13 P10\nstats nro 10 S06\n"),
        Records(
            &["192.0.2.19", "192.0.2.20"],
            "AT,,Wien,;DE,DE-BY,München,;",
        ),
        Reasons("192.0.2.12", "1; ripe 6; 2; nro 6; AT,,Wien,"),
        Reasons("192.0.2.1", "0; ripe 6; 2; nro 6; DE,DE-BY,München,"),
        Reasons("192.0.3.1", "0; - 0; 0; nro 6; GB,,,"),
        Reasons("::ffff:192.0.2.12", "1; ripe 6; 2; nro 6; AT,,Wien,"),
    ],
];

fn together() -> &'static [Script] {
    &TOGETHER
}

#[test]
fn worked_rows(rt: HostRuntime) {
    for rows in [entries(), carried(), together()] {
        assert_eq!(rt; first_wrong(rt.alloc(), rows), rows.len());
    }
}
