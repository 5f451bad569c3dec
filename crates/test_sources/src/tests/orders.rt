//! The same sources set in other orders, some of them instead of others: each order tells the same,
//! which was told from the texts by hand.
use crate::tests::given::Given;
use crate::tests::given::Kind::{Feed, Overrides, Rpsl, Stats};
use crate::tests::scripts::Step::{All, Records, Report, Segments};
use crate::tests::scripts::{Script, Step, first_wrong};

const FEED: &str = "https://e.example/f.csv";

const OTHER: &str = "https://e.example/g.csv";

const EARLIER: Given = (
    Rpsl,
    "r",
    "inetnum: 192.0.2.0 - 192.0.2.255\ngeofeed: https://e.example/f.csv\n",
);

const LATER: Given = (
    Rpsl,
    "s",
    "inetnum: 192.0.2.0 - 192.0.2.255\ngeofeed: https://e.example/g.csv\n\
        last-modified: 2023-01-01T00:00:00Z\n",
);

const WIDE: Given = (Stats, "x", "x|AT|ipv4|192.0.0.0|65536||allocated\n");

const NARROW: Given = (Stats, "y", "y|CH|ipv4|192.0.2.0|512||allocated\n");

const LOWER: Given = (Feed, FEED, "192.0.2.0/25,FR,,,\n");

const UPPER: Given = (Feed, OTHER, "192.0.2.128/25,DE,,,\n");

const OVER: Given = (Overrides, "", "192.0.2.64/26,set,IT\n");

// Sources that others of these replace.
const OLD_DUMP: Given = (
    Rpsl,
    "s",
    "inetnum: 192.0.3.0 - 192.0.3.255\ngeofeed: https://e.example/f.csv\n\
        last-modified: 2024-01-01T00:00:00Z\n",
);

const OLD_STATS: Given = (Stats, "x", "x|NO|ipv4|192.0.2.0|128||allocated\n");

const OLD_FEED: Given = (Feed, OTHER, "192.0.2.0/25,SE,,,\n");

const OLD_OVER: Given = (Overrides, "", "0.0.0.0/0,set,ES\n");

const ADDRESSES: &[&str] = &[
    "192.0.2.1",
    "192.0.2.70",
    "192.0.2.200",
    "192.0.3.1",
    "192.0.4.1",
    "192.1.0.0",
];

const SEGMENTS: &str = "c0000200-c000023f CH,,,;c0000240-c000027f IT,,,;c0000280-c00002ff DE,,,;\
    c0000300-c00003ff CH,,,;c0000400-c00004ff AT,,,;";

const REPORTED: Step = Report("rpsl r 2 P08\n");

const RECORDED: Step = Records(ADDRESSES, "CH,,,;IT,,,;DE,,,;CH,,,;AT,,,;-;");

const CUT: Step = Segments("192.0.2.0-192.0.4.255", SEGMENTS);

static ORDERS: [Script; 5] = [
    &[
        All(&[EARLIER, LATER, WIDE, NARROW, LOWER, UPPER, OVER]),
        REPORTED,
        RECORDED,
        CUT,
    ],
    &[
        All(&[OVER, UPPER, LOWER, NARROW, WIDE, LATER, EARLIER]),
        REPORTED,
        RECORDED,
        CUT,
    ],
    &[
        All(&[NARROW, OVER, LATER, LOWER, EARLIER, WIDE, UPPER]),
        REPORTED,
        RECORDED,
        CUT,
    ],
    &[
        All(&[
            OLD_DUMP, OLD_STATS, OLD_FEED, OLD_OVER, EARLIER, LATER, WIDE, NARROW, LOWER, UPPER,
            OVER,
        ]),
        REPORTED,
        RECORDED,
        CUT,
    ],
    &[
        All(&[
            OLD_OVER, OVER, OLD_FEED, UPPER, LOWER, OLD_STATS, NARROW, WIDE, OLD_DUMP, LATER,
            EARLIER,
        ]),
        REPORTED,
        RECORDED,
        CUT,
    ],
];

fn orders() -> &'static [Script] {
    &ORDERS
}

#[test]
fn orders_of_setting(rt: HostRuntime) {
    assert_eq!(rt; first_wrong(rt.alloc(), orders()), orders().len());
}
