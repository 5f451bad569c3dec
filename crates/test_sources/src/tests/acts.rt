//! Sources of each kind set, replaced, dropped, and dropped where they are not there. The record
//! was told from the texts by hand.
use crate::tests::given::Kind::{Feed, Overrides, Rpsl, Stats};
use crate::tests::scripts::Step::{Act, Records};
use crate::tests::scripts::{Script, Step, first_wrong};

const FEED: &str = "https://e.example/f.csv";

const HERE: &str = "inetnum: 192.0.2.0 - 192.0.2.255\ngeofeed: https://e.example/f.csv\n";

const APART: &str = "inetnum: 192.0.3.0 - 192.0.3.255\ngeofeed: https://e.example/f.csv\n";

const AUSTRIA: &str = "x|AT|ipv4|192.0.2.0|256||allocated\n";

const SWISS: &str = "x|CH|ipv4|192.0.2.0|256||allocated\n";

const HOST: &[&str] = &["192.0.2.1"];

// Each step is followed by the record of one address after it.
static STEPS: [Step; 44] = [
    Act((Stats, "x", ""), "absent"),
    Records(HOST, "-;"),
    Act((Stats, "x", AUSTRIA), "set"),
    Records(HOST, "AT,,,;"),
    Act((Stats, "x", SWISS), "replaced"),
    Records(HOST, "CH,,,;"),
    Act((Rpsl, "r", ""), "absent"),
    Records(HOST, "CH,,,;"),
    Act((Rpsl, "r", HERE), "set"),
    Records(HOST, "CH,,,;"),
    Act((Feed, FEED, ""), "absent"),
    Records(HOST, "CH,,,;"),
    Act((Feed, FEED, "192.0.2.0/24,FR,,,\n"), "set"),
    Records(HOST, "FR,,,;"),
    Act((Feed, FEED, "192.0.2.0/24,DE,,,\n"), "replaced"),
    Records(HOST, "DE,,,;"),
    Act((Rpsl, "r", APART), "replaced"),
    Records(HOST, "CH,,,;"),
    Act((Rpsl, "r", HERE), "replaced"),
    Records(HOST, "DE,,,;"),
    Act((Overrides, "", ""), "absent"),
    Records(HOST, "DE,,,;"),
    Act((Overrides, "", "192.0.2.0/24,set,IT\n"), "set"),
    Records(HOST, "IT,,,;"),
    Act((Overrides, "", "192.0.2.0/24,set,ES\n"), "replaced"),
    Records(HOST, "ES,,,;"),
    Act((Feed, FEED, ""), "dropped"),
    Records(HOST, "ES,,,;"),
    Act((Overrides, "", ""), "dropped"),
    Records(HOST, "CH,,,;"),
    Act((Overrides, "", ""), "absent"),
    Records(HOST, "CH,,,;"),
    Act((Feed, FEED, "192.0.2.0/24,NL,,,\n"), "set"),
    Records(HOST, "NL,,,;"),
    Act((Rpsl, "r", ""), "dropped"),
    Records(HOST, "CH,,,;"),
    Act((Rpsl, "r", ""), "absent"),
    Records(HOST, "CH,,,;"),
    Act((Stats, "x", ""), "dropped"),
    Records(HOST, "-;"),
    Act((Feed, FEED, ""), "dropped"),
    Records(HOST, "-;"),
    Act((Feed, FEED, ""), "absent"),
    Records(HOST, "-;"),
];

// A table, by a function of its own, so that its length stands in no other proof.
fn steps() -> Script {
    &STEPS
}

#[test]
fn set_replaced_and_dropped(rt: HostRuntime) {
    assert_eq!(rt; first_wrong(rt.alloc(), &[steps()]), 1);
}
