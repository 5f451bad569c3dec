//! A realistic job: all kinds of sources together. Its report, records and reasons were told from
//! the texts by hand.
use crate::tests::given::Given;
use crate::tests::given::Kind::{Feed, Overrides, Rpsl, Stats};
use crate::tests::scripts::Step::{All, Reasons, Records, Report};
use crate::tests::scripts::{Script, Step, first_wrong};

const DUMP: &str = "% This is an extract.\n\n\
    inetnum:        192.0.2.0 - 192.0.2.255\nnetname:        EXAMPLE-NET\n\
    country:        DE\nremarks:        Geofeed https://geo.example.net/a.csv\n\
    last-modified:  2023-05-04T10:11:12Z\nsource:         RIPE\n\n\
    inetnum:        192.0.0.0 - 192.0.255.255\nnetname:        EXAMPLE-AGG\n\
    geofeed:        https://geo.example.net/b.csv\n\
    remarks:        Geofeed https://geo.example.net/old.csv\n\
    last-modified:  2022-01-01T00:00:00Z\nsource:         RIPE\n\n\
    inet6num:       2001:db8::/32\nnetname:        EXAMPLE-V6\n\
    geofeed:        https://geo.example.net/c.csv # see mail\n\
    last-modified:  2024-02-29T23:59:59Z\nsource:         RIPE\n\n\
    inetnum:        198.51.100.0 - 198.51.100.255\n\
    remarks:        Geofeed https://geo.example.net/x.csv\n\
    remarks:        Geofeed https://geo.example.net/y.csv\n\
    source:         RIPE\n\n\
    inetnum:        203.0.113.0 - 203.0.113.255\n\
    descr:          first line\n+               second line\n\
    geofeed:        https://geo.example.org/d.csv\n\
    last-modified:  yesterday\nsource:         RIPE\n\n\
    aut-num:        AS64496\nsource:         RIPE\n";

const A: &str = "# geofeed of Example Net\n192.0.2.0/25,de,DE-BY,München,\n\
    192.0.2.128/26,DE,DE-BE,Berlin,10115\n192.0.2.192/26,,,,\n192.0.3.0/24,DE,,,\n\
    # signature lines are comments\n";

const B: &str = "192.0.0.0/16,FR,,,\n192.0.2.0/24,US,US-CA,Los Angeles,\n\
    192.0.8.0/22,CH,CH-ZH,\"Zürich\",\n";

const C: &str = "2001:DB8::/33,NL,NL-NH,Amsterdam,\n2001:db8:8000::/33,JP,,Tokyo,,extra\n\
    2001:db8::/32,,XX-1234,,\n";

const STATS: &str = "2|nro|20240301|6|19700101|20240301|+0000\nnro|*|asn|*|1|summary\n\
    nro|*|ipv4|*|4|summary\nnro|*|ipv6|*|1|summary\n\
    ripencc|DE|asn|64496|1|20100101|allocated|A1\n\
    ripencc|GB|ipv4|192.0.0.0|65536|20100101|allocated|A1\n\
    arin|US|ipv4|198.51.100.0|768|20110101|assigned|A2\n\
    ripencc||ipv4|203.0.113.0|256||available|\n\
    ripencc|EU|ipv6|2001:db8::|32|20120101|allocated|A1\n\
    apnic|ZZ|ipv4|203.0.112.0|256|20120101|allocated|A3\n";

const OVER: &str = "192.0.2.10-192.0.2.19,set,AT,,Wien,\n203.0.113.0/24,void\n";

const GIVEN: &[Given] = &[
    (Rpsl, "ripe", DUMP),
    (Stats, "nro", STATS),
    (Feed, "https://geo.example.net/a.csv", A),
    (Feed, "https://geo.example.net/b.csv", B),
    (Feed, "https://geo.example.net/c.csv", C),
    (Overrides, "", OVER),
];

const REPORT: &str = "rpsl ripe 13 P10\nrpsl ripe 24 P04\nrpsl ripe 25 P04\nrpsl ripe 31 P09\n\
    rpsl ripe 32 P07\nfeed https://geo.example.net/a.csv 5 F09\n\
    feed https://geo.example.net/c.csv 3 F06\nstats nro 10 S06\n";

const ADDRESSES: &[&str] = &[
    "192.0.2.1",
    "192.0.2.12",
    "192.0.2.130",
    "192.0.2.200",
    "192.0.3.1",
    "192.0.9.1",
    "198.51.100.1",
    "198.51.102.255",
    "203.0.113.1",
    "203.0.112.1",
    "2001:db9::",
    "2001:db8::1",
    "2001:db8:8000::1",
];

const RECORDS: &str = "DE,DE-BY,München,;AT,,Wien,;DE,DE-BE,Berlin,10115;-;FR,,,;\
    CH,CH-ZH,Zürich,;US,,,;US,,,;-;-;-;NL,NL-NH,Amsterdam,;JP,,Tokyo,;";

// Why an address has its record where an override decides.
const OVERRIDDEN: &str = "1; ripe 6; 2; nro 6; AT,,Wien,";

static STEPS: [Step; 6] = [
    All(GIVEN),
    Report(REPORT),
    Records(ADDRESSES, RECORDS),
    Reasons("192.0.2.12", OVERRIDDEN),
    Reasons("::ffff:192.0.2.12", OVERRIDDEN),
    Reasons("2002:c000:20c::", OVERRIDDEN),
];

fn steps() -> Script {
    &STEPS
}

#[test]
fn report_records_and_reasons(rt: HostRuntime) {
    assert_eq!(rt; first_wrong(rt.alloc(), &[steps()]), 1);
}
