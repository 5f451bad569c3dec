//! What dumps say of feeds, however they are cut. What is wanted was told from the texts by hand.
use crate::tests::references::{is_wanted, push_notes, push_reference};
use feed_refs::DumpReader;
use geo_terms::Dump;
use std::alloc::Global;
use std::mem::drop;

// Pushes what a dump says: its references, and its notes as a report prints them.
fn push_dump(alloc: Global, dump: &Dump, text: &mut String) -> Option<()> {
    for reference in dump.refs.as_slice() {
        push_reference(alloc, reference, text)?;
    }
    push_notes(alloc, dump.notes.as_slice(), text)
}

fn says(alloc: Global, dump: &Dump, wanted: &str) -> bool {
    let mut text = String::new(alloc);
    let pushed = push_dump(alloc, dump, &mut text);
    is_wanted(pushed, text, wanted) && dump.slot.as_str() == "x"
}

fn feed_bytes(reader: &mut DumpReader, text: &[u8]) -> Option<()> {
    for byte in text {
        reader.feed(&[*byte]).ok()?;
    }
    Some(())
}

// Gives a reader a text in two pieces, or, where it is not said where to cut, byte by byte.
fn feed(reader: &mut DumpReader, text: &[u8], cut: Option<usize>) -> Option<()> {
    let Some(cut) = cut else {
        return feed_bytes(reader, text);
    };
    let cut = cut.min(text.len());
    reader.feed(&text[..cut]).ok()?;
    reader.feed(&text[cut..]).ok()
}

fn fed(alloc: Global, text: &[u8], cut: Option<usize>) -> Option<DumpReader> {
    let mut reader = DumpReader::new(alloc, "x").ok()?;
    match feed(&mut reader, text, cut) {
        Some(()) => Some(reader),
        None => {
            drop(reader);
            None
        }
    }
}

fn read(alloc: Global, text: &[u8], cut: Option<usize>) -> Option<Dump> {
    let reader = fed(alloc, text, cut)?;
    reader.finish().ok()
}

fn says_cut(alloc: Global, text: &[u8], cut: Option<usize>, wanted: &str) -> bool {
    match read(alloc, text, cut) {
        Some(dump) => {
            let says = says(alloc, &dump, wanted);
            drop(dump);
            says
        }
        None => false,
    }
}

// Whether a text says so however it is cut.
fn says_however_cut(alloc: Global, text: &[u8], wanted: &str) -> bool {
    for cut in 0..text.len() {
        if !says_cut(alloc, text, Some(cut), wanted) {
            return false;
        }
    }
    says_cut(alloc, text, None, wanted)
}

/// Dumps, and what they say.
static DUMPS: [(&[u8], &str); 5] = [
    (
        b"\xEF\xBB\xBF% An extract.\r\n\r\n\
            inetnum: 192.0.2.0 - 192.0.2.255\r\nfoo\r\n\
            remarks: Geofeed\r\n+  https://e.example/a.csv\r\n\
            last-modified: 2023-05-04T10:11:12Z\r\n \r\nbar\n\
            inet6num: 2001:db8::/126\n\
            geofeed: https://e.example/b.csv # see mail\nbaz\n\
            remarks: Geofeed https://e.example/old.csv\n\n\
            aut-num: AS64496\ngeofeed: https://e.example/c.csv",
        "5 192.0.2.0-192.0.2.255 20230504101112 https://e.example/a.csv\n\
            11 2001:db8::-2001:db8::3 0 https://e.example/b.csv\n\
            rpsl x 4 P02\nrpsl x 9 P02\nrpsl x 12 P02\nrpsl x 13 P10\n",
    ),
    (
        b"inetnum: 192.0.2.0 - 192.0.2.255\n\
            geofeed: https://e.example/f.csv\n\
            geofeed: https://e.example/g.csv\n",
        "rpsl x 2 P04\nrpsl x 3 P04\n",
    ),
    (
        b"inetnum: 192.0.2.0 - 192.0.2.255\n\
            remarks: Geofeed https://e.example/f.csv\n\
            remarks: Geofeed https://e.example/g.csv\n",
        "rpsl x 2 P04\nrpsl x 3 P04\n",
    ),
    (
        b"inetnum: 192.0.2.0 - 192.0.2.255\n\
            geofeed: https://e.example/f.csv\n\
            remarks: Geofeed https://e.example/g.csv\n",
        "2 192.0.2.0-192.0.2.255 0 https://e.example/f.csv\nrpsl x 3 P10\n",
    ),
    (
        b"inetnum: 192.0.2.0 - 192.0.2.255\n\
            remarks: geofeed https://e.example/f.csv\n",
        "",
    ),
];

fn dumps() -> &'static [(&'static [u8], &'static str)] {
    &DUMPS
}

static REALISTIC: &[u8] = b"% This is an extract.\n\n\
    inetnum:        192.0.2.0 - 192.0.2.255\nnetname:        EXAMPLE-NET\n\
    country:        DE\nremarks:        Geofeed https://geo.example.net/a.csv\n\
    last-modified:  2023-05-04T10:11:12Z\nsource:         RIPE\n\n\
    inetnum:        192.0.0.0 - 192.0.255.255\nnetname:        EXAMPLE-AGG\n\
    geofeed:        https://geo.example.net/b.csv\n\
    remarks:        Geofeed https://geo.example.net/old.csv\n\
    last-modified:  2022-01-01T00:00:00Z\nsource:         RIPE\n\n\
    inet6num:       2001:db8::/32\nnetname:        EXAMPLE-V6\n\
    geofeed:        https://geo.example.net/c.csv # see mail\n\
    last-modified:  2024-02-29T23:59:59Z\nsource:         RIPE\n\n\
    inetnum:        198.51.100.0 - 198.51.100.255\n\
    remarks:        Geofeed https://geo.example.net/x.csv\n\
    remarks:        Geofeed https://geo.example.net/y.csv\n\
    source:         RIPE\n\n\
    inetnum:        203.0.113.0 - 203.0.113.255\n\
    descr:          first line\n+               second line\n\
    geofeed:        https://geo.example.org/d.csv\n\
    last-modified:  yesterday\nsource:         RIPE\n\n\
    aut-num:        AS64496\nsource:         RIPE\n";

fn realistic() -> &'static [u8] {
    REALISTIC
}

static REALISTIC_SAYS: &str =
    "6 192.0.2.0-192.0.2.255 20230504101112 https://geo.example.net/a.csv\n\
    12 192.0.0.0-192.0.255.255 20220101000000 https://geo.example.net/b.csv\n\
    19 2001:db8::-2001:db8:ffff:ffff:ffff:ffff:ffff:ffff 20240229235959 \
    https://geo.example.net/c.csv\n\
    31 203.0.113.0-203.0.113.255 0 https://geo.example.org/d.csv\n\
    rpsl x 13 P10\nrpsl x 24 P04\nrpsl x 25 P04\nrpsl x 32 P07\n";

fn realistic_says() -> &'static str {
    REALISTIC_SAYS
}

#[test]
fn what_dumps_say(rt: HostRuntime) {
    for (text, wanted) in dumps() {
        assert!(rt; says_however_cut(rt.alloc(), text, wanted));
    }
    let text = realistic();
    assert!(rt; says_cut(rt.alloc(), text, Some(text.len() / 2), realistic_says()));
}
