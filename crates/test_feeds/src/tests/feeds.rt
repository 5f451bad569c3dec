//! Feeds: entries and notes, told from the lines by hand, and how many of them large feeds have.
use crate::tests::shown::{digit, push_line, push_notes};
use fan_work::Forks;
use feed_csv::{KnownTails, read_feed, read_feed_by_parts};
use geo_addr::block_text;
use geo_outside::OpenGate;
use geo_terms::{Entry, Feed};
use std::alloc::Global;
use std::test::Fail;

fn push_entry(alloc: Global, text: &mut Vec<u8>, entry: &Entry) -> Result<(), Fail> {
    let block = block_text(alloc, entry.block)?;
    push_line(text, entry.line, block.as_str(), &entry.said, b"-")
}

fn push_entries(alloc: Global, text: &mut Vec<u8>, entries: &[Entry]) -> Result<(), Fail> {
    for entry in entries {
        push_entry(alloc, text, entry)?;
    }
    Ok(())
}

// The line, the block and the texts of each entry, and the notes.
fn push_feed(alloc: Global, text: &mut Vec<u8>, feed: &Feed) -> Result<(), Fail> {
    push_entries(alloc, text, feed.entries.as_slice())?;
    push_notes(text, b"feed u", feed.notes.as_slice())
}

/// The feed of the URL `u`, by a function that promises nothing.
pub fn read(alloc: Global, file: &[u8]) -> Result<Feed, Fail> {
    Ok(read_feed(
        alloc,
        "u",
        file,
        &KnownTails::new(alloc),
        &mut Vec::new(alloc),
    )?)
}

// A file, and what it says.
type Row = (&'static [u8], &'static [u8]);

static FEEDS: [Row; 35] = [
    // each fault, behind a byte order mark
    (
        b"\xEF\xBB\xBF192.0.2.0/24,DE,,,\r\n\
192.0.2.0/24,de,,,\r\n\
198.51.100.0/24,FR,,,\r\n\
198.51.100.0/24,IT,,,\r\n\
192.0.2.1/24,DE,,,\r\n\
,DE,,,\r\n\
203.0.113.0/24,AT,,Wien,,more\r\n\
203.0.113.0/25,CH,,\"Z\xC3\xBCrich,\r\n\
10.0.0.0/8,DE,,\xFF,\r\n\
::1.2.3.0/120,DE,,,\r\n\
10.0.0.0/8,DEU,,,\r\n\
10.0.0.0/8,,DE_BY,,\r\n",
        b"1 192.0.2.0/24 DE,,,\n7 203.0.113.0/24 AT,,Wien,\nfeed u 2 F07\nfeed u 3 F08\n\
feed u 4 F08\nfeed u 5 F04\nfeed u 6 F03\nfeed u 8 F02\nfeed u 9 F01\nfeed u 10 F11\n\
feed u 11 F05\nfeed u 12 F06\n",
    ),
    // one line
    (b"\"", b"feed u 1 F02\n"),
    (b"a\"b,DE", b"feed u 1 F02\n"),
    (b"\"192.0.2.0/24\",DE", b"1 192.0.2.0/24 DE,,,\n"),
    (b"192.0.2.0/24,\"D\"\"E\"", b"feed u 1 F05\n"),
    (b"\0", b"feed u 1 F04\n"),
    (b",,,,", b"feed u 1 F03\n"),
    (b"192.0.2.0/24,DE\r,,", b"feed u 1 F02\n"),
    (b"192.0.2.0/24,DE\r\r\n", b"feed u 1 F02\n"),
    (b"192.0.2.0/24,DE,,\"a # b\",", b"feed u 1 F02\n"),
    (b"192.0.2.0/24,DE # ,,\"a\"", b"1 192.0.2.0/24 DE,,,\n"),
    (b" # comment", b""),
    (b" \t192.0.2.0/24 , zz,,x,", b"1 192.0.2.0/24 -\n"),
    (b"192.0.2.0/24", b"1 192.0.2.0/24 -\n"),
    (b"192.0.2.0/24,,de-by", b"1 192.0.2.0/24 DE,DE-BY,,\n"),
    (
        b"192.0.2.0/24,DE,DE-BY,\"a, \"\"b\"\"\",1,x,y",
        b"1 192.0.2.0/24 DE,DE-BY,a, \"b\",1\n",
    ),
    (b"192.0.2.7,DE,,\"  a  \",", b"1 192.0.2.7/32 DE,,a,\n"),
    (b"0.0.0.0/0,DE", b"1 0.0.0.0/0 DE,,,\n"),
    (b"::/0,DE", b"1 ::/0 DE,,,\n"),
    (b"2001:db8::/128,DE", b"1 2001:db8::/128 DE,,,\n"),
    (b"192.0.2.0/31,DE", b"1 192.0.2.0/31 DE,,,\n"),
    (b"::ffff:192.0.2.0/120,DE", b"1 ::ffff:c000:200/120 DE,,,\n"),
    (b"#\n\xEF\xBB\xBF192.0.2.0/24,DE", b"feed u 2 F04\n"),
    (b"#\n\xEF\xBB\xBF\xFF", b"feed u 2 F01\n"),
    (b"#\n\xEF\xBB\xBF\"", b"feed u 2 F02\n"),
    // lines of one prefix
    (
        b"10.0.0.0/8,FR\n10.0.0.0/8,DE\n10.0.0.0/8,DE\n10.0.0.0/8,DE",
        b"feed u 1 F08\nfeed u 2 F08\nfeed u 3 F08\nfeed u 4 F08\n",
    ),
    (
        b"10.0.0.0/8,DE\n10.0.0.0/8,FR\n10.0.0.0/8,DE\n10.0.0.0/8,DE",
        b"feed u 1 F08\nfeed u 2 F08\nfeed u 3 F08\nfeed u 4 F08\n",
    ),
    (
        b"10.0.0.0/8,DE\n10.0.0.0/8,DE\n10.0.0.0/8,FR\n10.0.0.0/8,DE",
        b"feed u 1 F08\nfeed u 2 F08\nfeed u 3 F08\nfeed u 4 F08\n",
    ),
    (
        b"10.0.0.0/8,DE\n10.0.0.0/8,DE\n10.0.0.0/8,DE\n10.0.0.0/8,FR",
        b"feed u 1 F08\nfeed u 2 F08\nfeed u 3 F08\nfeed u 4 F08\n",
    ),
    (
        b"10.0.0.0/8,DE\nx\n10.0.0.0/9,DE\n10.0.0.0/8,de\n10.0.0.0/8,,DE\n10.0.0.0/8,DE",
        b"1 10.0.0.0/8 DE,,,\n3 10.0.0.0/9 DE,,,\nfeed u 2 F04\nfeed u 4 F07\n\
feed u 5 F06\nfeed u 6 F07\n",
    ),
    (
        b"10.0.0.0/8\n10.0.0.0/8,zz\n10.0.0.0/7",
        b"1 10.0.0.0/8 -\n3 10.0.0.0/7 -\nfeed u 2 F07\n",
    ),
    (
        b"10.0.0.0/9\n10.0.0.0/8,DE\n10.0.0.0/9,DE",
        b"2 10.0.0.0/8 DE,,,\nfeed u 1 F08\nfeed u 3 F08\n",
    ),
    // feeds of an operator
    (
        b"# geofeed of Example Net\n192.0.2.0/25,de,DE-BY,M\xC3\xBCnchen,\n\
192.0.2.128/26,DE,DE-BE,Berlin,10115\n192.0.2.192/26,,,,\n192.0.3.0/24,DE,,,\n\
# signature lines are comments\n",
        b"2 192.0.2.0/25 DE,DE-BY,M\xC3\xBCnchen,\n3 192.0.2.128/26 DE,DE-BE,Berlin,10115\n\
4 192.0.2.192/26 -\n5 192.0.3.0/24 DE,,,\n",
    ),
    (
        b"192.0.0.0/16,FR,,,\n192.0.2.0/24,US,US-CA,Los Angeles,\n\
192.0.8.0/22,CH,CH-ZH,\"Z\xC3\xBCrich\",\n",
        b"1 192.0.0.0/16 FR,,,\n2 192.0.2.0/24 US,US-CA,Los Angeles,\n\
3 192.0.8.0/22 CH,CH-ZH,Z\xC3\xBCrich,\n",
    ),
    (
        b"2001:DB8::/33,NL,NL-NH,Amsterdam,\n2001:db8:8000::/33,JP,,Tokyo,,extra\n\
2001:db8::/32,,XX-1234,,\n",
        b"1 2001:db8::/33 NL,NL-NH,Amsterdam,\n2 2001:db8:8000::/33 JP,,Tokyo,\nfeed u 3 F06\n",
    ),
];

fn feeds() -> &'static [Row] {
    &FEEDS
}

fn says(alloc: Global, row: &Row) -> Result<bool, Fail> {
    let feed = read(alloc, row.0)?;
    let mut text = Vec::new(alloc);
    push_feed(alloc, &mut text, &feed)?;
    Ok(text.as_slice() == row.1)
}

#[test]
fn what_feeds_say(rt: HostRuntime) -> Result<(), Fail> {
    for (at, row) in feeds().iter().enumerate() {
        assert!(rt; says(rt.alloc(), row)?, "row {at}");
    }
    Ok(())
}

fn letters(alloc: Global, count: usize) -> Result<Vec<u8>, Fail> {
    Ok(vec![in alloc; b'x'; count]?)
}

// A feed whose city has so many bytes.
fn feed_of_city(alloc: Global, count: usize) -> Result<Feed, Fail> {
    let mut file = Vec::from_slice(alloc, b"192.0.2.0/24,DE,,")?;
    file.append(&mut letters(alloc, count)?)?;
    read(alloc, file.as_slice())
}

// Whether such a feed has these notes, and no others.
fn is_noted(alloc: Global, count: usize, wanted: &[u8]) -> Result<bool, Fail> {
    let feed = feed_of_city(alloc, count)?;
    let mut text = Vec::new(alloc);
    push_notes(&mut text, b"feed u", feed.notes.as_slice())?;
    Ok(text.as_slice() == wanted)
}

#[test]
fn a_city_of_1024_bytes(rt: HostRuntime) -> Result<(), Fail> {
    assert!(rt; is_noted(rt.alloc(), 1024, b"")?);
    assert!(rt; is_noted(rt.alloc(), 1025, b"feed u 1 F10\n")?);
    Ok(())
}

// An IPv6 block whose last two groups are the digits of a number.
fn push_made(file: &mut Vec<u8>, number: u64) -> Result<(), Fail> {
    let digits = [
        digit(number / 10_000),
        b':',
        digit(number / 1000),
        digit(number / 100),
        digit(number / 10),
        digit(number),
    ];
    file.extend_from_slice(b"2001:db8::")?;
    file.extend_from_slice(&digits)?;
    file.extend_from_slice(b"/128,DE,,\"a\",\n")?;
    Ok(())
}

fn push_all_made(file: &mut Vec<u8>, count: u64) -> Result<(), Fail> {
    for number in 0..count {
        push_made(file, number)?;
    }
    Ok(())
}

// How many entries and notes a feed has, and the line of its last entry.
fn counts(feed: &Feed) -> (usize, usize, u64) {
    let entries = feed.entries.as_slice();
    let last = match entries.last() {
        Some(entry) => entry.line,
        None => 0,
    };
    (entries.len(), feed.notes.as_slice().len(), last)
}

#[test]
fn a_feed_by_parts(rt: HostRuntime) -> Result<(), Fail> {
    let mut file = Vec::new(rt.alloc());
    push_all_made(&mut file, 40_000)?;
    let forks = Forks {
        rt: &rt,
        alloc: rt.alloc(),
        gate: &OpenGate,
        pieces: 4,
    };
    let (known, mut learned) = (KnownTails::new(rt.alloc()), Vec::new(rt.alloc()));
    let feed = read_feed_by_parts(&forks, "u", file, &known, &mut learned)?;
    assert_eq!(rt; counts(&feed), (40_000, 0, 40_000));
    Ok(())
}
