//! What a file looks like that is not the source it was set as, by its first bytes.
use geo_addr::{Lines, cut_at};
use job_run::ActKind;

/// What the file looks like, where that is something else than the kind of source.
pub(crate) fn looks_like(kind: ActKind, head: &[u8]) -> Option<&'static str> {
    if let Some(packed) = packed_as(head) {
        return Some(packed);
    }
    let line = first_line(head)?;
    match line {
        [b'<', ..] => return Some("HTML or XML"),
        [b'{' | b'[', ..] => return Some("JSON"),
        _ => {}
    }
    if count(line, b'|') > 2 {
        return unless(kind == ActKind::Stats, "registry statistics");
    }
    if is_attribute(line) {
        return unless(kind == ActKind::Rpsl, "a registry dump");
    }
    let is_csv = kind == ActKind::Feed || kind == ActKind::Overrides;
    if count(line, b',') > 0 {
        return unless(is_csv, "lines of comma-separated fields");
    }
    match (count(line, b';') > 0, count(line, b'\t') > 0) {
        (true, _) if is_csv => Some("fields between semicolons, which have to be commas"),
        (_, true) if is_csv => Some("fields between tabs, which have to be commas"),
        _ => None,
    }
}

fn unless(is_it: bool, what: &'static str) -> Option<&'static str> {
    if is_it { None } else { Some(what) }
}

// What a program packed or encoded it as.
fn packed_as(head: &[u8]) -> Option<&'static str> {
    match head {
        [0x1F, 0x8B, ..] => Some("a gzip file, which has to be unpacked first"),
        [b'B', b'Z', b'h', ..] => Some("a bzip2 file, which has to be unpacked first"),
        [0xFD, b'7', b'z', b'X', b'Z', ..] => Some("an xz file, which has to be unpacked first"),
        [0x28, 0xB5, 0x2F, 0xFD, ..] => Some("a zstd file, which has to be unpacked first"),
        [b'P', b'K', 3, 4, ..] => Some("a zip file, which has to be unpacked first"),
        [0xFF, 0xFE, ..] | [0xFE, 0xFF, ..] => Some("UTF-16, which has to be made UTF-8 first"),
        [0, _, ..] | [_, 0, ..] => Some("UTF-16 or no text, and it has to be UTF-8"),
        _ => None,
    }
}

// The first line that is neither blank nor a comment, from its first byte that is no blank.
fn first_line(head: &[u8]) -> Option<&[u8]> {
    for line in Lines::of(head) {
        let text = line.text.trim_ascii_start();
        match text {
            [] | [b'#' | b'%', ..] => {}
            _ => return Some(text),
        }
    }
    None
}

fn count(line: &[u8], byte: u8) -> usize {
    let mut found = 0;
    for it in line {
        if *it == byte && found < 3 {
            found += 1;
        }
    }
    found
}

// Whether it begins with a name, a colon and a blank, as the lines of an object do.
fn is_attribute(line: &[u8]) -> bool {
    let (name, behind) = cut_at(line, b':');
    match behind {
        Some([] | [b' ' | b'\t', ..]) => is_attribute_name(name),
        _ => false,
    }
}

fn is_attribute_name(name: &[u8]) -> bool {
    !name.is_empty()
        && name
            .iter()
            .all(|b| b.is_ascii_alphanumeric() || *b == b'-' || *b == b'_')
}
