//! Values of the data section: spelt, read back and packed. The bytes are put together by hand from
//! the tables of kinds, sizes and pointers of the MaxMind DB format, version 2.0.
use geo_addr::{Bytes, Text};
use mmdb_data::{DataCause, DataFault, Packer, Value, decode, encode, fits};
use std::alloc::Global;

fn reads_as(alloc: Global, section: &[u8], at: u64, want: &Value) -> bool {
    match decode(alloc, section, at) {
        Ok(value) => value == *want,
        Err(_) => false,
    }
}

fn is_outside(alloc: Global, section: &[u8], offset: u64) -> bool {
    match decode(alloc, section, offset) {
        Err(DataFault::Bad { at, cause }) => at == offset && cause == DataCause::OutOfSection,
        _ => false,
    }
}

// The bytes of a value, if it fits and there was memory.
fn spelt(alloc: Global, value: &Value) -> Option<Vec<u8>> {
    if !fits(value) {
        return None;
    }
    let mut out = Vec::new(alloc);
    match encode(alloc, value, &mut out) {
        Ok(()) => Some(out),
        Err(_) => None,
    }
}

// Whether the value is spelt with so many bytes, the first of which are these, and read back.
fn is_spelt(alloc: Global, value: &Value, head: &[u8], len: usize) -> bool {
    match spelt(alloc, value) {
        Some(out) => {
            out.len() == len && out.starts_with(head) && reads_as(alloc, &out, 0, value)
        }
        None => false,
    }
}

// Whether the value has these bytes, and is read back from them and from these others.
fn holds(alloc: Global, value: Value, bytes: &[u8], others: &[u8]) -> bool {
    is_spelt(alloc, &value, bytes, bytes.len()) && reads_as(alloc, others, 0, &value)
}

fn has_bytes(alloc: Global, value: Value, bytes: &[u8]) -> bool {
    is_spelt(alloc, &value, bytes, bytes.len())
}

#[test]
fn numbers(rt: HostRuntime) {
    let alloc = rt.alloc();
    assert!(rt; has_bytes(alloc, Value::U16(0), b"\xA0"));
    assert!(rt; holds(alloc, Value::U16(7), b"\xA1\x07", b"\x20\x02\xA1\x07"));
    assert!(rt; has_bytes(alloc, Value::U32(1), b"\xC1\x01"));
    let time = Value::U64(1_700_000_000);
    assert!(rt; has_bytes(alloc, time, b"\x04\x02\x65\x53\xF1\x00"));
    assert!(rt; has_bytes(alloc, Value::I32(-1), b"\x04\x01\xFF\xFF\xFF\xFF"));
    assert!(rt; has_bytes(alloc, Value::I32(-2), b"\x04\x01\xFF\xFF\xFF\xFE"));
    assert!(rt; has_bytes(alloc, Value::I32(255), b"\x01\x01\xFF"));
}

#[test]
fn bits_and_large_numbers(rt: HostRuntime) {
    let alloc = rt.alloc();
    assert!(rt; has_bytes(alloc, Value::U128(0), b"\x00\x03"));
    assert!(rt; has_bytes(alloc, Value::U128(256), b"\x02\x03\x01\x00"));
    assert!(rt; has_bytes(alloc, Value::Bool(true), b"\x01\x07"));
    let four = Value::Raw4([1, 2, 3, 4]);
    assert!(rt; has_bytes(alloc, four, b"\x04\x08\x01\x02\x03\x04"));
    let eight = Value::Raw8([0; 8]);
    assert!(rt; has_bytes(alloc, eight, b"\x68\x00\x00\x00\x00\x00\x00\x00\x00"));
    assert!(rt; is_outside(alloc, b"\xA0", 1));
    assert!(rt; is_outside(alloc, b"\xA0", u64::MAX));
}

fn text_of(alloc: Global, text: &str) -> Option<Value> {
    match Text::of(alloc, text) {
        Ok(text) => Some(Value::Text(text)),
        Err(_) => None,
    }
}

fn long_text(alloc: Global, len: usize) -> Option<Value> {
    let text = vec![in alloc; b'x'; len].ok()?;
    let text = String::from_utf8(text).ok()?;
    text_of(alloc, text.as_str())
}

// A byte string that ends before this offset, with its control byte and its size bytes before it.
fn filler(alloc: Global, offset: usize) -> Option<Value> {
    let head = if offset < 65_821 { 3 } else { 4 };
    let bytes = vec![in alloc; 0; offset.saturating_sub(head)].ok()?;
    Some(Value::Bytes(Bytes::from_vec(bytes)))
}

// How long a text is, its first bytes, and how many it has in all.
type TextRow = (usize, &'static [u8], usize);

static TEXTS: [TextRow; 4] = [
    (28, b"\x5C", 29),
    (29, b"\x5D\x00", 31),
    (285, b"\x5E\x00\x00", 288),
    (65_821, b"\x5F\x00\x00\x00", 65_825),
];

fn texts() -> &'static [TextRow] {
    &TEXTS
}

fn is_long(alloc: Global, row: &TextRow) -> bool {
    match long_text(alloc, row.0) {
        Some(value) => is_spelt(alloc, &value, row.1, row.2),
        None => false,
    }
}

fn has_no_bytes(alloc: Global) -> bool {
    match filler(alloc, 3) {
        Some(value) => is_spelt(alloc, &value, b"\x80", 1),
        None => false,
    }
}

#[test]
fn values_of_any_size(rt: HostRuntime) {
    for (at, row) in texts().iter().enumerate() {
        assert!(rt; is_long(rt.alloc(), row), "row {at}");
    }
    assert!(rt; has_no_bytes(rt.alloc()));
}

// The offset at which the value was put, if it fits and there was memory.
fn put(packer: &mut Packer, value: &Value) -> Option<u64> {
    if fits(value) {
        packer.put(value).ok()
    } else {
        None
    }
}

fn puts(packer: &mut Packer, value: Option<Value>, offset: usize) -> bool {
    match value {
        Some(value) => put(packer, &value) == Some(offset as u64),
        None => false,
    }
}

fn list_of_one(alloc: Global, value: Value) -> Option<Value> {
    match vec![in alloc; value] {
        Ok(values) => Some(Value::List(values)),
        Err(_) => None,
    }
}

fn list(alloc: Global) -> Option<Value> {
    let text = text_of(alloc, "Bayern")?;
    list_of_one(alloc, text)
}

// Whether a list of the text is put at this offset, and is this pointer alone.
fn puts_list(alloc: Global, packer: &mut Packer, offset: usize, pointer: &[u8]) -> bool {
    let Some(list) = list(alloc) else {
        return false;
    };
    let is_put = put(packer, &list) == Some(offset as u64);
    let section = packer.bytes();
    let len = offset.saturating_add(2).saturating_add(pointer.len());
    is_put
        && section.len() == len
        && section.ends_with(pointer)
        && reads_as(alloc, section, offset as u64, &list)
}

// The offset of a text, and the pointer to it of a list behind it.
type PointerRow = (usize, &'static [u8]);

static POINTERS: [PointerRow; 4] = [
    (2_047, b"\x27\xFF"),
    (2_048, b"\x28\x00\x00"),
    (526_335, b"\x2F\xFF\xFF"),
    (526_336, b"\x30\x00\x00\x00"),
];

fn pointers() -> &'static [PointerRow] {
    &POINTERS
}

fn is_pointed_to(alloc: Global, row: &PointerRow) -> bool {
    let mut packer = Packer::new(alloc);
    let behind = row.0.saturating_add(7);
    puts(&mut packer, filler(alloc, row.0), 0)
        && puts(&mut packer, text_of(alloc, "Bayern"), row.0)
        && puts_list(alloc, &mut packer, behind, row.1)
}

#[test]
fn packed_pointers(rt: HostRuntime) {
    for (at, row) in pointers().iter().enumerate() {
        assert!(rt; is_pointed_to(rt.alloc(), row), "row {at}");
    }
}
