//! Writing a value: the fewest size bytes, the fewest bytes of a number, no pointers.

ghost use Rattle.std.specs.Prelude.{◌≡◌, ◌+◌, ◌≤◌, ◌<◌, ◌^◌, ◌++◌, ℕ, List, length, OnOk, OnErr};
ghost use Rattle.std.specs.Prelude.{Ok};
ghost use Rattle.std.specs.Int.{bytes_high_first};
ghost use Rattle.mmdb_data.specs.ValueTree.{most, CanBeSpelled, IsWithinLimits, IsNarrow};
ghost use Rattle.mmdb_data.specs.ValueTree.{MembersAreNarrow, ItemsAreNarrow, IsTyped};
ghost use Rattle.mmdb_data.specs.ValueTree.{MembersAreTyped};
ghost use Rattle.mmdb_data.specs.ValueTree.{ItemsAreTyped};
ghost use Rattle.mmdb_data.specs.Spelling.{size_code, size_bytes, kind_bytes, head, sized};
ghost use Rattle.mmdb_data.specs.Spelling.{without_zeros as bytes_without_zeros, spelling};
ghost use Rattle.mmdb_data.specs.Spelling.{members_spelling, items_spelling};
ghost use Rattle.mmdb_data.specs.Kinds.{kind_code};
ghost use Rattle.mmdb_data.specs.Packing.{Begins};
ghost use Rattle.mmdb_data.specs.Reading.{reads};
ghost use Rattle.mmdb_data.specs.View.{value_tree, items_view, members_view};

use crate::kind::Kind;
use crate::value::Value;
use byteorder::{BigEndian, ByteOrder};
use geo_addr::{Memory, Text};
use std::alloc::Global;

/// Room for most values at once, so that few are moved while they grow.
const ROOM: usize = 128;

/// Appends the value to a data section: the fewest size bytes, the fewest bytes of each number, no
/// pointers (MaxMind DB 2.0, "Output Data Section").
///
/// The value then stands at the offset where the section ended before, whatever is appended later.
pub fn encode(alloc: Global, value: &Value, out: &mut Vec<u8>) -> Result<(), Memory>
    requires { CanBeSpelled (value_tree value.now) }
    ensures spelled { OnOk result
        (out.new.items ≡ out.old.items ++ spelling (value_tree value.now)) }
    ensures read_back { OnOk result (IsWithinLimits (value_tree value.now) → (after : List ℕ)
        → reads (out.new.items ++ after) (length out.old.items) ≡ Ok (value_tree value.now)) }
    ensures refused { OnErr result (out.new.items ≡ out.old.items) }
{
    let mut spelled = Vec::with_capacity(alloc, ROOM)?;
    put_value(&mut spelled, value)?;
    out.extend_from_slice(&spelled)?;
    Ok(())
}

#[cycle(writing)]
pub(crate) fn put_value(out: &mut Vec<u8>, value: &Value) -> Result<(), Memory>
    requires { IsNarrow (value_tree value.now) }
    ensures spelled { OnOk result
        (out.new.items ≡ out.old.items ++ spelling (value_tree value.now)) }
    ensures typed { OnOk result (IsTyped (value_tree value.now)) }
{
    match value {
        Value::Map(pairs) => {
            put_head(out, Kind::Map, pairs.len())?;
            put_members(out, pairs)
        }
        Value::List(values) => {
            put_head(out, Kind::List, values.len())?;
            put_items(out, values)
        }
        Value::Text(text) => put_sized(out, Kind::Text, text.as_str().as_bytes()),
        Value::Bytes(bytes) => put_sized(out, Kind::Bytes, bytes.as_slice()),
        Value::U16(n) => put_u16(out, *n),
        Value::U32(n) => put_u32(out, Kind::U32, *n),
        Value::I32(n) => put_u32(out, Kind::I32, n.cast_unsigned()),
        Value::U64(n) => put_u64(out, *n),
        Value::U128(n) => put_u128(out, *n),
        Value::Bool(b) => put_head(out, Kind::Bool, usize::from(*b)),
        Value::Raw8(content) => put_sized(out, Kind::Double, content),
        Value::Raw4(content) => put_sized(out, Kind::Float, content),
    }
}

#[cycle(writing)]
fn put_members(out: &mut Vec<u8>, pairs: &[(Text, Value)]) -> Result<(), Memory>
    requires { MembersAreNarrow (members_view pairs.now) }
    ensures spelled { OnOk result
        (out.new.items ≡ out.old.items ++ members_spelling (members_view pairs.now)) }
    ensures typed { OnOk result (MembersAreTyped (members_view pairs.now)) }
{
    for (key, value) in pairs {
        put_sized(out, Kind::Text, key.as_str().as_bytes())?;
        put_value(out, value)?;
    }
    Ok(())
}

#[cycle(writing)]
fn put_items(out: &mut Vec<u8>, values: &[Value]) -> Result<(), Memory>
    requires { ItemsAreNarrow (items_view values.now) }
    ensures spelled { OnOk result
        (out.new.items ≡ out.old.items ++ items_spelling (items_view values.now)) }
    ensures typed { OnOk result (ItemsAreTyped (items_view values.now)) }
{
    for value in values {
        put_value(out, value)?;
    }
    Ok(())
}

fn put_u16(out: &mut Vec<u8>, n: u16) -> Result<(), Memory>
    ensures { OnOk result
        (out.new.items ≡ out.old.items ++ sized 5 (bytes_without_zeros (bytes_high_first 2 n))) }
{
    let mut bytes = [0; 2];
    BigEndian::write_u16(&mut bytes, n);
    put_sized(out, Kind::U16, without_zeros(&bytes))
}

fn put_u32(out: &mut Vec<u8>, kind: Kind, n: u32) -> Result<(), Memory>
    ensures { OnOk result (out.new.items
        ≡ out.old.items ++ sized (kind_code kind) (bytes_without_zeros (bytes_high_first 4 n))) }
{
    let mut bytes = [0; 4];
    BigEndian::write_u32(&mut bytes, n);
    put_sized(out, kind, without_zeros(&bytes))
}

fn put_u64(out: &mut Vec<u8>, n: u64) -> Result<(), Memory>
    ensures { OnOk result
        (out.new.items ≡ out.old.items ++ sized 9 (bytes_without_zeros (bytes_high_first 8 n))) }
{
    let mut bytes = [0; 8];
    BigEndian::write_u64(&mut bytes, n);
    put_sized(out, Kind::U64, without_zeros(&bytes))
}

fn put_u128(out: &mut Vec<u8>, n: u128) -> Result<(), Memory>
    ensures { OnOk result
        (out.new.items ≡ out.old.items ++ sized 10 (bytes_without_zeros (bytes_high_first 16 n))) }
{
    let mut bytes = [0; 16];
    BigEndian::write_u128(&mut bytes, n);
    put_sized(out, Kind::U128, without_zeros(&bytes))
}

fn without_zeros(bytes: &[u8]) -> &[u8]
    ensures value { result.now ≡ bytes_without_zeros bytes.now }
    ensures len { length result.now ≤ length bytes.now }
{
    let mut rest = bytes;
    while let [0, after @ ..] = rest {
        rest = after;
    }
    rest
}

#[tactic(auto, unfolding(crate::specs::Spelling::sized))]
pub(crate) fn put_sized(out: &mut Vec<u8>, kind: Kind, content: &[u8]) -> Result<(), Memory>
    requires { length content.now ≤ most }
    ensures { OnOk result (out.new.items ≡ out.old.items ++ sized (kind_code kind) content.now) }
{
    put_head(out, kind, content.len())?;
    out.extend_from_slice(content)?;
    Ok(())
}

// Each value of a file has a head, so it is inlined with all that a short size takes.
#[tactic(auto, unfolding(crate::specs::Spelling::head))]
#[inline(always)]
pub(crate) fn put_head(out: &mut Vec<u8>, kind: Kind, size: usize) -> Result<(), Memory>
    requires { size ≤ most }
    ensures put { OnOk result (out.new.items ≡ out.old.items ++ head (kind_code kind) size) }
    ensures kept { Begins out.old.items out.new.items }
{
    put_kind(out, kind, code_of(size))?;
    put_size(out, size)
}

#[tactic(auto, unfolding(crate::specs::Spelling::kind_bytes))]
#[inline(always)]
fn put_kind(out: &mut Vec<u8>, kind: Kind, size_code: u8) -> Result<(), Memory>
    requires { size_code < 32 }
    ensures put { OnOk result
        (out.new.items ≡ out.old.items ++ kind_bytes (kind_code kind) size_code) }
    ensures refused { OnErr result (out.new.items ≡ out.old.items) }
{
    let code = kind.code();
    if code < 8 {
        out.push(code * 32 + size_code)?;
    } else {
        out.extend_from_slice(&[size_code, code - 7])?;
    }
    Ok(())
}

#[tactic(auto, unfolding(crate::specs::Spelling::size_code))]
#[inline(always)]
fn code_of(size: usize) -> u8
    ensures value { result ≡ size_code size }
    ensures small { result < 32 }
{
    if size < 29 {
        size as u8
    } else if size < 285 {
        29
    } else if size < 65_821 {
        30
    } else {
        31
    }
}

#[tactic(auto, unfolding(crate::specs::Spelling::size_bytes))]
#[inline(always)]
fn put_size(out: &mut Vec<u8>, size: usize) -> Result<(), Memory>
    requires { size ≤ most }
    ensures put { OnOk result (out.new.items ≡ out.old.items ++ size_bytes size) }
    ensures refused { OnErr result (out.new.items ≡ out.old.items) }
{
    if size < 29 {
        Ok(())
    } else if size < 285 {
        put_number(out, size - 29, 1)
    } else if size < 65_821 {
        put_number(out, size - 285, 2)
    } else {
        put_number(out, size - 65_821, 3)
    }
}

#[inline(never)]
fn put_number(out: &mut Vec<u8>, n: usize, len: usize) -> Result<(), Memory>
    requires some { 0 < len }
    requires few { len ≤ 3 }
    requires fits { n < 256 ^ len }
    ensures put { OnOk result (out.new.items ≡ out.old.items ++ bytes_high_first len n) }
    ensures refused { OnErr result (out.new.items ≡ out.old.items) }
{
    let mut bytes = [0; 3];
    BigEndian::write_uint(&mut bytes, n as u64, len);
    out.extend_from_slice(&bytes[..len])?;
    Ok(())
}

/// How many bytes a text takes with its head.
#[tactic(auto, unfolding(crate::specs::Spelling::sized))]
pub(crate) fn text_len(text: &str) -> usize
    requires { length text.now ≤ most }
    ensures value { result ≡ length (sized 2 text.now) }
    ensures few { result ≤ length text.now + 5 }
{
    head_len(Kind::Text, text.len()) + text.len()
}

/// How many bytes the head takes.
#[tactic(auto, unfolding(crate::specs::Spelling::head, crate::specs::Spelling::kind_bytes))]
pub(crate) fn head_len(kind: Kind, size: usize) -> usize
    ensures value { result ≡ length (head (kind_code kind) size) }
    ensures few { result ≤ 5 }
{
    if kind.code() < 8 {
        1 + size_len(size)
    } else {
        2 + size_len(size)
    }
}

#[tactic(auto, unfolding(crate::specs::Spelling::size_bytes))]
fn size_len(size: usize) -> usize
    ensures value { result ≡ length (size_bytes size) }
    ensures few { result ≤ 3 }
{
    if size < 29 {
        0
    } else if size < 285 {
        1
    } else if size < 65_821 {
        2
    } else {
        3
    }
}
