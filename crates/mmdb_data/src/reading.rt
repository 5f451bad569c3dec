//! Reading the value at an offset of a data section.

ghost use Rattle.std.specs.Prelude.{◌≡◌, ◌≤◌, ◌<◌, ◌+◌, ◌*◌, ◌^◌, length, OnOk, IfOk};
ghost use Rattle.byteorder.specs.Endian.{big_number};
ghost use Rattle.mmdb_data.specs.ValueTree.{most as most_size};
ghost use Rattle.mmdb_data.specs.Reading.{Gives, byte_from, bytes_from, number_from};
ghost use Rattle.mmdb_data.specs.Reading.{kind_from, size_from, head_from, pointer_from};
ghost use Rattle.mmdb_data.specs.Reading.{is_pointer as is_control_of_pointer};
ghost use Rattle.mmdb_data.specs.declared.fault.DataCause.TheVariants.{Truncated};
ghost use Rattle.mmdb_data.specs.declared.fault.DataFault.TheVariants as faults;

use crate::fault::{DataCause, DataFault};
use crate::kind::Kind;
use byteorder::{BigEndian, ByteOrder};

/// What stands before the content of a value.
#[derive(Clone, Copy)]
pub(crate) struct Head {
    pub(crate) kind: u16,
    pub(crate) size: usize,
    /// The offset of the content.
    pub(crate) offset: usize,
}

pub(crate) fn bad(at: usize, cause: DataCause) -> DataFault
    ensures { result ≡ faults.Bad at cause }
{
    DataFault::Bad {
        at: at as u64,
        cause,
    }
}

#[tactic(auto, unfolding(crate::specs::Reading::byte_from))]
pub(crate) fn byte_at(
    section: &[u8],
    offset: usize,
    at: usize,
    cause: DataCause,
) -> Result<u8, DataFault>
    ensures gives { Gives (λ b. b) result (byte_from section.now offset (at, cause)) }
    ensures room { OnOk result (offset < length section.now) }
{
    match section.get(offset) {
        Some(byte) => Ok(*byte),
        None => Err(bad(at, cause)),
    }
}

#[tactic(auto, unfolding(crate::specs::Reading::bytes_from))]
pub(crate) fn bytes_at(
    section: &[u8],
    offset: usize,
    size: usize,
    at: usize,
) -> Result<&[u8], DataFault>
    requires { offset ≤ length section.now }
    ensures gives { Gives (λ bytes. bytes.now) result
        (bytes_from section.now offset size (at, Truncated)) }
    ensures len { IfOk result (λ bytes. length bytes.now ≡ size) }
    ensures room { OnOk result (offset + size ≤ length section.now) }
{
    if section.len() - offset < size {
        return Err(bad(at, DataCause::Truncated));
    }
    Ok(&section[offset..offset + size])
}

#[tactic(auto, unfolding(crate::specs::Reading::number_from))]
fn number_at(section: &[u8], offset: usize, size: usize, at: usize) -> Result<u32, DataFault>
    requires here { offset ≤ length section.now }
    requires some { 0 < size }
    requires few { size ≤ 4 }
    ensures gives { Gives (λ n. n) result (number_from section.now offset size (at, Truncated)) }
    ensures fits { IfOk result (λ n. n < 256 ^ size) }
    ensures room { OnOk result (offset + size ≤ length section.now) }
{
    let bytes = bytes_at(section, offset, size, at)?;
    Ok(number_of(bytes, size) as u32)
}

/// The number in all of the bytes, of which there are at most `most`.
pub(crate) fn number_of(bytes: &[u8], most: usize) -> u128
    requires few { length bytes.now ≤ most }
    requires small { most ≤ 16 }
    ensures value { result ≡ big_number (length bytes.now) bytes.now }
    ensures fits { result < 256 ^ most }
{
    if bytes.is_empty() {
        return 0;
    }
    BigEndian::read_uint128(bytes, bytes.len())
}

#[tactic(auto, unfolding(crate::specs::Reading::kind_from))]
fn kind_at(section: &[u8], at: usize, control: u8) -> Result<(u16, usize), DataFault>
    requires { at < length section.now }
    ensures gives { Gives (λ x. x) result (kind_from section.now at control) }
    ensures room { IfOk result (λ x. x.1 ≤ length section.now) }
{
    if control / 32 != 0 {
        return Ok((u16::from(control / 32), at + 1));
    }
    let extended = byte_at(section, at + 1, at, DataCause::Truncated)?;
    Ok((u16::from(extended) + 7, at + 2))
}

#[tactic(auto, unfolding(crate::specs::Reading::size_from))]
fn size_at(section: &[u8], at: usize, code: u8, offset: usize) -> Result<(usize, usize), DataFault>
    requires here { offset ≤ length section.now }
    requires small { code < 32 }
    ensures gives { Gives (λ x. x) result (size_from section.now at code offset) }
    ensures narrow { IfOk result (λ x. x.0 ≤ most_size) }
    ensures room { IfOk result (λ x. x.1 ≤ length section.now) }
{
    if code < 29 {
        return Ok((code as usize, offset));
    }
    let len = code as usize - 28;
    let more = number_at(section, offset, len, at)? as usize;
    Ok((least_by(len) + more, offset + len))
}

/// The least size that so many size bytes tell.
fn least_by(len: usize) -> usize
    ensures one { len ≡ 1 → result ≡ 29 }
    ensures two { len ≡ 2 → result ≡ 285 }
    ensures three { 2 < len → result ≡ 65821 }
    ensures small { result ≤ 65821 }
{
    match len {
        1 => 29,
        2 => 285,
        _ => 65_821,
    }
}

#[tactic(auto, unfolding(crate::specs::Reading::head_from))]
pub(crate) fn head_at(section: &[u8], at: usize) -> Result<Head, DataFault>
    ensures gives { Gives (λ head. (head.kind, head.size, head.offset)) result
        (head_from section.now at) }
    ensures narrow { IfOk result (λ head. head.size ≤ most_size) }
    ensures room { IfOk result (λ head. head.offset ≤ length section.now) }
{
    let control = byte_at(section, at, at, DataCause::Truncated)?;
    let (kind, offset) = kind_at(section, at, control)?;
    let (size, offset) = size_at(section, at, control % 32, offset)?;
    Ok(Head { kind, size, offset })
}

/// Whether the control byte is a pointer's.
pub(crate) fn is_pointer(control: u8) -> bool
    ensures { result ≡ is_control_of_pointer control }
{
    control / 32 == Kind::Pointer.code()
}

/// Where a pointer leads, and the offset after it.
pub(crate) fn pointer_at(
    section: &[u8],
    at: usize,
    control: u8,
) -> Result<(usize, usize), DataFault>
    requires { at < length section.now }
    ensures gives { Gives (λ x. x) result (pointer_from section.now at control) }
    ensures room { IfOk result (λ x. x.1 ≤ length section.now) }
{
    let code = control as usize % 32 / 8;
    let low = number_at(section, at + 1, code + 1, at)? as usize;
    Ok((leads_to(code, control as usize % 8, low), at + code + 2))
}

/// Where a pointer leads, by its control byte and the number in its further bytes.
fn leads_to(code: usize, high: usize, low: usize) -> usize
    requires high { high < 8 }
    requires low { low < 2 ^ 32 }
    ensures one { code ≡ 0 → result ≡ high * 2 ^ 8 + low }
    ensures two { code ≡ 1 → result ≡ high * 2 ^ 16 + low + 2048 }
    ensures three { code ≡ 2 → result ≡ high * 2 ^ 24 + low + 526336 }
    ensures four { 2 < code → result ≡ low }
{
    match code {
        0 => high * 256 + low,
        1 => high * 65_536 + low + 2_048,
        2 => high * 16_777_216 + low + 526_336,
        _ => low,
    }
}
