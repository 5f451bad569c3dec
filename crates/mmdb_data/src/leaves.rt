//! Values without parts.

ghost use Rattle.std.specs.Prelude.{◌≡◌, ◌≤◌, ◌<◌, ◌+◌, length, OnOk, IfOk, IfSome};
ghost use Rattle.std.specs.Prelude.{option_map};
ghost use Rattle.mmdb_data.specs.Reading.{Gives, content_bytes_from, byte_string_from};
ghost use Rattle.mmdb_data.specs.Reading.{scalar_bytes_from, scalar_from, text_from, bool_from};
ghost use Rattle.mmdb_data.specs.Reading.{leaf_from, scalar_of as scalar_by};
ghost use Rattle.mmdb_data.specs.View.{value_tree, budget};

use crate::fault::{DataCause, DataFault};
use crate::kind::Kind;
use crate::reader::Reader;
use crate::reading::{Head, bad, bytes_at, number_of};
use crate::value::Value;
use geo_addr::{Bytes, Text};

impl<'a> Reader<'a> {
    /// Reads the value without parts that has this head.
    #[tactic(auto, unfolding(crate::specs::Reading::leaf_from))]
    pub(crate) fn leaf(&mut self, is_key: bool, head: Head) -> Result<Value, DataFault>
        requires { head.offset ≤ length self.old.section.now }
        ensures gives { Gives (λ value. (value_tree value, self.new.at, budget self.new.left))
            result
            (leaf_from self.old.section.now is_key self.old.at head.kind head.size head.offset
            (budget self.old.left)) }
        ensures same { self.new.section.now ≡ self.old.section.now }
        ensures room { OnOk result (self.new.at ≤ length self.old.section.now) }
    {
        match Kind::of(head.kind) {
            Some(Kind::Text) => {
                let text = self.text(head)?;
                self.at = head.offset + head.size;
                Ok(Value::Text(text))
            }
            Some(Kind::Bytes) => {
                let content = self.byte_string(is_key, head)?;
                self.at = head.offset + head.size;
                Ok(Value::Bytes(content))
            }
            Some(Kind::Bool) => {
                let b = bool_at(is_key, self.at, head.size)?;
                self.at = head.offset;
                Ok(Value::Bool(b))
            }
            _ => {
                let value = self.scalar(is_key, head)?;
                self.at = head.offset + head.size;
                Ok(value)
            }
        }
    }

    /// Spends the bytes of a text, and stays at it.
    #[tactic(auto, unfolding(crate::specs::Reading::text_from))]
    fn text(&mut self, head: Head) -> Result<Text, DataFault>
        requires { head.offset ≤ length self.old.section.now }
        ensures gives { Gives (λ text. (text, budget self.new.left)) result
            (text_from self.old.section.now self.old.at head.size head.offset
            (budget self.old.left)) }
        ensures same { self.new.section.now ≡ self.old.section.now }
        ensures room { OnOk result (head.offset + head.size ≤ length self.old.section.now) }
    {
        let content = self.content_bytes(head)?;
        match str::from_utf8(content) {
            Ok(text) => Ok(Text::of(self.alloc, text)?),
            Err(_) => Err(bad(self.at, DataCause::Utf8)),
        }
    }

    /// Spends the bytes of a byte string, and stays at it.
    #[tactic(auto, unfolding(crate::specs::Reading::byte_string_from))]
    fn byte_string(&mut self, is_key: bool, head: Head) -> Result<Bytes, DataFault>
        requires { head.offset ≤ length self.old.section.now }
        ensures gives { Gives (λ content. (content, budget self.new.left)) result
            (byte_string_from self.old.section.now is_key self.old.at head.size head.offset
            (budget self.old.left)) }
        ensures same { self.new.section.now ≡ self.old.section.now }
        ensures room { OnOk result (head.offset + head.size ≤ length self.old.section.now) }
    {
        let content = self.content_bytes(head)?;
        if is_key {
            return Err(bad(self.at, DataCause::Key));
        }
        Ok(Bytes::of(self.alloc, content)?)
    }

    /// The content of a text or a byte string, which spends bytes of the budget.
    #[tactic(auto, unfolding(crate::specs::Reading::content_bytes_from))]
    fn content_bytes(&mut self, head: Head) -> Result<&'a [u8], DataFault>
        requires { head.offset ≤ length self.old.section.now }
        ensures gives { Gives (λ content. (content.now, budget self.new.left)) result
            (content_bytes_from self.old.section.now self.old.at head.size head.offset
            (budget self.old.left)) }
        ensures stays { self.new.at ≡ self.old.at }
        ensures same { self.new.section.now ≡ self.old.section.now }
        ensures room { OnOk result (head.offset + head.size ≤ length self.old.section.now) }
    {
        let content = bytes_at(self.section, head.offset, head.size, self.at)?;
        if head.size > self.left.bytes as usize {
            return Err(bad(self.at, DataCause::Big));
        }
        self.left.bytes -= head.size as u32;
        Ok(content)
    }

    /// A scalar of a bounded size, which spends nothing.
    #[tactic(auto, unfolding(crate::specs::Reading::scalar_from))]
    fn scalar(&self, is_key: bool, head: Head) -> Result<Value, DataFault>
        requires { head.offset ≤ length self.now.section.now }
        ensures gives { Gives value_tree result
            (scalar_from self.now.section.now is_key self.now.at head.kind head.size head.offset) }
        ensures room { OnOk result (head.offset + head.size ≤ length self.now.section.now) }
    {
        let Some((least, greatest)) = sizes_of(head.kind) else {
            return Err(bad(self.at, DataCause::Kind));
        };
        let content = self.scalar_bytes(is_key, head, least, greatest)?;
        match scalar_of(head.kind, content) {
            Some(value) => Ok(value),
            None => Err(bad(self.at, DataCause::Kind)),
        }
    }

    /// The content of a value that has from `least` to `greatest` bytes.
    #[tactic(auto, unfolding(crate::specs::Reading::scalar_bytes_from))]
    fn scalar_bytes(
        &self,
        is_key: bool,
        head: Head,
        least: usize,
        greatest: usize,
    ) -> Result<&'a [u8], DataFault>
        requires { head.offset ≤ length self.now.section.now }
        ensures gives { Gives (λ content. content.now) result
            (scalar_bytes_from self.now.section.now is_key self.now.at least greatest head.size
            head.offset) }
        ensures len { IfOk result (λ content.
            (length content.now ≡ head.size) × (least ≤ head.size) × (head.size ≤ greatest)) }
        ensures room { OnOk result (head.offset + head.size ≤ length self.now.section.now) }
    {
        if head.size < least || greatest < head.size {
            return Err(bad(self.at, DataCause::Size));
        }
        let content = bytes_at(self.section, head.offset, head.size, self.at)?;
        if is_key {
            return Err(bad(self.at, DataCause::Key));
        }
        Ok(content)
    }
}

/// The least and the greatest size of a scalar of this type.
#[tactic(auto, unfolding(crate::specs::Reading::scalar_of))]
fn sizes_of(kind: u16) -> Option<(usize, usize)>
    ensures { result ≡ option_map (λ s. (s.least, s.greatest)) (scalar_by kind) }
{
    match Kind::of(kind) {
        Some(Kind::U16) => Some((0, 2)),
        Some(Kind::U32 | Kind::I32) => Some((0, 4)),
        Some(Kind::U64) => Some((0, 8)),
        Some(Kind::U128) => Some((0, 16)),
        Some(Kind::Double) => Some((8, 8)),
        Some(Kind::Float) => Some((4, 4)),
        _ => None,
    }
}

/// The scalar of this type with this content.
#[tactic(auto, unfolding(crate::specs::Reading::scalar_of))]
fn scalar_of(kind: u16, content: &[u8]) -> Option<Value>
    requires { IfSome (scalar_by kind)
        (λ s. (s.least ≤ length content.now) × (length content.now ≤ s.greatest)) }
    ensures { option_map value_tree result
        ≡ option_map (λ s. s.value content.now) (scalar_by kind) }
{
    match Kind::of(kind) {
        Some(Kind::U16) => Some(Value::U16(number_of(content, 2) as u16)),
        Some(Kind::U32) => Some(Value::U32(number_of(content, 4) as u32)),
        Some(Kind::I32) => Some(Value::I32((number_of(content, 4) as u32).cast_signed())),
        Some(Kind::U64) => Some(Value::U64(number_of(content, 8) as u64)),
        Some(Kind::U128) => Some(Value::U128(number_of(content, 16))),
        Some(Kind::Double) => {
            let mut raw = [0; 8];
            raw.copy_from_slice(content);
            Some(Value::Raw8(raw))
        }
        Some(Kind::Float) => {
            let mut raw = [0; 4];
            raw.copy_from_slice(content);
            Some(Value::Raw4(raw))
        }
        _ => None,
    }
}

#[tactic(auto, unfolding(crate::specs::Reading::bool_from))]
fn bool_at(is_key: bool, at: usize, size: usize) -> Result<bool, DataFault>
    ensures { Gives (λ b. b) result (bool_from is_key at size) }
{
    if size > 1 {
        Err(bad(at, DataCause::Size))
    } else if is_key {
        Err(bad(at, DataCause::Key))
    } else {
        Ok(size == 1)
    }
}
