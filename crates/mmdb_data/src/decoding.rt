//! Values with their parts.

ghost use Rattle.std.specs.Prelude.{◌≡◌, ◌≤◌, ◌<◌, ◌-◌, ◌^◌, length, OnOk, IfOk, true, false};
ghost use Rattle.mmdb_data.specs.ValueTree.{depth, count, bytes_in, most as most_size};
ghost use Rattle.mmdb_data.specs.declared.budget.TheConstants.{BYTES, VALUES};
ghost use Rattle.mmdb_data.specs.declared.sizes.TheConstants.{LEVELS};
ghost use Rattle.mmdb_data.specs.Reading.{Gives, key_of, members_from, items_from, content_from};
ghost use Rattle.mmdb_data.specs.Reading.{plain_from, target_from, value_from, reads};
ghost use Rattle.mmdb_data.specs.View.{value_tree, budget, items_view, members_view};

use crate::budget::{BYTES, Left, VALUES};
use crate::fault::{DataCause, DataFault};
use crate::kind::Kind;
use crate::reader::Reader;
use crate::reading::{Head, bad, byte_at, head_at, is_pointer, pointer_at};
use crate::sizes::LEVELS;
use crate::value::Value;
use geo_addr::Text;
use std::alloc::Global;

/// The value that stands at the offset `at` of a data section, pointers followed
/// (MaxMind DB 2.0, "Output Data Section").
///
/// A fault names the offset of the control byte of the value at fault. Memory is taken only for
/// values that are really there, and not by the sizes that the section claims.
#[tactic(auto, unfolding(crate::specs::Reading::reads))]
pub fn decode(alloc: Global, section: &[u8], at: u64) -> Result<Value, DataFault>
    ensures gives { Gives value_tree result (reads section.now at) }
    ensures shallow { IfOk result (λ value. depth (value_tree value) ≤ LEVELS) }
    ensures few { IfOk result (λ value. count (value_tree value) ≤ VALUES) }
    ensures light { IfOk result (λ value. bytes_in (value_tree value) ≤ BYTES) }
{
    if at >= section.len() as u64 {
        return Err(DataFault::Bad {
            at,
            cause: DataCause::OutOfSection,
        });
    }
    let mut reader = Reader {
        alloc,
        section,
        at: at as usize,
        left: Left {
            values: VALUES,
            bytes: BYTES,
        },
    };
    let value = reader.value(LEVELS, false)?;
    Ok(value)
}

impl<'a> Reader<'a> {
    /// Reads the value here, which may be so many levels deep, and goes on after it.
    #[cycle(decoding)]
    #[tactic(auto, unfolding(crate::specs::Reading::value_from, crate::specs::Reading::one_less))]
    fn value(&mut self, levels: u8, is_key: bool) -> Result<Value, DataFault>
        requires { self.old.at ≤ length self.old.section.now }
        ensures gives { Gives (λ value. (value_tree value, self.new.at, budget self.new.left))
            result
            (value_from self.old.section.now levels is_key self.old.at (budget self.old.left)) }
        ensures same { self.new.section.now ≡ self.old.section.now }
        ensures room { OnOk result (self.new.at ≤ length self.old.section.now) }
    {
        if levels == 0 {
            return Err(bad(self.at, DataCause::Deep));
        }
        if self.left.values == 0 {
            return Err(bad(self.at, DataCause::Many));
        }
        self.left.values -= 1;
        let control = byte_at(self.section, self.at, self.at, DataCause::Truncated)?;
        if is_pointer(control) {
            self.target(levels - 1, is_key, control)
        } else {
            self.plain(levels - 1, is_key)
        }
    }

    /// Reads what the pointer here leads to, and goes on after the pointer.
    #[cycle(decoding)]
    #[tactic(auto, unfolding(crate::specs::Reading::target_from))]
    fn target(&mut self, levels: u8, is_key: bool, control: u8) -> Result<Value, DataFault>
        requires { self.old.at < length self.old.section.now }
        ensures gives { Gives (λ value. (value_tree value, self.new.at, budget self.new.left))
            result
            (target_from (value_from self.old.section.now levels) self.old.section.now is_key
            self.old.at control (budget self.old.left)) }
        ensures same { self.new.section.now ≡ self.old.section.now }
        ensures room { OnOk result (self.new.at ≤ length self.old.section.now) }
    {
        let (target, after) = pointer_at(self.section, self.at, control)?;
        let first = byte_at(self.section, target, self.at, DataCause::OutOfSection)?;
        if is_pointer(first) {
            return Err(bad(target, DataCause::PointerToPointer));
        }
        self.at = target;
        let value = self.plain(levels, is_key)?;
        self.at = after;
        Ok(value)
    }

    /// Reads the value here, which is no pointer.
    #[cycle(decoding)]
    #[tactic(auto, unfolding(crate::specs::Reading::plain_from))]
    fn plain(&mut self, levels: u8, is_key: bool) -> Result<Value, DataFault>
        ensures gives { Gives (λ value. (value_tree value, self.new.at, budget self.new.left))
            result
            (plain_from (value_from self.old.section.now levels) self.old.section.now is_key
            self.old.at (budget self.old.left)) }
        ensures same { self.new.section.now ≡ self.old.section.now }
        ensures room { OnOk result (self.new.at ≤ length self.old.section.now) }
    {
        let head = head_at(self.section, self.at)?;
        self.content(levels, is_key, head)
    }

    /// Reads the value here, which has this head.
    #[cycle(decoding)]
    #[tactic(auto, unfolding(crate::specs::Reading::content_from))]
    fn content(&mut self, levels: u8, is_key: bool, head: Head) -> Result<Value, DataFault>
        requires here { head.offset ≤ length self.old.section.now }
        requires narrow { head.size ≤ most_size }
        ensures gives { Gives (λ value. (value_tree value, self.new.at, budget self.new.left))
            result
            (content_from (value_from self.old.section.now levels) self.old.section.now is_key
            self.old.at head.kind head.size head.offset (budget self.old.left)) }
        ensures same { self.new.section.now ≡ self.old.section.now }
        ensures room { OnOk result (self.new.at ≤ length self.old.section.now) }
    {
        match Kind::of(head.kind) {
            Some(Kind::Map | Kind::List) if is_key => Err(bad(self.at, DataCause::Key)),
            Some(Kind::Map) => {
                self.at = head.offset;
                let pairs = self.members(levels, head.size)?;
                Ok(Value::Map(pairs))
            }
            Some(Kind::List) => {
                self.at = head.offset;
                let values = self.items(levels, head.size)?;
                Ok(Value::List(values))
            }
            _ => self.leaf(is_key, head),
        }
    }

    /// Reads so many keys, each with its value, from here on.
    #[cycle(decoding)]
    fn members(&mut self, levels: u8, count: usize) -> Result<Vec<(Text, Value)>, DataFault>
        requires { self.old.at ≤ length self.old.section.now }
        ensures gives { Gives
            (λ pairs. (members_view pairs.items, self.new.at, budget self.new.left)) result
            (members_from (value_from self.old.section.now levels) count self.old.at
            (budget self.old.left)) }
        ensures same { self.new.section.now ≡ self.old.section.now }
        ensures room { OnOk result (self.new.at ≤ length self.old.section.now) }
    {
        let mut pairs = Vec::new(self.alloc);
        for _ in 0..count {
            let at = self.at;
            let key = self.value(levels, true)?;
            let name = name_of(at, key)?;
            let value = self.value(levels, false)?;
            pairs.push((name, value))?;
        }
        Ok(pairs)
    }

    /// Reads so many values from here on.
    #[cycle(decoding)]
    fn items(&mut self, levels: u8, count: usize) -> Result<Vec<Value>, DataFault>
        requires { self.old.at ≤ length self.old.section.now }
        ensures gives { Gives
            (λ values. (items_view values.items, self.new.at, budget self.new.left)) result
            (items_from (value_from self.old.section.now levels) count self.old.at
            (budget self.old.left)) }
        ensures same { self.new.section.now ≡ self.old.section.now }
        ensures room { OnOk result (self.new.at ≤ length self.old.section.now) }
    {
        let mut values = Vec::new(self.alloc);
        for _ in 0..count {
            let value = self.value(levels, false)?;
            values.push(value)?;
        }
        Ok(values)
    }
}

/// A key is a text.
fn name_of(at: usize, key: Value) -> Result<Text, DataFault>
    ensures { Gives (λ name. name) result (key_of at (value_tree key)) }
{
    match key {
        Value::Text(name) => Ok(name),
        _ => Err(bad(at, DataCause::Key)),
    }
}
