//! Whether a value can be written.

ghost use Rattle.std.specs.Prelude.{◌≡◌, ◌↔◌, IsTrue};
ghost use Rattle.mmdb_data.specs.ValueTree.{CanBeSpelled, fits_in, members_fit as are_members_fit};
ghost use Rattle.mmdb_data.specs.ValueTree.{items_fit as are_items_fit};
ghost use Rattle.mmdb_data.specs.View.{value_tree, items_view, members_view};

use crate::value::Value;
use geo_addr::Text;

/// The most pairs, members or bytes whose number a control byte and three size bytes can tell.
pub(crate) const MOST: usize = 16_843_036;

/// The most levels of values, the outermost counted.
pub const LEVELS: u8 = 32;

/// Whether the value can be written: every map, list, text and byte string has at most `MOST`
/// pairs, members or bytes, and values are nested at most `LEVELS` deep, the outermost counted.
pub fn fits(value: &Value) -> bool
    ensures { IsTrue result ↔ CanBeSpelled (value_tree value.now) }
{
    fits_within(value, LEVELS)
}

#[cycle(sizes)]
fn fits_within(value: &Value, levels: u8) -> bool
    ensures { result ≡ fits_in (value_tree value.now) levels }
{
    if levels == 0 {
        return false;
    }
    match value {
        Value::Map(pairs) => pairs.len() <= MOST && members_fit(pairs, levels - 1),
        Value::List(values) => values.len() <= MOST && items_fit(values, levels - 1),
        Value::Text(text) => text.as_str().len() <= MOST,
        Value::Bytes(bytes) => bytes.as_slice().len() <= MOST,
        Value::U16(_) | Value::U32(_) | Value::I32(_) | Value::U64(_) | Value::U128(_) => true,
        Value::Bool(_) | Value::Raw8(_) | Value::Raw4(_) => true,
    }
}

#[cycle(sizes)]
fn members_fit(pairs: &[(Text, Value)], levels: u8) -> bool
    ensures { result ≡ are_members_fit (members_view pairs.now) levels }
{
    for (key, value) in pairs {
        if levels == 0 || key.as_str().len() > MOST || !fits_within(value, levels) {
            return false;
        }
    }
    true
}

#[cycle(sizes)]
fn items_fit(values: &[Value], levels: u8) -> bool
    ensures { result ≡ are_items_fit (items_view values.now) levels }
{
    for value in values {
        if !fits_within(value, levels) {
            return false;
        }
    }
    true
}
