//! A value of the data section as JSON.
ghost use Rattle.std.specs.Prelude.{◌≡◌, IfOk, decimal};
ghost use Rattle.hex.specs.Hex.{encode_lower};
ghost use Rattle.serde_json.specs.Data.{string as string_data, no_members};
ghost use Rattle.serde_json.specs.View.{view as data_view, items_view as data_items_view};
ghost use Rattle.serde_json.specs.View.{members_view as data_members_view};
ghost use Rattle.mmdb_data.specs.View.{value_tree, items_view, members_view};
ghost use Rattle.json_values.specs.Json.{json};
ghost use Rattle.json_values.specs.JsonData.{data_of, members_put, items_data};

use geo_addr::{Memory, Text};
use mmdb_data::Value;
use serde_json::{Map, Value as Json, put};
use std::alloc::Global;

/// The JSON text of a value, without blanks (RFC 8259).
///
/// Maps are objects with ascending keys, of equal ones the last. Numbers of 128 bits are strings of
/// decimal digits; byte strings, doubles and floats are strings of lower-case hexadecimal digits.
pub fn json_text(alloc: Global, value: &Value) -> Result<Text, Memory>
    ensures { IfOk result (λ text. text ≡ json (value_tree value.now)) }
{
    let made = json_of(alloc, value)?;
    let line = made.to_string(alloc);
    drop(made);
    let line = line?;
    let text = Text::from_string(line)?;
    Ok(text)
}

#[cycle(making)]
fn json_of(alloc: Global, value: &Value) -> Result<Json, Memory>
    ensures { IfOk result (λ made. data_view made ≡ data_of (value_tree value.now)) }
{
    match value {
        Value::Map(pairs) => Ok(Json::Object(object_of(alloc, pairs)?)),
        Value::List(values) => Ok(Json::Array(array_of(alloc, values)?)),
        Value::Text(text) => string_of(alloc, text.as_str()),
        Value::Bytes(bytes) => hexadecimal(alloc, bytes.as_slice()),
        Value::U16(n) => Ok(Json::from(*n)),
        Value::U32(n) => Ok(Json::from(*n)),
        Value::I32(n) => Ok(Json::from(*n)),
        Value::U64(n) => Ok(Json::from(*n)),
        Value::U128(n) => digits(alloc, *n),
        Value::Bool(b) => Ok(Json::Bool(*b)),
        Value::Raw8(content) => hexadecimal(alloc, content),
        Value::Raw4(content) => hexadecimal(alloc, content),
    }
}

#[cycle(making)]
fn object_of(alloc: Global, pairs: &[(Text, Value)]) -> Result<Map<String, Json>, Memory>
    ensures { IfOk result (λ object. data_members_view object.entries
        ≡ members_put (members_view pairs.now) no_members) }
{
    let mut object = Map::new(alloc);
    for (key, value) in pairs {
        let member = json_of(alloc, value)?;
        put(&mut object, alloc, key.as_str(), member)?;
    }
    Ok(object)
}

#[cycle(making)]
fn array_of(alloc: Global, values: &[Value]) -> Result<Vec<Json>, Memory>
    ensures { IfOk result
        (λ array. data_items_view array.items ≡ items_data (items_view values.now)) }
{
    let mut array = Vec::new(alloc);
    for value in values {
        array.push(json_of(alloc, value)?)?;
    }
    Ok(array)
}

/// A string.
fn string_of(alloc: Global, text: &str) -> Result<Json, Memory>
    ensures { IfOk result (λ made. data_view made ≡ string_data text.now) }
{
    Ok(Json::try_from_str(alloc, text)?)
}

/// The decimal digits of a number.
fn digits(alloc: Global, n: u128) -> Result<Json, Memory>
    ensures { IfOk result (λ made. data_view made ≡ string_data (decimal n)) }
{
    Ok(Json::String(format!(in alloc; "{n}")?))
}

/// Two lower-case digits for each byte.
fn hexadecimal(alloc: Global, bytes: &[u8]) -> Result<Json, Memory>
    ensures { IfOk result (λ made. data_view made ≡ string_data (encode_lower bytes.now)) }
{
    Ok(Json::String(hex::encode(alloc, bytes)?))
}
