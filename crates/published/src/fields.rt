//! The fields of a line, each behind a comma.
ghost use Rattle.std.specs.Prelude.{◌≡◌, ◌∷◌, ◌++◌, OnOk};
ghost use Rattle.std.specs.Option.{option_copied};
ghost use Rattle.std.specs.List.{list_all};
ghost use Rattle.csv_lines.specs.Fields.{doubled, is_plain, written};
ghost use Rattle.published.specs.FeedText.{field_of, place_text};
ghost use Rattle.published.specs.Reread.{IsTextAt};

use geo_addr::Memory;
use geo_terms::Place;

/// Country, region, city and postal code of a place, or four empty fields.
pub(crate) fn push_place(place: Option<&Place>, text: &mut Vec<u8>) -> Result<(), Memory>
    ensures text { OnOk result (text.new.items
        ≡ text.old.items ++ place_text (option_copied place.entry)) }
    ensures form { OnOk result (IsTextAt (option_copied place.entry)) }
{
    let Some(place) = place else {
        text.extend_from_slice(b",,,,")?;
        return Ok(());
    };
    push_field(place.country().as_bytes(), text)?;
    push_field(place.region().as_bytes(), text)?;
    push_field(place.city().as_bytes(), text)?;
    push_field(place.postal().as_bytes(), text)
}

// A comma and a field: quoted where its value has a comma or a quote in it.
fn push_field(value: &[u8], text: &mut Vec<u8>) -> Result<(), Memory>
    ensures { OnOk result (text.new.items
        ≡ text.old.items ++ (44 ∷ written (field_of value.now))) }
{
    text.push(b',')?;
    if is_plain(value) {
        text.extend_from_slice(value)?;
        return Ok(());
    }
    text.push(b'"')?;
    push_doubled(value, text)?;
    text.push(b'"')?;
    Ok(())
}

fn is_plain(value: &[u8]) -> bool
    ensures { result ≡ list_all is_plain value.now }
{
    value.iter().all(|&b| b != b'"' && b != b',')
}

// A value with each quote doubled.
fn push_doubled(value: &[u8], text: &mut Vec<u8>) -> Result<(), Memory>
    ensures { OnOk result (text.new.items ≡ text.old.items ++ doubled value.now) }
{
    for byte in value {
        if *byte == b'"' {
            text.push(b'"')?;
        }
        text.push(*byte)?;
    }
    Ok(())
}
