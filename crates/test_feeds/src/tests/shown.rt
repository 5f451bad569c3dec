//! What sources say, as texts of bytes.
use geo_terms::{LineNote, Place, Said};
use std::test::Fail;

/// Adds these parts one behind the other.
pub fn push_all(text: &mut Vec<u8>, parts: &[&[u8]]) -> Result<(), Fail> {
    for part in parts {
        text.extend_from_slice(part)?;
    }
    Ok(())
}

/// The last digit of a number.
pub fn digit(number: u64) -> u8 {
    b'0' + (number % 10) as u8
}

// Adds a number below 100.
fn push_number(text: &mut Vec<u8>, number: u64) -> Result<(), Fail> {
    if number >= 10 {
        text.push(digit(number / 10))?;
    }
    text.push(digit(number))?;
    Ok(())
}

fn push_place(text: &mut Vec<u8>, place: &Place) -> Result<(), Fail> {
    let country = place.country().as_bytes();
    let region = place.region().as_bytes();
    let city = place.city().as_bytes();
    let postal = place.postal().as_bytes();
    push_all(
        text,
        &[country, b",", region, b",", city, b",", postal, b"\n"],
    )
}

/// Adds a line, its ground, and the texts of its place, or this word where no place is said.
pub fn push_line(
    text: &mut Vec<u8>,
    line: u64,
    ground: &str,
    said: &Said,
    nothing: &[u8],
) -> Result<(), Fail> {
    push_number(text, line)?;
    push_all(text, &[b" ", ground.as_bytes(), b" "])?;
    match said {
        Said::Nothing => push_all(text, &[nothing, b"\n"]),
        Said::At(place) => push_place(text, place),
    }
}

fn push_note(text: &mut Vec<u8>, source: &[u8], note: LineNote) -> Result<(), Fail> {
    push_all(text, &[source, b" "])?;
    push_number(text, note.line)?;
    push_all(text, &[b" ", note.rule.code().as_bytes(), b"\n"])
}

/// Adds the notes of a source, which is named, as a report prints them.
pub fn push_notes(text: &mut Vec<u8>, source: &[u8], notes: &[LineNote]) -> Result<(), Fail> {
    for note in notes {
        push_note(text, source, *note)?;
    }
    Ok(())
}
