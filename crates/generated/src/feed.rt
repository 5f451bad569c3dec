//! The lines of a generated feed.
ghost use Rattle.std.specs.Prelude.{◌≡◌, ◌≤◌, ◌<◌, ◌+◌, ◌*◌, ◌^◌, ◌++◌, IfOk, OnOk, decimal};
ghost use Rattle.geo_addr.specs.Printing.{block_text};
ghost use Rattle.generated.specs.Feeds.{country_of, feed, line_of};

use geo_addr::Memory;
use std::alloc::Global;

// As many bytes as the longest lines have: `10.100.100.240/28,IT,,City 215,` and a line feed.
const LINE_ROOM: usize = 32;

/// The bytes of a generated feed (RFC 8805): `lines` lines of the blocks `/28` from `10.0.0.0` on,
/// with three countries in turn and a thousand cities. The second feed has another country in its
/// first line, and is the first one else.
pub fn gen_feed(alloc: Global, lines: u32, second: bool) -> Result<Vec<u8>, Memory>
    requires few { lines ≤ 1000000 }
    ensures { IfOk result (λ bytes. bytes.items ≡ feed second lines) }
{
    let mut bytes = Vec::with_capacity(alloc, LINE_ROOM * lines as usize)?;
    for at in 0..lines {
        push_line(&mut bytes, at, second)?;
    }
    Ok(bytes)
}

// Adds the line at this offset, for which there is room, so no line takes a block of its own.
#[tactic(auto, unfolding(crate::specs::Feeds::line_of))]
fn push_line(bytes: &mut Vec<u8>, at: u32, second: bool) -> Result<(), Memory>
    requires few { at < 1000000 }
    ensures { OnOk result (bytes.new.items ≡ bytes.old.items ++ line_of second at) }
{
    let country = country_of(at, second);
    let city = at % 1000;
    push_block(bytes, at)?;
    bytes.extend_from_slice(b",")?;
    bytes.extend_from_slice(country.as_bytes())?;
    bytes.extend_from_slice(b",,City ")?;
    push_decimal(bytes, city)?;
    bytes.extend_from_slice(b",\n")?;
    Ok(())
}

// Adds the text of the block at this offset; all blocks lie in 10.0.0.0/8.
fn push_block(bytes: &mut Vec<u8>, at: u32) -> Result<(), Memory>
    requires few { at < 1000000 }
    ensures { OnOk result (bytes.new.items ≡
        bytes.old.items ++ block_text (record { first = 10 * 2 ^ 24 + 16 * at; len = 124 })) }
{
    let host = 16 * at;
    bytes.extend_from_slice(b"10.")?;
    push_decimal(bytes, host / 65536)?;
    bytes.extend_from_slice(b".")?;
    push_decimal(bytes, host / 256 % 256)?;
    bytes.extend_from_slice(b".")?;
    push_decimal(bytes, host % 256)?;
    bytes.extend_from_slice(b"/28")?;
    Ok(())
}

// Adds a number in decimal. A formatter would take most of the time of a line.
fn push_decimal(bytes: &mut Vec<u8>, number: u32) -> Result<(), Memory>
    requires small { number < 1000 }
    ensures { OnOk result (bytes.new.items ≡ bytes.old.items ++ decimal number) }
{
    let hundreds = digit(number / 100);
    let tens = digit(number / 10 % 10);
    let ones = digit(number % 10);
    if number < 10 {
        bytes.extend_from_slice(&[ones])?;
    } else if number < 100 {
        bytes.extend_from_slice(&[tens, ones])?;
    } else {
        bytes.extend_from_slice(&[hundreds, tens, ones])?;
    }
    Ok(())
}

// The digit of a number below ten.
fn digit(number: u32) -> u8
    requires small { number < 10 }
    ensures { result ≡ 48 + number }
{
    b'0' + number as u8
}

#[tactic(auto, unfolding(crate::specs::Feeds::country_of))]
fn country_of(at: u32, second: bool) -> &'static str
    ensures { result.now ≡ country_of second at }
{
    if second && at == 0 {
        return "CH";
    }
    match at % 3 {
        0 => "DE",
        1 => "FR",
        _ => "IT",
    }
}
