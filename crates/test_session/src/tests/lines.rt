//! Sources of many lines, which may go round.
use crate::tests::given::{FEED, Kind, set};
use std::alloc::Global;
use std::mem::drop;
use update_session::Session;

/// What the lines of a source are about.
#[derive(Clone, Copy)]
pub enum Shape {
    /// Overrides of the networks `N.0.0.0/8` for N from 1 to 64.
    Networks,
    /// A dump of references of these networks to the feed.
    References,
    /// The feed, of a thousand blocks of sixteen addresses from `10.0.0.0` on.
    Blocks,
}

fn push(text: &mut Vec<u8>, part: &[u8]) -> Option<()> {
    text.extend_from_slice(part).ok()
}

// The last digit of a number. A sum by `+` would have a proof of its own, of eight seconds.
fn digit(number: u8) -> u8 {
    b'0'.wrapping_add(number % 10)
}

fn push_number(text: &mut Vec<u8>, number: u8) -> Option<()> {
    if number >= 100 {
        push(text, &[digit(number / 100)])?;
    }
    if number >= 10 {
        push(text, &[digit(number / 10)])?;
    }
    push(text, &[digit(number)])
}

fn push_network(text: &mut Vec<u8>, number: u8, code: &[u8]) -> Option<()> {
    push_number(text, number)?;
    push(text, b".0.0.0/8,set,")?;
    push(text, code)?;
    push(text, b"\n")
}

fn push_reference(text: &mut Vec<u8>, number: u8) -> Option<()> {
    push(text, b"inetnum: ")?;
    push_number(text, number)?;
    push(text, b".0.0.0/8\ngeofeed: ")?;
    push(text, FEED.as_bytes())?;
    push(text, b"\n\n")
}

fn push_block(text: &mut Vec<u8>, third: u8, fourth: u8, code: &[u8]) -> Option<()> {
    push(text, b"10.0.")?;
    push_number(text, third)?;
    push(text, b".")?;
    push_number(text, fourth)?;
    push(text, b"/28,")?;
    push(text, code)?;
    push(text, b",,,\n")
}

// The line of a number.
fn push_line(text: &mut Vec<u8>, shape: Shape, at: u32, code: &[u8]) -> Option<()> {
    match shape {
        Shape::Networks => push_network(text, (at % 64 + 1) as u8, code),
        Shape::References => push_reference(text, (at % 64 + 1) as u8),
        Shape::Blocks => push_block(text, (at / 16 % 256) as u8, (at % 16 * 16) as u8, code),
    }
}

// So many lines from a number on, going round. All are of one country but that of the number 0.
fn push_lines(
    text: &mut Vec<u8>,
    shape: Shape,
    count: u32,
    first: &[u8],
    round: u32,
) -> Option<()> {
    for n in 0..count {
        let at = n.wrapping_add(round) % count;
        push_line(text, shape, at, if at == 0 { first } else { b"FR" })?;
    }
    Some(())
}

/// Sets the source of a shape, with the country of its first line, and gone round by so many.
pub fn set_lines(
    alloc: Global,
    session: &mut Session,
    shape: Shape,
    first: &str,
    round: u32,
) -> Option<()> {
    let (kind, name, count) = match shape {
        Shape::Networks => (Kind::Overrides, "", 64),
        Shape::References => (Kind::Rpsl, "many", 64),
        Shape::Blocks => (Kind::Feed, FEED, 1000),
    };
    let mut text = Vec::new(alloc);
    let done = match push_lines(&mut text, shape, count, first.as_bytes(), round) {
        Some(()) => set(alloc, session, (kind, name, text.as_slice())),
        None => None,
    };
    drop(text);
    done
}
