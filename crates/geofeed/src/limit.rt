//! The process's limit of file size, as Linux tells it.

use geo_addr::{Lines, cut_at, decimal, trim_blanks};
use std::fs::{File, Files};
use std::io::Read;

/// The page on which Linux tells the limits of this process,
/// and the words before the one that counts.
const LIMITS: &str = "/proc/self/limits";

const FILE_SIZE: &[u8] = b"Max file size";

/// Whether a file may have so many bytes. A write past that size
/// would end the process by a signal.
pub(crate) fn is_within_limit<R: Files<File = File>>(rt: &R, bytes: u64) -> bool {
    match number_behind(rt, LIMITS, FILE_SIZE) {
        Some(limit) => u128::from(bytes) <= limit,
        None => true,
    }
}

/// The number behind some words at the head of a page, if there is one: `unlimited` is none.
pub(crate) fn number_behind<R: Files<File = File>>(
    rt: &R,
    page: &str,
    words: &[u8],
) -> Option<u128> {
    let mut file = File::open(rt, page).ok()?;
    let mut head = [0; 512];
    let count = file.read(&mut head).ok()?;
    let line = line_with(&head[..count], words)?;
    let (number, _) = cut_at(trim_blanks(line), b' ');
    decimal(number, 1, 20)
}

// What stands behind some words on the first line that begins with them.
fn line_with<'a>(text: &'a [u8], words: &[u8]) -> Option<&'a [u8]> {
    for line in Lines::of(text) {
        if let Some(rest) = line.text.strip_prefix(words) {
            return Some(rest);
        }
    }
    None
}
