//! Standard output as a writer, and whether standard error takes a text.

use crate::limit::{is_within_limit, number_behind};
use std::fs::{File, Files};
use std::io::{ErrorKind, Print, Write};
use std::{fs, io};

/// The names by which Linux leads to what standard output and standard error are open on, and the
/// pages that tell how far these are written.
const OPEN_ON: &str = "/proc/self/fd/1";

const OPEN_AT: &str = "/proc/self/fdinfo/1";

const ERRORS_ON: &str = "/proc/self/fd/2";

const ERRORS_AT: &str = "/proc/self/fdinfo/2";

/// Standard output. Where it is a file, a write that would pass the process's
/// limit of file size is refused.
#[derive(Drop)]
pub(crate) struct Output<'a, R: Print + Files<File = File>> {
    rt: &'a R,
}

impl<'a, R: Print + Files<File = File>> Output<'a, R> {
    pub(crate) fn new(rt: &'a R) -> Output<'a, R> {
        Output { rt }
    }
}

impl<R: Print + Files<File = File>> Write for Output<'_, R> {
    fn write(&mut self, buf: &[u8]) -> io::Result<usize> {
        if !fits(self.rt, OPEN_ON, OPEN_AT, buf.len()) {
            return Err(io::Error::from(ErrorKind::FileTooLarge));
        }
        self.rt.write_some(buf)
    }

    fn flush(&mut self) -> io::Result<()> {
        Ok(())
    }
}

/// Whether so many bytes on standard error stay within the limit of file size, where it is a file.
pub(crate) fn errors_fit<R: Files<File = File>>(rt: &R, bytes: usize) -> bool {
    fits(rt, ERRORS_ON, ERRORS_AT, bytes)
}

// Whether so many bytes more stay within the limit. What is no file has no length.
fn fits<R: Files<File = File>>(rt: &R, open_on: &str, open_at: &str, bytes: usize) -> bool {
    match fs::metadata(rt, open_on) {
        Ok(there) if there.is_file() => {
            let at = number_behind(rt, open_at, b"pos:").unwrap_or(0);
            let end = there.len().max(u64::try_from(at).unwrap_or(0));
            is_within_limit(rt, end.saturating_add(bytes as u64))
        }
        _ => true,
    }
}
