//! A put that a fake folder remembers.
ghost use Rattle.std.specs.Prelude.{◌≡◌, IfOk};

use geo_addr::{Bytes, Memory, Text};
use std::alloc::Global;

/// A file that was put: its name and its bytes.
#[derive(Debug, Drop)]
pub struct Put {
    pub name: Text,
    pub bytes: Bytes,
}

impl Put {
    /// A copy of this name and these bytes.
    pub(crate) fn of(alloc: Global, name: &str, bytes: &[u8]) -> Result<Put, Memory>
        ensures name { IfOk result (λ put. put.name ≡ name.now) }
        ensures bytes { IfOk result (λ put. put.bytes ≡ bytes.now) }
    {
        Ok(Put {
            name: Text::of(alloc, name)?,
            bytes: Bytes::of(alloc, bytes)?,
        })
    }
}
