//! A session, and the files of its emits.
ghost use Rattle.std.specs.Prelude.{◌≡◌, ◌<◌};

use fan_work::Forks;
use geo_addr::Text;
use geo_outside::{Gate, OpenGate, Steps};
use mmdb_file::{Emitted, Meta};
use std::alloc::Global;
use std::marker::{Brand, Sync};
use std::mem::drop;
use std::sync::ledger::{Blank, Ledger};
use std::thread::Threads;
use update_session::{EmitFault, Session};

/// A session with the name and the epoch of the worked files.
pub fn begun(alloc: Global) -> Option<Session> {
    let name = Text::of(alloc, "Geofeed-City").ok()?;
    if name.as_str().len() > 64 {
        drop(name);
        return None;
    }
    let epoch = 1_700_000_000;
    Session::new(alloc, Meta { epoch, name }).ok()
}

/// What a file is told by: its length, and a sum of its bytes in which their order counts.
pub type Seen = (usize, u64);

fn seen(bytes: &[u8]) -> Seen {
    let mut sum = 0u64;
    for byte in bytes {
        sum = sum.wrapping_mul(1_000_003).wrapping_add(u64::from(*byte));
    }
    (bytes.len(), sum)
}

// An emit with a counter of steps of its own.
fn counted<R: Threads + Sync, G: Gate, L: Ledger>(
    forks: &Forks<R, G>,
    session: &mut Session,
    blank: Blank,
) -> Result<Emitted, EmitFault>
    requires name { blank.name ≡ L.name }
    requires parts { blank.parts ≡ L.parts }
    requires some { 0 < blank.parts }
{
    let mut steps: Steps<L> = Steps::new(blank);
    session.emit(forks.rt, forks.gate, forks.pieces, &mut steps)
}

// The file of the sources in force.
fn emitted_by<R: Threads + Sync, G: Gate>(
    forks: &Forks<R, G>,
    session: &mut Session,
) -> Result<Emitted, EmitFault> {
    counted::<R, G, Brand>(forks, session, Blank::new(1))
}

/// An emit by so many pieces, of which there are 1 to 64 and which pass a gate.
pub fn emit_by<R: Threads + Sync, G: Gate>(
    rt: &R,
    alloc: Global,
    gate: &G,
    session: &mut Session,
    pieces: u32,
) -> Option<Seen> {
    if pieces == 0 || pieces > 64 {
        return None;
    }
    let forks = Forks {
        rt,
        alloc,
        gate,
        pieces,
    };
    let file = emitted_by(&forks, session).ok()?;
    let seen = seen(file.bytes.as_slice());
    drop(file);
    Some(seen)
}

/// An emit by four pieces.
pub fn emit<R: Threads + Sync>(rt: &R, alloc: Global, session: &mut Session) -> Option<Seen> {
    emit_by(rt, alloc, &OpenGate, session, 4)
}
