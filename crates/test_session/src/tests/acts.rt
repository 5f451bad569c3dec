//! What is done to a session, and what is found of it.
use crate::tests::emits::{Seen, begun, emit};
use crate::tests::given::{Kind, drop_one, set};
use crate::tests::lines::{Shape, set_lines};
use geo_addr::Range;
use source_changes::GroundList;
use std::alloc::Global;
use std::marker::Sync;
use std::mem::drop;
use std::thread::Threads;
use update_session::{BackFault, DropFault, Session};

/// An act, and what has to come of it.
#[derive(Clone, Copy)]
pub enum Act {
    /// Sets the source of a kind, under a slot or a URL, to what this text says.
    Set(Kind, &'static str, &'static [u8]),
    /// Sets the source of many lines, with the country of its first one, and gone round by so many.
    Lines(Shape, &'static str, u32),
    Drop(Kind, &'static str),
    Mark(&'static str),
    Back(&'static str),
    /// There is no such source to be dropped.
    Absent(Kind, &'static str),
    /// There is no such mark to go back to.
    Unmarked(&'static str),
    /// Gives up nodes, and leaves so many.
    Compact(u64),
    /// So many grounds are touched.
    Touched(usize),
    /// So many edges of statements lie on them.
    Edges(usize),
    /// Emits a file of so many bytes.
    Emit(usize),
    /// The same, where an emit that is refused is called again.
    Again(usize),
    /// Emits a file with the bytes of the one before.
    Same,
    /// So many grounds are touched, and an emit gives the file of a new session to which the
    /// changes before were made alone; where nothing is touched it makes no node.
    Anew(usize),
}

use Act::*;

// A helper answers `None` where memory runs out or a text is not read, which no test expects, so
// that no error is turned into another one.

// Changes a session. What changes nothing is passed over.
fn change(alloc: Global, session: &mut Session, act: Act) -> Option<()> {
    match act {
        Set(kind, name, text) => set(alloc, session, (kind, name, text)),
        Lines(shape, first, round) => set_lines(alloc, session, shape, first, round),
        Drop(kind, name) => drop_one(session, kind, name).ok(),
        Mark(name) => session.mark(name).ok(),
        Back(name) => session.back(name).ok(),
        _ => Some(()),
    }
}

// Whether an address lies on one of the grounds.
fn lies_on(grounds: &GroundList, at: u128) -> bool {
    let mut left = grounds.all();
    for _ in 0..grounds.len() {
        let Some(ground) = left.take() else {
            return false;
        };
        if ground.first <= at && at <= ground.last {
            return true;
        }
    }
    false
}

// How many edges of statements lie on the grounds that are touched.
fn edges(session: &Session) -> Option<usize> {
    let all = Range {
        first: 0,
        last: u128::MAX,
    };
    let cuts = session.sources().cuts_in(all).ok()?;
    let touched = session.touched();
    let count = cuts.iter().filter(|at| lies_on(touched, **at)).count();
    drop(cuts);
    Some(count)
}

fn touched(session: &Session) -> usize {
    session.touched().len()
}

fn nodes(session: &Session) -> u32 {
    session.store().len()
}

// Whether an act that emits nothing comes out so.
fn stands(alloc: Global, session: &mut Session, act: Act) -> bool {
    match act {
        Absent(kind, name) => drop_one(session, kind, name) == Err(DropFault::NotThere),
        Unmarked(name) => session.back(name) == Err(BackFault::NotThere),
        Compact(count) => session.compact().ok() == Some(count),
        Touched(count) => touched(session) == count,
        Edges(count) => edges(session) == Some(count),
        _ => change(alloc, session, act).is_some(),
    }
}

// An emit, and once more where it is refused.
fn emit_again<R: Threads + Sync>(rt: &R, alloc: Global, session: &mut Session) -> Option<Seen> {
    let file = emit(rt, alloc, session);
    if file.is_some() {
        return file;
    }
    emit(rt, alloc, session)
}

// What a session emits after the changes among the first so many acts.
fn file_after<R: Threads + Sync>(
    rt: &R,
    alloc: Global,
    session: &mut Session,
    acts: (&[Act], usize),
) -> Option<Seen> {
    for act in acts.0.iter().take(acts.1) {
        change(alloc, session, *act)?;
    }
    emit(rt, alloc, session)
}

// The same of a new session. It is let go by name here and below: one that goes at the end of each
// way out costs its function's proof half a minute.
fn new_file<R: Threads + Sync>(rt: &R, alloc: Global, acts: (&[Act], usize)) -> Option<Seen> {
    let mut session = begun(alloc)?;
    let file = file_after(rt, alloc, &mut session, acts);
    drop(session);
    file
}

// Whether so many grounds are touched, and an emit gives what a new session gives after the first
// so many acts.
fn is_as_new<R: Threads + Sync>(
    rt: &R,
    alloc: Global,
    session: &mut Session,
    acts: (&[Act], usize),
    wanted: usize,
) -> bool {
    let count = touched(session);
    let before = nodes(session);
    let file = emit(rt, alloc, session);
    let is_alike = file.is_some() && new_file(rt, alloc, acts) == file;
    let stays = count > 0 || nodes(session) == before;
    is_alike && stays && count == wanted
}

// Whether a file was made, of so many bytes.
fn is_long(file: Option<Seen>, long: usize) -> bool {
    match file {
        Some((bytes, _)) => bytes == long,
        None => false,
    }
}

// Whether an act comes out so, behind the first so many acts and the file of the last `Emit`.
fn comes_out<R: Threads + Sync>(
    rt: &R,
    alloc: Global,
    session: &mut Session,
    last: &mut Option<Seen>,
    acts: (&[Act], usize),
    act: Act,
) -> bool {
    match act {
        Emit(long) => {
            *last = emit(rt, alloc, session);
            is_long(*last, long)
        }
        Again(long) => is_long(emit_again(rt, alloc, session), long),
        Same => last.is_some() && emit(rt, alloc, session) == *last,
        Anew(touched) => is_as_new(rt, alloc, session, acts, touched),
        _ => stands(alloc, session, act),
    }
}

// The number of the first act that does not come out so, and how many there are where each does.
fn first_wrong_in<R: Threads + Sync>(
    rt: &R,
    alloc: Global,
    session: &mut Session,
    acts: &[Act],
) -> usize {
    let mut last = None;
    for (at, act) in acts.iter().enumerate() {
        if !comes_out(rt, alloc, session, &mut last, (acts, at), *act) {
            return at;
        }
    }
    acts.len()
}

// The same, on a session that has begun; 0 where none begins.
fn first_wrong<R: Threads + Sync>(rt: &R, alloc: Global, acts: &[Act]) -> usize {
    match begun(alloc) {
        Some(mut session) => {
            let wrong = first_wrong_in(rt, alloc, &mut session, acts);
            drop(session);
            wrong
        }
        None => 0,
    }
}

/// The first job that does not come out so, and its first act that does not.
pub fn first_wrong_job<R: Threads + Sync>(
    rt: &R,
    alloc: Global,
    jobs: &[&[Act]],
) -> Option<(usize, usize)> {
    for (job, acts) in jobs.iter().enumerate() {
        let at = first_wrong(rt, alloc, acts);
        if at < acts.len() {
            return Some((job, at));
        }
    }
    None
}
