//! How the steps of a job are done, and how much of it. At which step it stops was counted by hand.
ghost use Rattle.std.specs.Prelude.{◌≡◌, ◌<◌, ◌≤◌, length, IfSome};

use super::{Files, empty_folder, empty_sink, hold_all, if_done};
use fan_work::Forks;
use geo_addr::Text;
use geo_outside::{MemFolder, MemSink, OpenGate, Steps};
use job_lines::{Job, read_job};
use job_run::{Cause, Journal, Scope, StepStop, Stop, do_steps};
use mmdb_file::Meta;
use std::alloc::Global;
use std::marker::{Brand, Sync};
use std::mem::drop;
use std::sync::ledger::{Blank, Ledger};
use std::thread::Threads;
use update_session::Session;

/// A dump, statistics, a feed and overrides without a note.
const SOURCES: Files = &[
    (
        "d",
        b"inetnum: 10.0.0.0 - 10.0.0.255\ngeofeed: https://a.example/f\n",
    ),
    ("s", b"x|DE|ipv4|10.0.0.0|256||allocated\n"),
    ("f", b"10.0.0.0/25,FR,,,\n"),
    ("o", b"10.0.0.0/26,set,IT\n"),
];

/// A job that sets them all.
static JOB: &str =
    "epoch 1\nrpsl a d\nstats a s\nfeed https://a.example/f f\noverrides o\nreport\n";

fn job() -> &'static str {
    JOB
}

/// The files of the folder, how much is done, the step at which it stops, in what way, and what is
/// printed.
struct Row {
    held: Files,
    scope: Scope,
    at: usize,
    way: &'static str,
    printed: &'static str,
}

static ROWS: [Row; 4] = [
    Row {
        held: SOURCES,
        scope: Scope::Whole,
        at: 0,
        way: "done",
        printed: "notes 0\n",
    },
    Row {
        held: &[],
        scope: Scope::Whole,
        at: 0,
        way: "missing",
        printed: "",
    },
    Row {
        held: &[("d", b"")],
        scope: Scope::Whole,
        at: 1,
        way: "missing",
        printed: "",
    },
    Row {
        held: SOURCES,
        scope: Scope::Sources,
        at: 0,
        way: "done",
        printed: "",
    },
];

fn rows() -> &'static [Row] {
    &ROWS
}

fn word_of(ended: Result<(), StepStop>) -> (usize, &'static str) {
    match ended {
        Ok(()) => (0, "done"),
        Err(
            StepStop {
                at,
                why: Stop::Blocked(Cause::Missing),
            },
        ) => (at, "missing"),
        Err(StepStop { at, why: _ }) => (at, "stopped otherwise"),
    }
}

fn folder_of(alloc: Global, files: Files) -> Option<MemFolder> {
    let mut folder = empty_folder(alloc, 0, 0)?;
    let held = hold_all(&mut folder, files);
    if_done(folder, held)
}

fn meta(alloc: Global) -> Option<Meta>
    ensures { IfSome result (λ meta. length meta.name ≤ 64) }
{
    match Text::of(alloc, "x") {
        Ok(name) => Some(Meta { epoch: 1, name }),
        Err(_) => None,
    }
}

fn session_of(alloc: Global) -> Option<Session> {
    let meta = meta(alloc)?;
    Session::new(alloc, meta).ok()
}

/// What the steps of the job are done with.
#[derive(Drop)]
struct World {
    job: Job,
    session: Session,
    folder: MemFolder,
    out: MemSink,
}

fn world_of(alloc: Global, row: &Row) -> Option<World> {
    let job = read_job(alloc, job().as_bytes()).ok()?;
    let folder = folder_of(alloc, row.held)?;
    let out = empty_sink(alloc, 0)?;
    // The session last, so that it is let go on no way out.
    let session = session_of(alloc)?;
    Some(World {
        job,
        session,
        folder,
        out,
    })
}

/// Does the steps.
fn done<R: Threads + Sync, L: Ledger>(
    rt: &R,
    alloc: Global,
    scope: Scope,
    world: &mut World,
    blank: Blank,
) -> Result<(), StepStop>
    requires name { blank.name ≡ L.name }
    requires parts { blank.parts ≡ L.parts }
    requires some { 0 < blank.parts }
{
    let mut steps: Steps<L> = Steps::new(blank);
    let forks = Forks {
        rt,
        alloc,
        gate: &OpenGate,
        pieces: 3,
    };
    do_steps(
        &forks,
        scope,
        world.job.steps.as_slice(),
        &mut world.session,
        &mut world.folder,
        &mut world.out,
        &mut steps,
        &mut Journal::new(alloc),
    )
}

/// Whether they end as the row has it.
fn ends_so<R: Threads + Sync>(rt: &R, alloc: Global, row: &Row, world: &mut World) -> bool {
    let ended = done::<R, Brand>(rt, alloc, row.scope, world, Blank::new(1));
    word_of(ended) == (row.at, row.way)
}

fn is_printed(world: &World, printed: &str) -> bool {
    world.out.written() == printed.as_bytes()
}

fn comes_out<R: Threads + Sync>(rt: &R, alloc: Global, row: &Row) -> Option<bool> {
    let mut world = world_of(alloc, row)?;
    let comes = ends_so(rt, alloc, row, &mut world) && is_printed(&world, row.printed);
    // By name: a world that goes at the end of each way out costs the proof a quarter of a minute.
    drop(world);
    Some(comes)
}

#[test]
fn steps_and_stops(rt: HostRuntime) {
    for (at, row) in rows().iter().enumerate() {
        assert!(rt; comes_out(&rt, rt.alloc(), row) == Some(true), "row {at}");
    }
}
