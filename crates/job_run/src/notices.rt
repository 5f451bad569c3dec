//! What is noticed of a job on the way: it can be done, and is likely not what was meant.
use crate::journal::{ActKind, kind_of};
use crate::scope::Scope;
use geo_addr::{Memory, Text};
use job_lines::{Act, Gone, Job, Step};
use precedence::Sources;
use std::alloc::Global;
use std::collections::BTreeMap;
use update_session::Session;

/// The most notices that are kept.
pub const MOST_NOTICES: usize = 100;

/// The seconds from which on an epoch is more likely milliseconds: 16 November 5138.
pub const LATE: u64 = 100_000_000_000;

/// What was noticed.
#[derive(Clone, Copy, Debug, PartialEq, Eq)]
pub enum NoticeKind {
    /// Nothing of the file was accepted, if it has a byte, as the source that the line sets.
    Nothing(ActKind),
    /// The line sets again what this earlier line set, and no line between them used it.
    SetAgain { before: u64 },
    /// The line writes the file that this line reads.
    WritesRead { by: u64 },
    /// The file of the job itself is written.
    WritesJob,
    /// The line writes a file without a record.
    NoRecord,
    /// The epoch is 0.
    EpochZero,
    /// The epoch is `LATE` or more.
    EpochLate,
}

/// Something noticed: the line of the job that it is said of, or 0, and the file.
#[derive(Debug, Drop)]
pub struct Notice {
    pub line: u64,
    pub kind: NoticeKind,
    pub name: Option<Text>,
}

/// All that was noticed, up to `MOST_NOTICES`, in the order of the lines.
#[derive(Debug, Drop)]
pub struct Notices {
    alloc: Global,
    list: Vec<Notice>,
    more: u64,
}

impl Notices {
    /// Nothing noticed.
    pub fn new(alloc: Global) -> Notices {
        Notices {
            alloc,
            list: Vec::new(alloc),
            more: 0,
        }
    }

    /// The first of them.
    pub fn as_slice(&self) -> &[Notice] {
        self.list.as_slice()
    }

    /// How many more there were.
    pub fn more(&self) -> u64 {
        self.more
    }

    /// Notices what a job that is to be done whole says, before it is done. `name` is its file.
    pub fn of_job(&mut self, name: &str, job: &Job) {
        match job.meta.epoch {
            0 => self.put(0, NoticeKind::EpochZero, None),
            LATE.. => self.put(0, NoticeKind::EpochLate, None),
            _ => {}
        }
        let _ = self.of_steps(name, job.steps.as_slice());
    }

    /// Notices that a command which does no step of a job writes a file that the job reads.
    pub fn of_output(&mut self, name: &str, job: &Job, file: &str) {
        if let Ok(reads) = reads_of(self.alloc, job.steps.as_slice()) {
            self.of_write(&reads, name, 0, file);
        }
    }

    // In line order. What there is no memory for is not noticed.
    fn of_steps(&mut self, name: &str, steps: &[Step]) -> Result<(), Memory> {
        let reads = reads_of(self.alloc, steps)?;
        let mut unused = Unused::new(self.alloc);
        for step in steps {
            if let Some(before) = unused.set(self.alloc, step)? {
                self.put(step.line, NoticeKind::SetAgain { before }, None);
            }
            if let Act::Emit { file } = &step.act {
                self.of_write(&reads, name, step.line, file.as_str());
            }
        }
        Ok(())
    }

    fn of_write(&mut self, reads: &BTreeMap<&str, u64>, name: &str, line: u64, file: &str) {
        if file == name {
            self.put(line, NoticeKind::WritesJob, Some(file));
        }
        if let Some(by) = reads.get(file) {
            self.put(line, NoticeKind::WritesRead { by: *by }, Some(file));
        }
    }

    /// Notices what came of steps that were done: `count` of them from `at` on.
    pub(crate) fn of_done(
        &mut self,
        scope: Scope,
        job: &[Step],
        at: usize,
        count: usize,
        session: &Session,
    ) {
        // (`skip` would go over the steps before them, one by one)
        let (_before, rest) = job.split_at(at.min(job.len()));
        for step in rest.iter().take(count) {
            match &step.act {
                Act::Emit { file } => {
                    if scope == Scope::Whole && is_without_record(session) && sets_any(job) {
                        self.put(step.line, NoticeKind::NoRecord, Some(file.as_str()));
                    }
                }
                act => {
                    if let Some(file) = file_of_nothing(act, session.sources()) {
                        let kind = NoticeKind::Nothing(kind_of(act));
                        self.put(step.line, kind, Some(file.as_str()));
                    }
                }
            }
        }
    }

    fn put(&mut self, line: u64, kind: NoticeKind, name: Option<&str>) {
        if self.list.len() >= MOST_NOTICES {
            self.more = self.more.saturating_add(1);
            return;
        }
        let name = match name {
            Some(name) => Text::of(self.alloc, name).ok(),
            None => None,
        };
        let at = self.list.partition_point(|it| it.line <= line);
        let _ = self.list.insert(at, Notice { line, kind, name });
    }
}

// What was set in slots, and as overrides, and not used since: the lines.
#[derive(Drop)]
struct Unused<'a> {
    dumps: BTreeMap<&'a str, u64>,
    stats: BTreeMap<&'a str, u64>,
    overrides: Option<u64>,
}

impl<'a> Unused<'a> {
    fn new(alloc: Global) -> Unused<'a> {
        Unused {
            dumps: BTreeMap::new(alloc),
            stats: BTreeMap::new(alloc),
            overrides: None,
        }
    }

    // The line whose source this step replaces unused. Whatever tells of the sources in force, or
    // keeps them, uses them, and so does what takes others in their place.
    fn set(&mut self, alloc: Global, step: &'a Step) -> Result<Option<u64>, Memory> {
        match &step.act {
            Act::Rpsl { slot, .. } => Ok(self.dumps.insert(slot.as_str(), step.line)?),
            Act::Stats { slot, .. } => Ok(self.stats.insert(slot.as_str(), step.line)?),
            Act::Overrides { .. } => Ok(self.overrides.replace(step.line)),
            Act::Drop(Gone::Rpsl(slot)) => {
                self.dumps.remove(slot.as_str());
                Ok(None)
            }
            Act::Drop(Gone::Stats(slot)) => {
                self.stats.remove(slot.as_str());
                Ok(None)
            }
            Act::Drop(Gone::Overrides) => {
                self.overrides = None;
                Ok(None)
            }
            Act::Feed { .. } | Act::Drop(Gone::Feed(_)) | Act::Compact => Ok(None),
            Act::Emit { .. } | Act::Report | Act::Mark { .. } | Act::Back { .. } => {
                *self = Unused::new(alloc);
                Ok(None)
            }
        }
    }
}

// The files that the steps read, each with the last line that does.
fn reads_of<'a>(alloc: Global, steps: &'a [Step]) -> Result<BTreeMap<&'a str, u64>, Memory> {
    let mut reads = BTreeMap::new(alloc);
    for step in steps {
        match &step.act {
            Act::Rpsl { file, .. }
            | Act::Stats { file, .. }
            | Act::Feed { file, .. }
            | Act::Overrides { file } => {
                reads.insert(file.as_str(), step.line)?;
            }
            _ => {}
        }
    }
    Ok(reads)
}

// The file of a source that was just set and has no statement.
fn file_of_nothing<'a>(act: &'a Act, sources: &Sources) -> Option<&'a Text> {
    let (file, statements) = match act {
        Act::Rpsl { slot, file } => (file, sources.dump_of(slot.as_str())?.refs.as_slice().len()),
        Act::Stats { slot, file } => (file, sources.stats_of(slot.as_str())?.rows.as_slice().len()),
        Act::Feed { url, file } => (
            file,
            sources.feed_of(url.as_str())?.entries.as_slice().len(),
        ),
        Act::Overrides { file } => (file, sources.overrides()?.rows.as_slice().len()),
        _ => return None,
    };
    if statements == 0 { Some(file) } else { None }
}

fn is_without_record(session: &Session) -> bool {
    session.root() == session.store().empty()
}

fn sets_any(steps: &[Step]) -> bool {
    for step in steps {
        match &step.act {
            Act::Rpsl { .. } | Act::Stats { .. } | Act::Feed { .. } | Act::Overrides { .. } => {
                return true;
            }
            _ => {}
        }
    }
    false
}
