//! What a command tells of itself, for who has to mend what stopped it.
use crate::notices::Notices;
use crate::stop::Stop;
use geo_addr::Text;
use job_lines::{Act, Gone, Reason, Step};
use std::alloc::Global;

/// What a line of a job does.
#[derive(Clone, Copy, Debug, PartialEq, Eq)]
pub enum ActKind {
    Rpsl,
    Stats,
    Feed,
    Overrides,
    DropRpsl,
    DropStats,
    DropFeed,
    DropOverrides,
    Emit,
    Report,
    Mark,
    Back,
    Compact,
}

/// The step of a job that was not done: its line, and what it does.
#[derive(Clone, Copy, Debug, PartialEq, Eq)]
pub struct NotDone {
    pub line: u64,
    pub kind: ActKind,
}

/// What a command tells of itself beside its status. What there was no memory for is `None`.
#[derive(Debug, Drop)]
pub struct Journal {
    /// What ended the command, where not all was done.
    pub why: Option<Stop>,
    /// The name of the job that the command does, where it does one.
    pub job: Option<Text>,
    /// The step that was not done, where one was not.
    pub step: Option<NotDone>,
    /// What the step, or the command, was about: the name of a file, a slot, a mark or a URL.
    pub name: Option<Text>,
    /// Why the words, or a line of the job, are refused.
    pub reason: Option<Reason>,
    /// The URLs of feeds in force next below and next above one that is not.
    pub below: Option<Text>,
    pub above: Option<Text>,
    /// What was noticed on the way.
    pub notices: Notices,
}

impl Journal {
    /// Before the command.
    pub fn new(alloc: Global) -> Journal {
        Journal {
            why: None,
            job: None,
            step: None,
            name: None,
            reason: None,
            below: None,
            above: None,
            notices: Notices::new(alloc),
        }
    }

    /// Notes the job that the command does.
    pub fn begin(&mut self, alloc: Global, job: &str) {
        self.job = Text::of(alloc, job).ok();
    }

    /// Notes why the words, or a line of the job, are refused.
    pub fn refuse(&mut self, reason: Option<Reason>) {
        self.reason = reason;
    }

    /// Notes what ended the command.
    pub fn end(&mut self, why: Stop) {
        self.why = Some(why);
    }

    /// Notes what it was about.
    pub fn end_at(&mut self, alloc: Global, why: Stop, name: &str) {
        self.why = Some(why);
        self.name = Text::of(alloc, name).ok();
    }

    /// Notes the URLs of feeds in force next below and next above one that is not.
    pub fn offer(&mut self, below: Option<Text>, above: Option<Text>) {
        self.below = below;
        self.above = above;
    }

    /// Notes the step that was not done.
    pub fn end_step(&mut self, step: &Step) {
        self.step = Some(NotDone {
            line: step.line,
            kind: kind_of(&step.act),
        });
        self.name = subject_of(&step.act);
    }
}

pub(crate) fn kind_of(act: &Act) -> ActKind {
    match act {
        Act::Rpsl { .. } => ActKind::Rpsl,
        Act::Stats { .. } => ActKind::Stats,
        Act::Feed { .. } => ActKind::Feed,
        Act::Overrides { .. } => ActKind::Overrides,
        Act::Drop(Gone::Rpsl(_)) => ActKind::DropRpsl,
        Act::Drop(Gone::Stats(_)) => ActKind::DropStats,
        Act::Drop(Gone::Feed(_)) => ActKind::DropFeed,
        Act::Drop(Gone::Overrides) => ActKind::DropOverrides,
        Act::Emit { .. } => ActKind::Emit,
        Act::Report => ActKind::Report,
        Act::Mark { .. } => ActKind::Mark,
        Act::Back { .. } => ActKind::Back,
        Act::Compact => ActKind::Compact,
    }
}

fn subject_of(act: &Act) -> Option<Text> {
    let subject = match act {
        Act::Rpsl { file, .. }
        | Act::Stats { file, .. }
        | Act::Feed { file, .. }
        | Act::Overrides { file }
        | Act::Emit { file } => file,
        Act::Drop(Gone::Rpsl(slot) | Gone::Stats(slot)) => slot,
        Act::Drop(Gone::Feed(url)) => url,
        Act::Mark { name } | Act::Back { name } => name,
        Act::Drop(Gone::Overrides) | Act::Report | Act::Compact => return None,
    };
    subject.copied().ok()
}
