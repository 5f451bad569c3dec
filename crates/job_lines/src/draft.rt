//! What the lines of a job have said so far.
ghost use Rattle.std.specs.Prelude.{◌≡◌, ◌⊎◌, IfErr, IfOk, None, Ok, OnOk, Some};
ghost use Rattle.std.specs.Prelude.{unwrap_or};
ghost use Rattle.geo_addr.specs.Lines.{numbered_lines};
ghost use Rattle.job_lines.specs.Drafts.{no_lines, with_form};
ghost use Rattle.job_lines.specs.Job.{default_name, draft_from, job_with, with_line};
ghost use Rattle.job_lines.specs.Places.{setting_fault};

use crate::fault::JobFault;
use crate::form::{Form, read_form};
use crate::job::{Job, Step};
use crate::line_fault::LineFault;
use crate::reason::JobRefusal;
use crate::words::is_passed_over;
use geo_addr::{Line, Lines, List, Memory, Text};
use mmdb_file::Meta;
use std::alloc::Global;
use std::marker::Model;

/// The database type where no line gives one.
const DEFAULT_NAME: &str = "Geofeed-City";

/// The number of pieces where no line gives one.
const DEFAULT_PIECES: u32 = 4;

/// The epoch, the database type and the number of pieces, where a line gave them,
/// and the steps in line order.
#[derive(Drop)]
pub(crate) struct Draft {
    epoch: Option<u64>,
    name: Option<Text>,
    pieces: Option<u32>,
    steps: Vec<Step>,
}

impl Model for Draft {
    ghost use Rattle.job_lines.specs.Drafts.{DraftParts};

    ghost Value = { DraftParts };

    ghost view = { λ d. record {
      epoch = d.epoch;
      name = d.name;
      pieces = d.pieces;
      steps = d.steps.items;
    } };
}

impl Draft {
    /// The draft behind all lines of a job, or the first line that is refused.
    pub fn of(alloc: Global, bytes: &[u8]) -> Result<Draft, JobRefusal>
        ensures ok { IfOk result
            (λ draft. draft_from (numbered_lines bytes.now) no_lines ≡ Ok draft) }
        ensures err { IfErr result (λ why. (why.fault ≡ JobFault.Memory)
            ⊎ (draft_from (numbered_lines bytes.now) no_lines ≡ Err why.fault)) }
    {
        let mut draft = Draft::new(alloc);
        for line in Lines::of(bytes) {
            match draft.take_line(alloc, line) {
                Ok(()) => {}
                Err(LineFault::Memory) => return Err(JobRefusal::of(JobFault::Memory)),
                Err(fault) => return Err(JobRefusal::at_line(alloc, line, fault)),
            }
        }
        Ok(draft)
    }

    fn new(alloc: Global) -> Draft
        ensures { result ≡ no_lines }
    {
        Draft {
            epoch: None,
            name: None,
            pieces: None,
            steps: Vec::new(alloc),
        }
    }

    // Adds what one more line says.
    #[tactic(auto, unfolding(crate::specs::Job::with_line))]
    fn take_line(&mut self, alloc: Global, line: Line) -> Result<(), LineFault>
        ensures ok { OnOk result
            (with_line (line.entry.number, line.entry.text.now) self.old ≡ Some self.new) }
        ensures err { IfErr result (λ why. (why ≡ LineFault.Memory)
            ⊎ (with_line (line.entry.number, line.entry.text.now) self.old ≡ None)) }
    {
        if is_passed_over(line.text) {
            return Ok(());
        }
        let form = read_form(alloc, line.text)?;
        self.take_form(line.number, form)
    }

    // Adds what a form says, where it may stand here.
    fn take_form(&mut self, line: u64, form: Form) -> Result<(), LineFault>
        ensures ok { OnOk result (with_form line form self.old ≡ Some self.new) }
        ensures err { IfErr result (λ why. (why ≡ LineFault.Memory)
            ⊎ (with_form line form self.old ≡ None)) }
    {
        match form {
            Form::Epoch(epoch) => {
                if self.epoch.is_some() {
                    return Err(LineFault::SecondEpoch);
                }
                self.epoch = Some(epoch);
            }
            Form::TypeName(name) => {
                if let Some(fault) = self.setting_fault(self.name.is_some()) {
                    return Err(fault);
                }
                self.name = Some(name);
            }
            Form::Pieces(number) => {
                if let Some(fault) = self.setting_fault(self.pieces.is_some()) {
                    return Err(fault);
                }
                self.pieces = Some(number);
            }
            Form::Do(act) => {
                if self.epoch.is_none() {
                    return Err(LineFault::NoEpoch);
                }
                self.steps.push(Step { line, act }).map_err(Memory::from)?;
            }
        }
        Ok(())
    }

    // Why a setting may not stand here, which was given already or not.
    fn setting_fault(&self, given: bool) -> Option<LineFault>
        ensures { result ≡ setting_fault self.now given }
    {
        if self.epoch.is_none() {
            return Some(LineFault::NoEpoch);
        }
        if !self.steps.is_empty() {
            return Some(LineFault::Behind);
        }
        if given {
            return Some(LineFault::Twice);
        }
        None
    }

    /// The job that the draft is, where it has an epoch.
    pub fn finish(self, alloc: Global) -> Result<Job, JobFault>
        ensures ok { IfOk result (λ j. job_with self.epoch self ≡ Ok j) }
        ensures err { IfErr result
            (λ why. (why ≡ JobFault.Memory) ⊎ (job_with self.epoch self ≡ Err why)) }
    {
        let Draft {
            epoch,
            name,
            pieces,
            steps,
        } = self;
        let Some(epoch) = epoch else {
            return Err(JobFault::Epoch);
        };
        let name = name_or_default(alloc, name)?;
        Ok(Job {
            meta: Meta { epoch, name },
            pieces: pieces.unwrap_or(DEFAULT_PIECES),
            steps: List::of(steps),
        })
    }
}

fn name_or_default(alloc: Global, name: Option<Text>) -> Result<Text, Memory>
    ensures { IfOk result (λ text. text ≡ unwrap_or name default_name) }
{
    match name {
        Some(name) => Ok(name),
        None => Text::of(alloc, DEFAULT_NAME),
    }
}
