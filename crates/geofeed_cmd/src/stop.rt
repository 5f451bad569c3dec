//! Why a command stops, its status then, and the line that is printed.
ghost use Rattle.std.specs.Prelude.{◌≡◌, ◌⊎◌, ◌≤◌, ◌++◌, [], IfOk, OnErr, OnOk, codes, decimal};
ghost use Rattle.geofeed_cmd.specs.Run.Lines.{job_line, status_of, stop_line};
ghost use Rattle.geofeed_cmd.specs.Run.Closes.{Closes};
ghost use Rattle.geofeed_cmd.specs.Run.Stopped.{ClosesAt, ComesAs, IsStatusOf, IsStopped};
ghost use Rattle.job_run.specs.declared.stop.Cause.TheVariants as causes;
ghost use Rattle.job_run.specs.declared.stop.Stop.TheVariants as stops;

use crate::status::Status;
use file_lookup::file_line;
use geo_addr::{Memory, Text};
use geo_outside::{OutErr, Sink};
use job_lines::JobFault;
use job_run::{Cause, Journal, Stop};
use std::alloc::Global;

/// The status of a command that stops for this.
pub(crate) fn status_of(why: Stop) -> Status
    ensures { result ≡ status_of why }
{
    match why {
        Stop::Blocked(Cause::Words) => Status::Words,
        Stop::Blocked(Cause::Missing) => Status::Missing,
        Stop::Blocked(Cause::Job(_)) => Status::Job,
        Stop::Blocked(Cause::TooLong | Cause::TooMany) => Status::Source,
        Stop::Blocked(Cause::NotThere) => Status::Drop,
        Stop::Blocked(Cause::NoMark) => Status::Mark,
        Stop::Blocked(Cause::NoFeed) => Status::Absent,
        Stop::Blocked(Cause::TooLarge) => Status::TooLarge,
        Stop::Blocked(Cause::File(_)) => Status::File,
        Stop::ReadFailed => Status::ReadFault,
        Stop::PutFailed | Stop::SinkFailed => Status::WriteFault,
        Stop::Memory => Status::Memory,
    }
}

/// The line that is printed at a stop: `line` is that of the job, or 0, and `name` what was read,
/// written or asked for.
#[tactic(auto, unfolding(crate::specs::Run::Lines::stop_line))]
pub fn stop_line(alloc: Global, why: Stop, line: u64, name: &str) -> Result<Text, Memory>
    ensures { IfOk result (λ text. text ≡ stop_line why line name.now) }
{
    match why {
        Stop::Blocked(Cause::Words) => Text::of(alloc, "stop words\n"),
        Stop::Blocked(Cause::Missing) => named_line(alloc, "stop missing ", name),
        Stop::Blocked(Cause::Job(fault)) => job_line(alloc, fault),
        Stop::Blocked(Cause::TooLong) => numbered_line(alloc, "stop source ", line, " bytes\n"),
        Stop::Blocked(Cause::TooMany) => numbered_line(
            alloc,
            "stop source ",
            line,
            " statements\n",
        ),
        Stop::Blocked(Cause::NotThere) => numbered_line(alloc, "stop drop ", line, "\n"),
        Stop::Blocked(Cause::NoMark) => numbered_line(alloc, "stop back ", line, "\n"),
        Stop::Blocked(Cause::NoFeed) => named_line(alloc, "stop absent ", name),
        Stop::Blocked(Cause::TooLarge) => numbered_line(alloc, "stop large ", line, "\n"),
        Stop::Blocked(Cause::File(fault)) => file_line(alloc, fault),
        Stop::ReadFailed => named_line(alloc, "stop read ", name),
        Stop::PutFailed => named_line(alloc, "stop write ", name),
        Stop::SinkFailed | Stop::Memory => Text::of(alloc, ""),
    }
}

fn job_line(alloc: Global, fault: JobFault) -> Result<Text, Memory>
    ensures { IfOk result (λ text. text ≡ job_line fault) }
{
    match fault {
        JobFault::TooLong => Text::of(alloc, "stop job long\n"),
        JobFault::Utf8 => Text::of(alloc, "stop job utf8\n"),
        JobFault::Line(line) => numbered_line(alloc, "stop job ", line, "\n"),
        JobFault::Epoch => Text::of(alloc, "stop job empty\n"),
        JobFault::Memory => Text::of(alloc, ""),
    }
}

fn named_line(alloc: Global, before: &str, name: &str) -> Result<Text, Memory>
    ensures { IfOk result (λ text. text ≡ before.now ++ (name.now ++ codes "\n")) }
{
    let text = format!(in alloc; "{before}{name}\n")?;
    let text = Text::from_string(text)?;
    Ok(text)
}

fn numbered_line(alloc: Global, before: &str, line: u64, after: &str) -> Result<Text, Memory>
    ensures { IfOk result (λ text. text ≡ before.now ++ (decimal line ++ after.now)) }
{
    let text = format!(in alloc; "{before}{line}{after}")?;
    let text = Text::from_string(text)?;
    Ok(text)
}

/// Prints the line of a stop, and says its status. Where the sink fails in the line, the status
/// stays; where there is no memory for the line, want of memory is what stopped the command.
pub(crate) fn stop_at<O: Sink>(
    alloc: Global,
    why: Stop,
    line: u64,
    name: &str,
    out: &mut O,
    journal: &mut Journal,
) -> Status
    ensures status { IsStatusOf why result }
    ensures stopped { IsStopped why result (O.written out.old) (O.written out.new)
        (O.faults out.old) (O.faults out.new) line name.now }
    ensures faults { O.faults out.old ≤ O.faults out.new }
{
    let end = print_stop(alloc, why, line, name, out);
    journal.end_at(alloc, end, name);
    status_of(end)
}

/// What is done at words that are no command.
pub(crate) fn no_command<O: Sink>(alloc: Global, out: &mut O, journal: &mut Journal) -> Status
    ensures status { (result ≡ Status.Words) ⊎ (result ≡ Status.Memory) }
    ensures stopped { IsStopped (stops.Blocked causes.Words) result (O.written out.old)
        (O.written out.new) (O.faults out.old) (O.faults out.new) 0 [] }
    ensures faults { O.faults out.old ≤ O.faults out.new }
{
    stop_at(alloc, Stop::Blocked(Cause::Words), 0, "", out, journal)
}

// Prints the line of a stop, and says what it comes out as.
fn print_stop<O: Sink>(alloc: Global, why: Stop, line: u64, name: &str, out: &mut O) -> Stop
    ensures comes { ComesAs why result }
    ensures closes { ClosesAt result (O.written out.old) (O.written out.new)
        (O.faults out.old) (O.faults out.new) (stop_line result line name.now) }
    ensures faults { O.faults out.old ≤ O.faults out.new }
{
    match print_line(alloc, why, line, name, out) {
        Ok(()) => why,
        Err(Memory) => without_line(why),
    }
}

// What a stop comes out as where there is no memory for its line: what a put or a print that failed
// left is no answer of `Memory`.
fn without_line(why: Stop) -> Stop
    ensures comes { ComesAs why result }
    ensures silent { (result ≡ Stop.PutFailed)
        ⊎ ((result ≡ Stop.SinkFailed) ⊎ (result ≡ Stop.Memory)) }
{
    match why {
        Stop::PutFailed => Stop::PutFailed,
        Stop::SinkFailed => Stop::SinkFailed,
        Stop::Blocked(_) | Stop::ReadFailed | Stop::Memory => Stop::Memory,
    }
}

// Is refused where there was no memory for the line.
fn print_line<O: Sink>(
    alloc: Global,
    why: Stop,
    line: u64,
    name: &str,
    out: &mut O,
) -> Result<(), Memory>
    ensures printed { OnOk result (Closes (O.written out.old) (O.written out.new)
        (O.faults out.old) (O.faults out.new) [] (stop_line why line name.now)) }
    ensures unprinted { OnErr result (O.written out.new ≡ O.written out.old) }
    ensures faults { O.faults out.old ≤ O.faults out.new }
{
    let text = stop_line(alloc, why, line, name)?;
    print_text(out, text.as_str())
}

// An empty line is not written, so nothing follows a sink that failed.
fn print_text<O: Sink>(out: &mut O, text: &str) -> Result<(), Memory>
    ensures printed { OnOk result (Closes (O.written out.old) (O.written out.new)
        (O.faults out.old) (O.faults out.new) [] text.now) }
    ensures unprinted { OnErr result (O.written out.new ≡ O.written out.old) }
    ensures faults { O.faults out.old ≤ O.faults out.new }
{
    if text.is_empty() {
        return Ok(());
    }
    match out.write_all(text.as_bytes()) {
        Ok(()) => Ok(()),
        Err(OutErr::Failed) => Ok(()),
        Err(OutErr::Memory) => Err(Memory),
    }
}
