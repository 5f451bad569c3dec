//! The report of a session, printed.
ghost use Rattle.std.specs.Prelude.{◌≡◌, ◌⊎◌, ◌≤◌, [], ◌++◌, IfErr, IfOk, OnOk, decimal, flat_map};
ghost use Rattle.std.specs.Prelude.{length, string_bytes};
ghost use Rattle.geo_outside.specs.Count.{Rose};
ghost use Rattle.geo_terms.specs.NoteText.{note_line};
ghost use Rattle.geo_terms.specs.Report.{report};
ghost use Rattle.job_run.specs.Acts.{report_text};
ghost use Rattle.job_run.specs.Seen.{Prints};
ghost use Rattle.job_run.specs.Stops.{Tail};

use crate::printing::print;
use crate::stop::Stop;
use geo_addr::{Memory, Text};
use geo_outside::Sink;
use geo_terms::Note;
use std::alloc::Global;
use update_session::Session;

/// Prints the notes of all sources in force, a line each, and then how many there are.
pub(crate) fn print_report<O: Sink>(
    alloc: Global,
    session: &Session,
    out: &mut O,
) -> Result<(), Stop>
    ensures printed { OnOk result (Prints (O.written out.old) (O.written out.new)
        (report_text (report session.now.state.sources))) }
    ensures tail { IfErr result
        (λ why. Tail why [] (report_text (report session.now.state.sources)) (O.written out.old)
        (O.written out.new)) }
    ensures causes { IfErr result (λ why. (why ≡ Stop.SinkFailed) ⊎ (why ≡ Stop.Memory)) }
    ensures sink_failed { result ≡ Err Stop.SinkFailed
        → Rose (O.faults out.old) (O.faults out.new) }
    ensures faults { O.faults out.old ≤ O.faults out.new }
{
    let text = session_text(alloc, session)?;
    print(out, text.as_str())
}

/// The text of the report of a session.
fn session_text(alloc: Global, session: &Session) -> Result<Text, Memory>
    ensures { IfOk result (λ text. text ≡ report_text (report session.now.state.sources)) }
{
    let notes = session.report()?;
    report_text(alloc, notes.as_slice())
}

/// The text of a report with these notes, in one block whose size is reckoned ahead.
#[tactic(auto, unfolding(crate::specs::Acts::report_text))]
fn report_text(alloc: Global, notes: &[Note]) -> Result<Text, Memory>
    ensures { IfOk result (λ text. text ≡ report_text notes.now) }
{
    let mut text = String::with_capacity(alloc, text_len(notes))?;
    push_lines(notes, &mut text)?;
    let count = notes.len();
    write!(text, "notes {count}\n")?;
    let text = Text::from_string(text)?;
    Ok(text)
}

/// Puts the lines of the notes behind a text.
fn push_lines(notes: &[Note], text: &mut String) -> Result<(), Memory>
    ensures { OnOk result
        (string_bytes text.new ≡ string_bytes text.old ++ flat_map note_line notes.now) }
{
    for note in notes {
        push_line(note, text)?;
    }
    Ok(())
}

/// Puts the line of a note behind a text.
#[tactic(auto, unfolding(geo_terms::specs::NoteText::note_line))]
fn push_line(note: &Note, text: &mut String) -> Result<(), Memory>
    ensures { OnOk result (string_bytes text.new ≡ string_bytes text.old ++ note_line note.now) }
{
    let kind = note.origin.kind();
    let name = note.origin.name();
    let line = note.line;
    let code = note.rule.code();
    write!(text, "{kind} {name} {line} {code}\n")?;
    Ok(())
}

/// How many bytes the text of a report with these notes takes.
fn text_len(notes: &[Note]) -> usize {
    let mut len = "notes \n".len() + digits(notes.len() as u64);
    for note in notes {
        len = len.saturating_add(line_len(note));
    }
    len
}

/// How many bytes the line of a note takes, with its three blanks and its line feed.
fn line_len(note: &Note) -> usize {
    let kind = note.origin.kind().len();
    let name = note.origin.name().len();
    let words = kind
        .saturating_add(name)
        .saturating_add(note.rule.code().len());
    words
        .saturating_add(digits(note.line))
        .saturating_add("   \n".len())
}

/// How many digits a number has.
fn digits(number: u64) -> usize
    ensures enough { length (decimal number) ≤ result }
    ensures few { result ≤ 20 }
{
    match number.checked_ilog10() {
        Some(log) => log as usize + 1,
        None => 1,
    }
}
