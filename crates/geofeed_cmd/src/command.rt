//! The whole command.
ghost use Rattle.std.specs.Prelude.{◌≡◌, ◌⊎◌, ◌≢◌, ◌≤◌, ◌+◌, ℕ, [], List, None, Some, false, map};
ghost use Rattle.std.specs.Prelude.{string_bytes};
ghost use Rattle.geo_outside.specs.Count.{Rose};
ghost use Rattle.geo_outside.specs.Files.{Told};
ghost use Rattle.job_lines.specs.Commands.{command_of, gen};
ghost use Rattle.job_lines.specs.SpokenWords.{lines_said, named};
ghost use Rattle.job_lines.specs.declared.act.Act.TheVariants.{Emit};
ghost use Rattle.job_lines.specs.declared.job.Step as steps_of;
ghost use Rattle.job_run.specs.Acts.{does};
ghost use Rattle.job_run.specs.Published.{IsLeastByValue, IsPublished};
ghost use Rattle.job_run.specs.Seen.{seen};
ghost use Rattle.job_run.specs.World.{World};
ghost use Rattle.geofeed_cmd.specs.Run.Answers.{Comes, EndsGenerated, IsAnswer, IsDone, Prevails};
ghost use Rattle.geofeed_cmd.specs.Run.Answers.{SpendsAll};
ghost use Rattle.geofeed_cmd.specs.Run.Causes.{Causes, IsFree};
ghost use Rattle.geofeed_cmd.specs.Run.Ending.{ending};
ghost use Rattle.geofeed_cmd.specs.Run.Ends.{Concludes, around};
ghost use Rattle.geofeed_cmd.specs.Run.Feeds.{PublishesFeed};
ghost use Rattle.geofeed_cmd.specs.Run.Plans.{Reaches, is_command, puts_files, reads_folder};
ghost use Rattle.geofeed_cmd.specs.Run.Plans.{room_of, takes_steps};
ghost use Rattle.geofeed_cmd.specs.declared.status.Status as statuses;

use crate::commands::build::build;
use crate::commands::check::check;
use crate::commands::generate::generate;
use crate::commands::lookup::lookup;
use crate::last::{Last, by_sources};
use crate::status::Status;
use crate::stop::no_command;
use fan_work::Forks;
use geo_outside::{Folder, Gate, Sink, Steps};
use job_lines::{Reason, Spoken, command_or_reason};
use job_run::Journal;
use published::is_plain;
use std::alloc::Global;
use std::marker::Sync;
use std::sync::ledger::Ledger;
use std::thread::Threads;

/// Does the command that the words are.
///
/// `build JOB` does the job in the file JOB. By its sources `explain JOB ADDR` prints why the
/// address ADDR has its record, `publish JOB BLOCK FILE` writes the shortest feed of a block,
/// `check JOB URL` prints what becomes of each line of a feed, and `census JOB` how many addresses
/// each country has. `lookup FILE ADDR` prints what FILE says of ADDR,
/// and `gen N FILE` does a generated job.
///
/// Files are read and put by `folder`, and what is printed goes to `out`. A job is done line by
/// line. The first line that cannot be done ends it, and one line on why is printed
/// behind what was printed before.
///
/// What each answer leaves is in the document on runs (`docs/inside/run.md`): `Comes` has a case
/// for each, and `Causes` says of the job alone when it comes.
pub fn run<R: Threads + Sync, F: Folder, O: Sink, G: Gate, L: Ledger>(
    rt: &R,
    alloc: Global,
    words: &[String],
    folder: &mut F,
    out: &mut O,
    gate: &G,
    steps: &mut Steps<L>,
) -> Status
    // At `Done` every step was done: files, puts and text are those of the job's run.
    ensures done { (first : Told) → F.told folder.old ≡ Some first → result ≡ Status.Done
        → IsDone (command_of (map string_bytes words.now)) first
        (seen (F.told folder.old) (O.written out.old) (O.faults out.old) steps.old)
        (seen (F.told folder.new) (O.written out.new) (O.faults out.new) steps.new) }

    // Each file that was written is a fresh build of the sources then in force; the walk through it
    // gives every address the value of its record, or none; and no list of nodes that finds the
    // same records is shorter.
    ensures headline { (first : Told) → F.told folder.old ≡ Some first → result ≡ Status.Done
        → (step : steps_of.Step) (name : List ℕ) (world : World)
        → Reaches (command_of (map string_bytes words.now)) first (does step) world
        → step.act ≡ Emit name → IsPublished world.session.state }
    ensures by_value { (first : Told) → F.told folder.old ≡ Some first → result ≡ Status.Done
        → (step : steps_of.Step) (name : List ℕ) (world : World)
        → Reaches (command_of (map string_bytes words.now)) first (does step) world
        → step.act ≡ Emit name → IsLeastByValue world.session.state }

    // The file that `publish` wrote has the fewest lines that say of its block what the sources in
    // force say, and whoever reads it as a feed gets these lines back, with no note.
    ensures published { (first : Told) → F.told folder.old ≡ Some first → result ≡ Status.Done
        → PublishesFeed (command_of (map string_bytes words.now)) first (F.told folder.new) }

    // What there is at each answer.
    ensures comes { (first : Told) → F.told folder.old ≡ Some first
        → Comes result (command_of (map string_bytes words.now)) first
        (seen (F.told folder.old) (O.written out.old) (O.faults out.old) steps.old)
        (seen (F.told folder.new) (O.written out.new) (O.faults out.new) steps.new)
        (F.put_faults folder.old) (F.put_faults folder.new) }

    // Each answer has its cause, and a cause no other answer but those that prevail.
    ensures exact { (first : Told) → F.told folder.old ≡ Some first
        → IsAnswer (command_of (map string_bytes words.now)) first result }
    ensures caused { (first : Told) → F.told folder.old ≡ Some first
        → Prevails (command_of (map string_bytes words.now)) first result
        ⊎ Causes result (command_of (map string_bytes words.now)) first }
    ensures certain { (first : Told) → F.told folder.old ≡ Some first
        → (status : statuses.Status) → Causes status (command_of (map string_bytes words.now)) first
        → (result ≡ status) ⊎ Prevails (command_of (map string_bytes words.now)) first result }
    ensures complete { (first : Told) → F.told folder.old ≡ Some first
        → IsFree (command_of (map string_bytes words.now)) first
        → ¬ SpendsAll (command_of (map string_bytes words.now)) first
        → ¬ Rose (F.read_faults folder.old) (F.read_faults folder.new)
        → ¬ Rose (F.put_faults folder.old) (F.put_faults folder.new)
        → ¬ Rose (O.faults out.old) (O.faults out.new)
        → (result ≡ Status.Done) ⊎ (result ≡ Status.Memory) }

    // These stand whatever the folder and the sink tell. `gen` reads no file, and its sources are
    // within their limits; it takes no more steps than its job may take over any files.
    ensures generated { (lines : ℕ) (file : List ℕ)
        → command_of (map string_bytes words.now) ≡ Some (gen lines file) → EndsGenerated result }
    ensures bounded { (lines : ℕ) (file : List ℕ) (any : Told)
        → command_of (map string_bytes words.now) ≡ Some (gen lines file)
        → steps.new
        ≤ steps.old + (ending any (command_of (map string_bytes words.now))).spent }
    ensures words { result ≡ Status.Words
        → is_command (command_of (map string_bytes words.now)) ≡ false }
    ensures none { is_command (command_of (map string_bytes words.now)) ≡ false
        → (result ≡ Status.Words) ⊎ (result ≡ Status.Memory) }
    ensures untouched { is_command (command_of (map string_bytes words.now)) ≡ false
        → folder.new ≡ folder.old }
    ensures unput { puts_files (command_of (map string_bytes words.now)) ≡ false
        → F.told folder.new ≡ F.told folder.old }
    ensures still { takes_steps (command_of (map string_bytes words.now)) ≡ false
        → steps.new ≡ steps.old }
    ensures given { (first : Told) → F.told folder.old ≡ Some first
        → F.given folder.new
        ≤ F.given folder.old + room_of first (command_of (map string_bytes words.now)) }
    ensures read { result ≡ Status.ReadFault
        → Rose (F.read_faults folder.old) (F.read_faults folder.new) }
    ensures missing { result ≡ Status.Missing → Rose (F.misses folder.old) (F.misses folder.new) }
    ensures unread { reads_folder (command_of (map string_bytes words.now)) ≡ false
        → (result ≢ Status.ReadFault)
        × (F.given folder.new ≤ F.given folder.old) }
    ensures write { result ≡ Status.WriteFault
        → Rose (F.put_faults folder.old) (F.put_faults folder.new)
        ⊎ Rose (O.faults out.old) (O.faults out.new) }
    ensures unprinted { puts_files (command_of (map string_bytes words.now)) ≡ false
        → result ≡ Status.WriteFault
        → Rose (O.faults out.old) (O.faults out.new) }
{
    let mut journal = Journal::new(alloc);
    run_told(rt, alloc, words, folder, out, gate, steps, &mut journal)
}

/// Does the command that the words are as `run` does it, and writes into the journal what ended it.
/// All that `run` ensures follows from what it ensures.
pub fn run_told<R: Threads + Sync, F: Folder, O: Sink, G: Gate, L: Ledger>(
    rt: &R,
    alloc: Global,
    words: &[String],
    folder: &mut F,
    out: &mut O,
    gate: &G,
    steps: &mut Steps<L>,
    journal: &mut Journal,
) -> Status
    ensures leaves { Concludes result (command_of (map string_bytes words.now))
        (around F.Folder O.Sink folder.old out.old steps.old)
        (around F.Folder O.Sink folder.new out.new steps.new) }
{
    let forks = Forks {
        rt,
        alloc,
        gate,
        pieces: 1,
    };
    match command_or_reason(words) {
        Ok(spoken) => do_spoken(&forks, spoken, folder, out, steps, journal),
        Err(fault) => {
            journal.refuse(Reason::of_words(alloc, words, fault).ok());
            no_command(alloc, out, journal)
        }
    }
}

/// Does a command as the words spoke it.
fn do_spoken<R: Threads + Sync, F: Folder, O: Sink, G: Gate, L: Ledger>(
    forks: &Forks<'_, R, G>,
    spoken: Spoken<'_>,
    folder: &mut F,
    out: &mut O,
    steps: &mut Steps<L>,
    journal: &mut Journal,
) -> Status
    requires few { lines_said spoken ≤ 1000000 }
    ensures leaves { Concludes result (named spoken.entry)
        (around F.Folder O.Sink folder.old out.old steps.old)
        (around F.Folder O.Sink folder.new out.new steps.new) }
{
    match spoken {
        Spoken::Build(name) => build(forks, name, folder, out, steps, journal),
        Spoken::Lookup(name, at) => lookup(forks.alloc, name, at, folder, out, journal),
        Spoken::Explain(name, at) => {
            by_sources(forks, name, &Last::Explain(at), folder, out, steps, journal)
        }
        Spoken::Gen(lines, name) => generate(forks, lines, name, folder, out, steps, journal),
        Spoken::Publish(name, block, file) => {
            if is_plain(block) {
                let last = Last::Publish(block, file);
                by_sources(forks, name, &last, folder, out, steps, journal)
            } else {
                no_command(forks.alloc, out, journal)
            }
        }
        Spoken::Check(name, word) => check(forks, name, word, folder, out, steps, journal),
        Spoken::Census(name) => {
            by_sources(forks, name, &Last::Census, folder, out, steps, journal)
        }
    }
}
