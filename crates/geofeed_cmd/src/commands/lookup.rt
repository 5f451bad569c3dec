//! `lookup FILE ADDR`: prints what a file says of an address.
ghost use Rattle.std.specs.Prelude.{◌≡◌, ◌≢◌, ◌≤◌, ◌+◌, ℕ, [], ◌∷◌, IfErr, IfOk, Some};
ghost use Rattle.std.specs.FinMap as map;
ghost use Rattle.geo_outside.specs.Count.{Rose};
ghost use Rattle.geo_outside.specs.Files.{Told};
ghost use Rattle.job_lines.specs.Commands.{lookup};
ghost use Rattle.job_run.specs.Acts.{shows};
ghost use Rattle.geofeed_cmd.specs.Run.Ends.{Concludes, around};
ghost use Rattle.geofeed_cmd.specs.Run.Plans.{alone, lookup_plan, planned, refused};
ghost use Rattle.job_run.specs.Stops.{IsHindered};
ghost use Rattle.job_run.specs.World.{printing};

use crate::status::Status;
use crate::stop::{status_of, stop_at};
use file_lookup::{LONGEST_FILE, LookupFault, lookup_text};
use geo_addr::{Addr, Text};
use geo_outside::{Folder, Sink};
use job_run::{Cause, Journal, Stop, print, read_file};
use std::alloc::Global;

/// Prints what the file of this name says of the address.
#[tactic(auto, using(crate::proofs::StatusLemmas::status_causes))]
pub(crate) fn lookup<F: Folder, O: Sink>(
    alloc: Global,
    name: &str,
    at: Addr,
    folder: &mut F,
    out: &mut O,
    journal: &mut Journal,
) -> Status
    ensures leaves { (steps : ℕ) → Concludes result (Some (lookup name.now at.0))
        (around F.Folder O.Sink folder.old out.old steps)
        (around F.Folder O.Sink folder.new out.new steps) }
{
    match answer_in(alloc, name, at, folder) {
        Ok(text) => match print(out, text.as_str()) {
            Ok(()) => Status::Done,
            Err(why) => {
                journal.end(why);
                status_of(why)
            }
        },
        Err(why) => stop_at(alloc, why, 0, name, out, journal),
    }
}

/// Reads the file and walks it.
fn answer_in<F: Folder>(alloc: Global, name: &str, at: Addr, folder: &mut F) -> Result<Text, Stop>
    ensures answer { (first : Told) → F.told folder.old ≡ Some first
        → IfOk result (λ text. lookup_plan first name.now at.0 (map.get first.held name.now)
        ≡ planned (shows (printing text) ∷ []) (alone first)) }
    ensures none { (first : Told) → F.told folder.old ≡ Some first
        → IfErr result (λ why. IsHindered why (λ cause.
        lookup_plan first name.now at.0 (map.get first.held name.now) ≡ refused cause name.now)) }
    ensures reads { (result ≢ Err Stop.PutFailed) × (result ≢ Err Stop.SinkFailed)
        × (result ≢ Err (Stop.Blocked Cause.Words)) }

    ensures read_failed { result ≡ Err Stop.ReadFailed
        → Rose (F.read_faults folder.old) (F.read_faults folder.new) }
    ensures missing { result ≡ Err (Stop.Blocked Cause.Missing)
        → Rose (F.misses folder.old) (F.misses folder.new) }
    ensures same { F.told folder.new ≡ F.told folder.old }
    ensures put_faults { F.put_faults folder.old ≤ F.put_faults folder.new }
    ensures given { F.given folder.new ≤ F.given folder.old + 1073807360 }
{
    let bytes = match read_file(alloc, folder, name, LONGEST_FILE) {
        Ok(bytes) => bytes,
        Err(why) => return Err(why),
    };
    match lookup_text(alloc, bytes.as_slice(), at) {
        Ok(text) => Ok(text),
        Err(LookupFault::Memory) => Err(Stop::Memory),
        Err(fault) => Err(Stop::Blocked(Cause::File(fault))),
    }
}
