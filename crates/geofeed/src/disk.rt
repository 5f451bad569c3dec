//! What a put asks of the system, and in what order.
ghost use Rattle.std.specs.Prelude.{◌≡◌, ◌∷◌, [], ◌++◌, ℕ, List, Option, Ok, true, false};
ghost use Rattle.std.specs.Prelude.{OnOk, OnErr, IfOk, string_bytes};
ghost use Rattle.geofeed.specs.DiskCalls.{DiskCall, looked, made, filled, mode_set, synced};
ghost use Rattle.geofeed.specs.DiskCalls.{renamed, removed};
ghost use Rattle.geofeed.specs.DiskCalls.{Adds, first_mode, last_mode, preparing, replacing};
ghost use Rattle.geofeed.specs.DiskCalls.{IsFront};
ghost use Rattle.geofeed.specs.DiskCalls.{IsUndone};

use std::alloc::Global;
use std::io;
use std::io::ErrorKind;

/// How many names are tried for a new file.
const TRIES: u32 = 100;

/// The mode of a new file while it is written: its owner alone reads it.
const PRIVATE: u32 = 0o600;

/// The mode that a new file asks for where there is no old one.
/// The system takes the umask's bits away.
const USUAL: u32 = 0o666;

/// The names of a folder and one new file among them.
///
/// In contracts `acts` is what was done, oldest first, where the disk tells it.
pub(crate) trait Disk {
    ghost calls: { Self → Option (List DiskCall) };

    /// The mode of the regular file of this name: none where there is no file,
    /// or one of another kind.
    fn look(&mut self, name: &str) -> io::Result<Option<u32>>
        ensures ok { IfOk result
            (λ mode. Adds (calls self.old) (calls self.new) (looked name.now mode ∷ [])) }
        ensures err { OnErr result (calls self.new ≡ calls self.old) };

    /// Makes the new file, and answers false where its name is taken.
    fn make(&mut self, name: &str, mode: u32) -> io::Result<bool>
        ensures ok { result ≡ Ok true
            → Adds (calls self.old) (calls self.new) (made name.now mode ∷ []) }
        ensures taken { result ≡ Ok false → calls self.new ≡ calls self.old }
        ensures err { OnErr result (calls self.new ≡ calls self.old) };

    /// Writes all these bytes into the new file.
    fn fill(&mut self, bytes: &[u8]) -> io::Result<()>
        ensures ok { OnOk result (Adds (calls self.old) (calls self.new) (filled bytes.now ∷ [])) }
        ensures err { OnErr result (calls self.new ≡ calls self.old) };

    fn set_mode(&mut self, mode: u32) -> io::Result<()>
        ensures ok { OnOk result (Adds (calls self.old) (calls self.new) (mode_set mode ∷ [])) }
        ensures err { OnErr result (calls self.new ≡ calls self.old) };

    fn sync(&mut self) -> io::Result<()>
        ensures ok { OnOk result (Adds (calls self.old) (calls self.new) (synced ∷ [])) }
        ensures err { OnErr result (calls self.new ≡ calls self.old) };

    fn rename(&mut self, old_name: &str, new_name: &str) -> io::Result<()>
        ensures ok { OnOk result
            (Adds (calls self.old) (calls self.new) (renamed old_name.now new_name.now ∷ [])) }
        ensures err { OnErr result (calls self.new ≡ calls self.old) };

    fn remove(&mut self, name: &str)
        ensures { Adds (calls self.old) (calls self.new) (removed name.now ∷ []) };
}

/// Writes a new file beside the old one and renames it over that, so that who has the old one open
/// or mapped never sees half of the new one.
pub(crate) fn replace<D: Disk>(
    disk: &mut D,
    alloc: Global,
    name: &str,
    bytes: &[u8],
) -> io::Result<()>
    ensures ok { OnOk result ((mode : Option ℕ) × (new : List ℕ)
        × Adds (D.calls disk.old) (D.calls disk.new) (replacing name.now bytes.now mode new)) }
    ensures err { OnErr result ((done : List DiskCall) × IsUndone name.now bytes.now done
        × Adds (D.calls disk.old) (D.calls disk.new) done) }
{
    let mode = disk.look(name)?;
    let new_name = make_beside(disk, alloc, name, mode_at_first(mode))?;
    match complete(disk, new_name.as_str(), name, mode, bytes) {
        Ok(()) => Ok(()),
        Err(why) => {
            disk.remove(new_name.as_str());
            Err(why)
        }
    }
}

fn mode_at_first(last: Option<u32>) -> u32
    ensures { result ≡ first_mode last }
{
    match last {
        Some(_) => PRIVATE,
        None => USUAL,
    }
}

fn complete<D: Disk>(
    disk: &mut D,
    new_name: &str,
    name: &str,
    mode: Option<u32>,
    bytes: &[u8],
) -> io::Result<()>
    ensures ok { OnOk result (Adds (D.calls disk.old) (D.calls disk.new)
        (preparing mode bytes.now ++ renamed new_name.now name.now ∷ [])) }
    ensures err { OnErr result ((part : List DiskCall) × IsFront part (preparing mode bytes.now)
        × Adds (D.calls disk.old) (D.calls disk.new) part) }
{
    disk.fill(bytes)?;
    set_last_mode(disk, mode)?;
    disk.sync()?;
    disk.rename(new_name, name)
}

fn set_last_mode<D: Disk>(disk: &mut D, mode: Option<u32>) -> io::Result<()>
    ensures ok { OnOk result (Adds (D.calls disk.old) (D.calls disk.new) (last_mode mode)) }
    ensures err { OnErr result (D.calls disk.new ≡ D.calls disk.old) }
{
    match mode {
        Some(mode) => disk.set_mode(mode),
        None => Ok(()),
    }
}

// A new file in the folder of `name`. Its own name has a blank, so no job can name it.
fn make_beside<D: Disk>(disk: &mut D, alloc: Global, name: &str, mode: u32) -> io::Result<String>
    ensures ok { IfOk result
        (λ new. Adds (D.calls disk.old) (D.calls disk.new) (made (string_bytes new) mode ∷ [])) }
    ensures err { OnErr result (D.calls disk.new ≡ D.calls disk.old) }
{
    let folder = folder_of(name);
    for number in 0..TRIES {
        let new_name = format!(in alloc; "{folder}/.geofeed new {number}")?;
        if disk.make(new_name.as_str(), mode)? {
            return Ok(new_name);
        }
    }
    let why = "each of the names `.geofeed new 0` to `99` beside it is taken";
    Err(io::Error::new(ErrorKind::AlreadyExists, why))
}

/// The folder that a file of this name is in.
pub(crate) fn folder_of(name: &str) -> &str {
    match name.rsplit_once('/') {
        Some((folder, _)) => folder,
        None => ".",
    }
}
