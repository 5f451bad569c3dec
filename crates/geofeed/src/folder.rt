//! The current folder as the program's folder.
ghost use Rattle.std.specs.Prelude.{◌≡◌, ◌≢◌, ◌≤◌, None, Err, IfOk, length};
ghost use Rattle.geo_outside.specs.Count.{Rose};

use crate::disk::replace;
use crate::host::HostDisk;
use geo_addr::Text;
use geo_outside::{Folder, FolderErr, OutErr};
use std::fs::{File, Files};
use std::io::{ErrorKind, Read, Seek, SeekFrom};
use std::{fs, io};

/// The files of the current folder and of those below it. It tells nothing of what they hold.
#[derive(Drop)]
pub(crate) struct DirFolder<'a, R: Files<File = File> + AllocGlobal> {
    rt: &'a R,
    open: Option<Open>,
    why: Option<io::Error>,
    read_faults: u64,
    put_faults: u64,
    misses: u64,
}

/// The file that was read last. It stays open, so that all pieces of one reading are of one file.
#[derive(Drop)]
struct Open {
    name: Text,
    file: File,
}

impl<'a, R: Files<File = File> + AllocGlobal> DirFolder<'a, R> {
    pub(crate) fn new(rt: &'a R) -> DirFolder<'a, R> {
        DirFolder {
            rt,
            open: None,
            why: None,
            read_faults: 0,
            put_faults: 0,
            misses: 0,
        }
    }

    /// Why the last call that failed did so, as the system says it.
    pub(crate) fn why(&self) -> Option<io::Error> {
        self.why
    }
}

impl<R: Files<File = File> + AllocGlobal> Folder for DirFolder<'_, R> {
    ghost told = { λ _. None };

    ghost read_faults = { λ folder. folder.read_faults };

    ghost put_faults = { λ folder. folder.put_faults };

    ghost misses = { λ folder. folder.misses };

    ghost given = { λ _. 0 };

    fn read_at(&mut self, name: &str, from: u64, into: &mut [u8]) -> Result<usize, FolderErr> {
        match read(self.rt, &mut self.open, name, from, into) {
            Ok(n) => Ok(n),
            Err(why) if why.kind() == ErrorKind::NotFound => {
                self.misses = self.misses.saturating_add(1);
                Err(FolderErr::Missing)
            }
            Err(why) => {
                self.why = Some(why);
                self.read_faults = self.read_faults.saturating_add(1);
                Err(FolderErr::Failed)
            }
        }
    }

    /// It never answers `Memory`: a put that the system has no memory for has failed,
    /// and `why` says so.
    fn put(&mut self, name: &str, bytes: &[u8]) -> Result<(), OutErr>
        ensures never_memory { result ≢ Err OutErr.Memory }
        ensures failed { result ≡ Err OutErr.Failed → Rose self.old.put_faults self.new.put_faults }
        ensures read_faults { self.old.read_faults ≤ self.new.read_faults }
        ensures put_faults { self.old.put_faults ≤ self.new.put_faults }
        ensures misses { self.old.misses ≤ self.new.misses }
    {
        self.open = None;
        match replace(&mut HostDisk::new(self.rt), self.rt.alloc(), name, bytes) {
            Ok(()) => Ok(()),
            Err(why) => {
                self.why = Some(why);
                self.put_faults = self.put_faults.saturating_add(1);
                Err(OutErr::Failed)
            }
        }
    }
}

// Reads once. A reading that begins, at 0 or of another name, opens the file anew.
fn read<R: Files<File = File> + AllocGlobal>(
    rt: &R,
    open: &mut Option<Open>,
    name: &str,
    from: u64,
    into: &mut [u8],
) -> io::Result<usize>
    ensures { IfOk result (λ n. n ≤ length into.old) }
{
    if from > 0
        && let Some(last) = open
        && last.name.as_str() == name
    {
        return read_from(&mut last.file, from, into);
    }
    let mut file = opened(rt, name)?;
    let answer = read_from(&mut file, from, into);
    *open = Text::of(rt.alloc(), name)
        .ok()
        .map(|name| Open { name, file });
    answer
}

// Opens a regular file. A pipe or a terminal would have the program wait,
// so nothing else is opened at all.
fn opened<R: Files<File = File>>(rt: &R, name: &str) -> io::Result<File> {
    let there = fs::metadata(rt, name)?;
    if there.is_dir() {
        return Err(io::Error::from(ErrorKind::IsADirectory));
    }
    if !there.is_file() {
        return Err(io::Error::new(ErrorKind::InvalidInput, "not a regular file"));
    }
    File::open(rt, name)
}

fn read_from<F: Read + Seek>(file: &mut F, from: u64, into: &mut [u8]) -> io::Result<usize>
    ensures { IfOk result (λ n. n ≤ length into.old) }
{
    file.seek(SeekFrom::Start(from))?;
    file.read(into)
}
