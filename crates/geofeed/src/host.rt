//! The system's own files, as the program uses them.
ghost use Rattle.std.specs.Prelude.{None};

use crate::disk::{Disk, folder_of};
use crate::limit::is_within_limit;
use crate::whole::write_whole;
use std::fs::{File, Files, OpenOptions, Permissions};
use std::io::ErrorKind;
use std::os::unix::fs::{MetadataExt, OpenOptionsExt, PermissionsExt};
use std::{fs, io};

/// The bits of a mode that a new file takes over: not those that let it
/// run as its owner or its group.
const KEPT: u32 = 0o777;

/// The real disk. It tells nothing of what was done.
#[derive(Drop)]
pub(crate) struct HostDisk<'a, R: Files<File = File>> {
    rt: &'a R,
    new: Option<File>,
}

impl<'a, R: Files<File = File>> HostDisk<'a, R> {
    pub(crate) fn new(rt: &'a R) -> HostDisk<'a, R> {
        HostDisk { rt, new: None }
    }

    fn file(&mut self) -> io::Result<&mut File> {
        match &mut self.new {
            Some(file) => Ok(file),
            None => Err(io::Error::from(ErrorKind::NotFound)),
        }
    }
}

impl<R: Files<File = File>> Disk for HostDisk<'_, R> {
    ghost calls = { λ _. None };

    fn look(&mut self, name: &str) -> io::Result<Option<u32>> {
        match fs::symlink_metadata(self.rt, name) {
            Ok(old) if old.is_dir() => Err(io::Error::from(ErrorKind::IsADirectory)),
            Ok(old) if old.is_file() => Ok(Some(old.permissions().mode() & KEPT)),
            Ok(_) => Ok(None),
            Err(why) if why.kind() == ErrorKind::NotFound => Ok(None),
            Err(why) => Err(why),
        }
    }

    fn make(&mut self, name: &str, mode: u32) -> io::Result<bool> {
        self.new = made(self.rt, name, mode)?;
        if self.new.is_none() && is_cleared(self.rt, name).unwrap_or(false) {
            self.new = made(self.rt, name, mode)?;
        }
        Ok(self.new.is_some())
    }

    fn fill(&mut self, bytes: &[u8]) -> io::Result<()> {
        if !is_within_limit(self.rt, bytes.len() as u64) {
            return Err(io::Error::from(ErrorKind::FileTooLarge));
        }
        write_whole(self.file()?, bytes)
    }

    fn set_mode(&mut self, mode: u32) -> io::Result<()> {
        self.file()?.set_permissions(Permissions::from_mode(mode))
    }

    fn sync(&mut self) -> io::Result<()> {
        self.file()?.sync_all()
    }

    fn rename(&mut self, old_name: &str, new_name: &str) -> io::Result<()> {
        fs::rename(self.rt, old_name, new_name)?;
        self.new = None;
        // The file stands under its name by now, so a folder that cannot be
        // handed to the disk is no fault.
        if let Ok(folder) = File::open(self.rt, folder_of(new_name)) {
            let _synced = folder.sync_all();
        }
        Ok(())
    }

    fn remove(&mut self, name: &str) {
        let _removed = fs::remove_file(self.rt, name);
        self.new = None;
    }
}

// A new file of this name with a lock on it, or none where the name is taken.
fn made<R: Files<File = File>>(rt: &R, name: &str, mode: u32) -> io::Result<Option<File>> {
    let mut how = OpenOptions::new();
    how.read(true).write(true).create_new(true).mode(mode);
    match how.open(rt, name) {
        Ok(file) => Ok(held(rt, file, name)),
        Err(why) if why.kind() == ErrorKind::AlreadyExists => Ok(None),
        Err(why) => Err(why),
    }
}

// The new file, unless another run took it for left behind before the lock was on it. Where the
// system knows no locks, no run takes any.
fn held<R: Files<File = File>>(rt: &R, file: File, name: &str) -> Option<File> {
    match file.try_lock() {
        Err(fs::TryLockError::WouldBlock) => None,
        _ if is_at(rt, &file, name).unwrap_or(false) => Some(file),
        _ => None,
    }
}

// Removes the file of this name where a run that was killed has left it behind:
// nobody holds its lock.
fn is_cleared<R: Files<File = File>>(rt: &R, name: &str) -> io::Result<bool> {
    if !fs::symlink_metadata(rt, name)?.is_file() {
        return Ok(false);
    }
    let mut how = OpenOptions::new();
    how.read(true).write(true);
    let file = how.open(rt, name)?;
    if file.try_lock().is_err() || !is_at(rt, &file, name)? {
        return Ok(false);
    }
    fs::remove_file(rt, name)?;
    Ok(true)
}

// Whether the open file still stands under the name: the run that held it may
// just have renamed it.
fn is_at<R: Files<File = File>>(rt: &R, file: &File, name: &str) -> io::Result<bool> {
    let (held, there) = (file.metadata()?, fs::symlink_metadata(rt, name)?);
    Ok(held.dev() == there.dev() && held.ino() == there.ino())
}
