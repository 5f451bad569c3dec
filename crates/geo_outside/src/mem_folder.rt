//! A folder in memory, for tests.
ghost use Rattle.std.specs.Prelude.{◌≡◌, ◌≢◌, ◌+◌, ◌-◌, ◌^◌, ◌≤◌, ◌<◌, ◌↔◌, min, List, ℕ, []};
ghost use Rattle.std.specs.Prelude.{length, take, drop, IsTrue, IsSome, IfOk, OnOk, OnErr};
ghost use Rattle.std.specs.Prelude.{MatchOption};
ghost use Rattle.std.specs.FinMap as map;
ghost use Rattle.geo_outside.specs.Count.{Rose};
ghost use Rattle.geo_outside.specs.Files.{Told, after_put, Spoils, IsReadFrom, files_after};
ghost use Rattle.geo_outside.specs.Puts.{pairs_of};
ghost use Rattle.geo_outside.specs.Script.{fails_next, faults_of, one_more};

use crate::calls::Calls;
use crate::folder::{Folder, FolderErr, OutErr};
use crate::put::Put;
use geo_addr::Memory;
use std::alloc::Global;
use std::marker::Model;

/// A folder that keeps files in memory and tells them. Its reads and
/// puts fail where they are listed.
#[derive(Debug, Drop)]
pub struct MemFolder {
    alloc: Global,
    /// Every file that was held or put, the newest last.
    writes: Vec<Put>,
    puts: Vec<Put>,
    read_calls: Calls,
    put_calls: Calls,
    misses: u64,
    given: u64,
    most: usize,
}

impl Model for MemFolder {
    ghost use Rattle.std.specs.Prelude.{◌≤◌};
    ghost use Rattle.geo_outside.specs.Files.{files_after};
    ghost use Rattle.geo_outside.specs.Puts.{pairs_of};
    ghost use Rattle.geo_outside.specs.Script.{FakeFolder};
    ghost use Rattle.geo_outside.specs.Codes.{fake_folder_code};

    ghost Value = { FakeFolder };

    ghost coded = { fake_folder_code };

    ghost view = { λ f. record {
      told = record { held = files_after (pairs_of f.writes.items); puts = pairs_of f.puts.items };
      read_calls = f.read_calls;
      put_calls = f.put_calls;
      misses = f.misses;
      given = f.given;
      most = f.most;
    } };

    ghost invariant = { λ f. 1 ≤ f.most };
}

impl MemFolder {
    /// An empty folder. The lists have the numbers, from 1, of the reads
    /// and of the puts that are to fail.
    pub fn new(alloc: Global, fail_reads: Vec<u64>, fail_puts: Vec<u64>) -> MemFolder
        ensures told { result.told ≡ record { held = map.empty; puts = [] } }
        ensures reads { result.read_calls ≡ record { listed = fail_reads.items; made = 0 } }
        ensures puts { result.put_calls ≡ record { listed = fail_puts.items; made = 0 } }
        ensures counts { (result.misses ≡ 0) × (result.given ≡ 0) }
        ensures most { result.most ≡ usize.MAX }
    {
        MemFolder {
            alloc,
            writes: Vec::new(alloc),
            puts: Vec::new(alloc),
            read_calls: Calls::new(fail_reads),
            put_calls: Calls::new(fail_puts),
            misses: 0,
            given: 0,
            most: usize::MAX,
        }
    }

    /// Each later read gives at most this many bytes.
    pub fn short_reads(&mut self, most: usize)
        requires { 1 ≤ most }
        ensures { self.new ≡ record self.old { most = most } }
    {
        self.most = most;
    }

    /// Sets a file. It is no put.
    pub fn hold(&mut self, name: &str, bytes: &[u8]) -> Result<(), Memory>
        ensures ok { OnOk result (self.new ≡ record self.old {
          told = record {
            held = map.insert self.old.told.held name.now bytes.now;
            puts = self.old.told.puts;
          };
        }) }
        ensures err { OnErr result (self.new ≡ self.old) }
    {
        let write = Put::of(self.alloc, name, bytes)?;
        self.writes.push(write)?;
        Ok(())
    }

    /// The bytes of a file, or None exactly where the name is not held.
    pub fn bytes_of(&self, name: &str) -> Option<&[u8]>
        ensures { MatchOption result (map.get self.now.told.held name.now ≡ None)
            (λ file. map.get self.now.told.held name.now ≡ Some file.now) }
    {
        newest(&self.writes, name)
    }

    /// The puts that were answered by Ok, the oldest first.
    pub fn puts(&self) -> &[Put]
        ensures { pairs_of result.now ≡ self.now.told.puts }
    {
        self.puts.as_slice()
    }
}

impl Folder for MemFolder {
    ghost use Rattle.std.specs.Prelude.{Some};

    ghost told = { λ f. Some f.told };

    ghost read_faults = { λ f. faults_of f.read_calls };

    ghost put_faults = { λ f. faults_of f.put_calls };

    ghost misses = { λ f. f.misses };

    ghost given = { λ f. f.given };

    /// A listed call fails. Any other fills as much of `into` as it can.
    fn read_at(&mut self, name: &str, from: u64, into: &mut [u8]) -> Result<usize, FolderErr>
        requires { 0 < length into.old }
        ensures listed { (result ≡ Err FolderErr.Failed) ↔ IsTrue (fails_next self.old.read_calls) }
        ensures amount { (file : List ℕ) → map.get self.old.told.held name.now ≡ Some file → IfOk
            result (λ n. n ≡ min self.old.most (min (length into.old) (length file - from))) }
        ensures counted { self.new.read_calls ≡ one_more self.old.read_calls }
        ensures kept { self.new ≡ record self.old {
          read_calls = self.new.read_calls;
          misses = self.new.misses;
          given = self.new.given;
        } }

        ensures room { IfOk result (λ n. n ≤ length into.old) }
        ensures held { OnOk result (IsSome (map.get self.old.told.held name.now)) }
        ensures bytes { (file : List ℕ) → map.get self.old.told.held name.now ≡ Some file
            → IfOk result (IsReadFrom file from into.new) }
        ensures failed { result ≡ Err FolderErr.Failed
            → Rose (faults_of self.old.read_calls) (faults_of self.new.read_calls) }
        ensures missing { result ≡ Err FolderErr.Missing
            → self.new.misses ≡ min (self.old.misses + 1) u64.MAX }
        ensures no_miss { result ≢ Err FolderErr.Missing → self.new.misses ≡ self.old.misses }
        ensures absent { result ≡ Err FolderErr.Missing
            → map.get self.old.told.held name.now ≡ None }
        ensures same { self.new.told ≡ self.old.told }
        ensures read_faults { faults_of self.old.read_calls ≤ faults_of self.new.read_calls }
        ensures put_faults { faults_of self.old.put_calls ≤ faults_of self.new.put_calls }
        ensures misses { self.old.misses ≤ self.new.misses }
        ensures given { IfOk result (λ n. self.new.given ≡ min (self.old.given + n) u64.MAX) }
        ensures none_given { OnErr result (self.new.given ≡ self.old.given) }
    {
        if self.read_calls.next_fails() {
            return Err(FolderErr::Failed);
        }
        let Some(file) = newest(&self.writes, name) else {
            self.misses = self.misses.saturating_add(1);
            return Err(FolderErr::Missing);
        };
        let n = copy_from(file, from, self.most, into);
        self.given = self.given.saturating_add(n as u64);
        Ok(n)
    }

    /// A listed call fails and changes no file.
    fn put(&mut self, name: &str, bytes: &[u8]) -> Result<(), OutErr>
        ensures listed { (result ≡ Err OutErr.Failed) ↔ IsTrue (fails_next self.old.put_calls) }
        ensures counted { self.new.put_calls ≡ one_more self.old.put_calls }
        ensures kept { self.new
            ≡ record self.old { told = self.new.told; put_calls = self.new.put_calls } }

        ensures ok { OnOk result (self.new.told ≡ after_put self.old.told name.now bytes.now) }
        ensures err { OnErr result (self.new.told ≡ self.old.told) }
        ensures failed { result ≡ Err OutErr.Failed
            → Rose (faults_of self.old.put_calls) (faults_of self.new.put_calls) }
        ensures spoilt { (w : Told) → Some self.old.told ≡ Some w → result ≡ Err OutErr.Failed
            → (v : Told) × (Some self.new.told ≡ Some v) × Spoils w v name.now }
        ensures memory_faults { result ≡ Err OutErr.Memory
            → faults_of self.new.put_calls ≡ faults_of self.old.put_calls }
        ensures put_faults { faults_of self.old.put_calls ≤ faults_of self.new.put_calls }
    {
        if self.put_calls.next_fails() {
            return Err(OutErr::Failed);
        }
        let put = Put::of(self.alloc, name, bytes)?;
        let write = Put::of(self.alloc, name, bytes)?;
        self.puts.reserve(1)?;
        self.writes.push(write)?;
        self.puts.push(put).unwrap();
        Ok(())
    }
}

/// The bytes of the newest write of this name.
fn newest<'a>(writes: &'a [Put], name: &str) -> Option<&'a [u8]>
    ensures { MatchOption result (map.get (files_after (pairs_of writes.now)) name.now ≡ None)
        (λ file. map.get (files_after (pairs_of writes.now)) name.now ≡ Some file.now) }
{
    let mut found = None;
    for write in writes {
        if name == write.name.as_str() {
            found = Some(write.bytes.as_slice());
        }
    }
    found
}

/// Copies bytes of the file from an offset on, at most `most` of them, and says how many.
fn copy_from(file: &[u8], from: u64, most: usize, into: &mut [u8]) -> usize
    ensures amount { result ≡ min most (min (length into.old) (length file.now - from)) }
    ensures bytes { take result into.new ≡ take result (drop from file.now) }
{
    let start = file.len().min(from as usize);
    let rest = &file[start..];
    let n = rest.len().min(into.len()).min(most);
    into[..n].copy_from_slice(&rest[..n]);
    n
}
