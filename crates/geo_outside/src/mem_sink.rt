//! A sink in memory, for tests.
ghost use Rattle.std.specs.Prelude.{◌≡◌, ◌++◌, ◌+◌, ◌≤◌, ◌↔◌, [], IsTrue, OnOk, OnErr};
ghost use Rattle.geo_outside.specs.Script.{fails_next, faults_of, one_more};

use crate::calls::Calls;
use crate::folder::OutErr;
use crate::sink::Sink;
use std::alloc::Global;
use std::marker::Model;

/// A sink that keeps what is written and tells it.
#[derive(Debug, Drop)]
pub struct MemSink {
    written: Vec<u8>,
    calls: Calls,
}

impl Model for MemSink {
    ghost use Rattle.geo_outside.specs.Script.{FakeSink};

    ghost Value = { FakeSink };

    ghost view = { λ s. record { written = s.written.items; calls = s.calls } };
}

impl MemSink {
    /// An empty sink. `fail_writes` has the numbers, from 1, of the writes that are to fail.
    pub fn new(alloc: Global, fail_writes: Vec<u64>) -> MemSink
        ensures { result
            ≡ record { written = []; calls = record { listed = fail_writes.items; made = 0 } } }
    {
        MemSink {
            written: Vec::new(alloc),
            calls: Calls::new(fail_writes),
        }
    }

    /// What was written so far.
    pub fn written(&self) -> &[u8]
        ensures { result.now ≡ self.now.written }
    {
        self.written.as_slice()
    }
}

impl Sink for MemSink {
    ghost use Rattle.std.specs.Prelude.{Some};

    ghost written = { λ s. Some s.written };

    ghost faults = { λ s. faults_of s.calls };

    /// A listed call fails before it writes anything.
    fn write_all(&mut self, piece: &[u8]) -> Result<(), OutErr>
        ensures listed { (result ≡ Err OutErr.Failed) ↔ IsTrue (fails_next self.old.calls) }
        ensures counted { self.new.calls ≡ one_more self.old.calls }
        ensures appended { OnOk result (self.new.written ≡ self.old.written ++ piece.now) }
        ensures refused { OnErr result (self.new.written ≡ self.old.written) }
        ensures failed { result ≡ Err OutErr.Failed
            → faults_of self.new.calls ≡ faults_of self.old.calls + 1 }
        ensures memory_faults { result ≡ Err OutErr.Memory
            → faults_of self.new.calls ≡ faults_of self.old.calls }
        ensures faults { faults_of self.old.calls ≤ faults_of self.new.calls }
    {
        if self.calls.next_fails() {
            return Err(OutErr::Failed);
        }
        self.written.extend_from_slice(piece)?;
        Ok(())
    }
}
