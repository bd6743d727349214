//! Sources in memory: one that never fails, and one whose calls fail by a list.
ghost use Rattle.std.specs.Prelude.{◌≡◌, ◌<◌, ◌≤◌, [], Some, OnOk, drop, is_err, length, take};
ghost use Rattle.std.specs.Io.{ReadsAtMost};
ghost use Rattle.std.specs.Io.KnownBytes.{ReadConsumes};
ghost use Rattle.reg_io.specs.Counts.{HasCause};
ghost use Rattle.reg_io.specs.FailingCalls.{fails_next, next_call};

use crate::device::{Device, Failed};
use crate::failing_calls::FailingCalls;
use crate::source::Source;
use reg_base::List;
use std::marker::Model;

/// Bytes in memory, seen as those that are left. One read gives a chunk of them at the most.
#[derive(Debug, Drop)]
pub struct MemorySource {
    bytes: List<u8>,
    place: usize,
    chunk: usize,
}

impl Model for MemorySource {
    ghost use Rattle.std.specs.Prelude.{ℕ, List, ◌≤◌, ◌<◌, drop, length};

    ghost Value = { List ℕ };

    ghost view = { λ s. drop s.place s.bytes };

    ghost invariant = { λ s. (s.place ≤ length s.bytes) × (0 < s.chunk) };
}

impl MemorySource {
    /// A source of these bytes, of which one read gives `chunk` at the most.
    pub fn new(bytes: List<u8>, chunk: usize) -> MemorySource
        requires { 0 < chunk }
        ensures { result ≡ bytes }
    {
        MemorySource {
            bytes,
            place: 0,
            chunk,
        }
    }

    // Copies the next bytes into the front of the room.
    fn give(&mut self, into: &mut [u8]) -> usize
        ensures bound { result ≤ length into.new }
        ensures given { take result into.new ≡ take result self.old }
        ensures left { self.new ≡ drop result self.old }
        ensures within { result ≤ length self.old }
        ensures some { result ≡ 0 → 0 < length into.old → self.old ≡ [] }
    {
        let left = &self.bytes.as_slice()[self.place..];
        let count = left.len().min(into.len()).min(self.chunk);
        into[..count].copy_from_slice(&left[..count]);
        self.place += count;
        count
    }
}

impl Device for MemorySource {
    ghost left = { λ s. Some s };
}

impl Source for MemorySource {
    fn read(&mut self, into: &mut [u8]) -> Result<usize, Failed> {
        Ok(self.give(into))
    }
}

/// The same with calls that fail, each of which counts as a fault.
#[derive(Debug, Drop)]
pub struct FailingSource {
    pub source: MemorySource,
    pub failing: FailingCalls,
    pub faults: u64,
}

impl FailingSource {
    pub fn new(source: MemorySource, failing: FailingCalls) -> FailingSource
        ensures source { result.source ≡ source }
        ensures failing { result.failing ≡ failing }
        ensures faults { result.faults ≡ 0 }
    {
        FailingSource {
            source,
            failing,
            faults: 0,
        }
    }
}

impl Device for FailingSource {
    ghost left = { λ s. Some s.source };

    ghost read_faults = { λ s. s.faults };
}

impl Source for FailingSource {
    fn read(&mut self, into: &mut [u8]) -> Result<usize, Failed>
        ensures bound { ReadsAtMost result into.new }
        ensures bytes { ReadConsumes (Some self.old.source) (Some self.new.source)
            result into.new }

        // It fails exactly at the calls that are listed, and its count rises there alone.
        ensures listed { is_err result ≡ fails_next self.old.failing }
        ensures next { self.new.failing ≡ next_call self.old.failing }
        ensures cause { HasCause self.old.faults self.new.faults result }
        ensures counts { OnOk result (self.new.faults ≡ self.old.faults) }
    {
        if self.failing.next_fails() {
            self.faults = self.faults.saturating_add(1);
            return Err(Failed);
        }
        self.source.read(into)
    }
}
