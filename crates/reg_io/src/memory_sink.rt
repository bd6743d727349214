//! Sinks in memory: one that fails only where it can't grow, and one whose calls fail by a list.
ghost use Rattle.std.specs.Prelude.{◌≡◌, ◌<◌, [], true, Some, Ok, IsErr, length};
ghost use Rattle.std.specs.Io.{WritesAtMost};
ghost use Rattle.std.specs.Io.KnownBytes.{WriteAppends};
ghost use Rattle.reg_io.specs.Counts.{HasCause};
ghost use Rattle.reg_io.specs.FailingCalls.{fails_next, next_call};

use crate::device::{Device, Failed};
use crate::failing_calls::FailingCalls;
use crate::sink::Sink;
use std::alloc::Global;

/// Bytes in memory. One write takes `most` of a piece, and fails where memory is refused.
#[derive(Debug, Drop)]
pub struct MemorySink {
    pub bytes: Vec<u8>,
    pub faults: u64,
    most: usize,
    ghost takes_some: { 0 < most },
}

impl MemorySink {
    pub fn new(alloc: Global, most: usize) -> MemorySink
        requires { 0 < most }
        ensures bytes { result.bytes.items ≡ [] }
        ensures faults { result.faults ≡ 0 }
    {
        MemorySink {
            bytes: Vec::new(alloc),
            faults: 0,
            most,
        }
    }
}

impl Device for MemorySink {
    ghost taken = { λ s. Some s.bytes.items };

    ghost write_faults = { λ s. s.faults };
}

impl Sink for MemorySink {
    fn write(&mut self, bytes: &[u8]) -> Result<usize, Failed>
        ensures bound { WritesAtMost result bytes.now }
        ensures bytes { WriteAppends (Some self.old.bytes.items) (Some self.new.bytes.items)
            result bytes.now }
        ensures some { result ≡ Ok 0 → 0 < length bytes.now → ⊥ }
        ensures cause { HasCause self.old.faults self.new.faults result }
    {
        let count = bytes.len().min(self.most);
        if self.bytes.extend_from_slice(&bytes[..count]).is_err() {
            self.faults = self.faults.saturating_add(1);
            return Err(Failed);
        }
        Ok(count)
    }
}

/// The same with calls that fail, each of which counts as a fault.
#[derive(Debug, Drop)]
pub struct FailingSink {
    pub sink: MemorySink,
    pub failing: FailingCalls,
}

impl FailingSink {
    pub fn new(sink: MemorySink, failing: FailingCalls) -> FailingSink
        ensures sink { result.sink ≡ sink }
        ensures failing { result.failing ≡ failing }
    {
        FailingSink { sink, failing }
    }
}

impl Device for FailingSink {
    ghost taken = { λ s. Some s.sink.bytes.items };

    ghost write_faults = { λ s. s.sink.faults };
}

impl Sink for FailingSink {
    fn write(&mut self, bytes: &[u8]) -> Result<usize, Failed>
        ensures bound { WritesAtMost result bytes.now }
        ensures bytes { WriteAppends (Some self.old.sink.bytes.items)
            (Some self.new.sink.bytes.items) result bytes.now }
        ensures some { result ≡ Ok 0 → 0 < length bytes.now → ⊥ }

        // It fails at the calls that are listed, and at others only where memory is refused.
        ensures listed { fails_next self.old.failing ≡ true → IsErr result }
        ensures next { self.new.failing ≡ next_call self.old.failing }
        ensures cause { HasCause self.old.sink.faults self.new.sink.faults result }
    {
        if self.failing.next_fails() {
            self.sink.faults = self.sink.faults.saturating_add(1);
            return Err(Failed);
        }
        self.sink.write(bytes)
    }
}
