//! Bytes that were read and not yet given, in a buffer whose length never changes.
//!
//! ```text
//! | given | here | free |
//! 0     start   end     WINDOW_BYTES
//! ```
//!
//! A read puts bytes behind the end. Where nothing is free there, the bytes here move to the front
//! first. As a line has at most half of the buffer, at least as many bytes were read since the
//! last such move as now move, so that all moves together cost no more than the reads.
ghost use Rattle.std.specs.Prelude.{◌≡◌, ◌+◌, ◌-◌, ◌<◌, ◌≤◌, [], drop, length, take, slice_range};
ghost use Rattle.std.specs.Prelude.{IfOk, Ok, MatchResult, vec_len};
ghost use Rattle.std.specs.Io.{WritesAtMost};
ghost use Rattle.std.specs.Io.KnownBytes.{ReadConsumes};
ghost use Rattle.reg_io.specs.Counts.{HasCause, LeavesSide};
ghost use Rattle.reg_io.specs.Windows.{Fills};

use crate::device::Failed;
use crate::source::Source;
use std::alloc::{AllocError, Global};
use std::marker::Model;

// How many bytes the buffer has: twice those of the longest line that is told.
pub(crate) const WINDOW_BYTES: usize = 2_097_152;

// Bytes that were read, seen as those not yet given.
#[derive(Drop)]
pub(crate) struct Window {
    buffer: Vec<u8>,
    start: usize,
    end: usize,
}

impl Model for Window {
    ghost use Rattle.std.specs.Prelude.{◌≡◌, ◌≤◌, ℕ, List, slice_range, vec_len};
    ghost use Rattle.reg_io.specs.declared.window.TheConstants.{WINDOW_BYTES};

    ghost Value = { List ℕ };

    ghost view = { λ w. slice_range w.buffer.items w.start w.end };

    ghost invariant = { λ w. (w.start ≤ w.end) × (w.end ≤ WINDOW_BYTES)
        × (vec_len w.buffer ≡ WINDOW_BYTES) };
}

impl Window {
    // A window without bytes.
    pub(crate) fn new(alloc: Global) -> Result<Window, AllocError>
        ensures { IfOk result (λ w. w ≡ []) }
    {
        let buffer = zeros(alloc, WINDOW_BYTES)?;
        Ok(Window {
            buffer,
            start: 0,
            end: 0,
        })
    }

    pub(crate) fn as_slice(&self) -> &[u8]
        ensures value { result.now ≡ self.now }
        ensures bound { length self.now ≤ WINDOW_BYTES }
    {
        &self.buffer[self.start..self.end]
    }

    // Gives away the first bytes.
    pub(crate) fn drop_front(&mut self, count: usize)
        requires { count ≤ length self.old }
        ensures { self.new ≡ drop count self.old }
    {
        self.start += count;
    }

    // Reads once, and puts at most `most` bytes behind those here.
    pub(crate) fn fill<S: Source>(&mut self, source: &mut S, most: usize) -> Result<usize, Failed>
        requires some { 0 < most }
        requires free { length self.old < WINDOW_BYTES }
        ensures bytes { Fills (S.left source.old) (S.left source.new)
            self.old self.new most result }
        ensures cause { HasCause (S.read_faults source.old) (S.read_faults source.new) result }
        ensures others { LeavesSide (S.taken source.old) (S.taken source.new)
            (S.write_faults source.old) (S.write_faults source.new) }
        ensures same { S.borrow_name source.new ≡ S.borrow_name source.old }
    {
        let buffer = self.buffer.as_mut_slice();
        refill(source, buffer, &mut self.start, &mut self.end, most)
    }
}

fn zeros(alloc: Global, len: usize) -> Result<Vec<u8>, AllocError>
    ensures { IfOk result (λ v. vec_len v ≡ len) }
{
    vec![in alloc; 0; len]
}

// Moves the bytes to the front where nothing is free behind them, and gives their new start.
fn pack(buffer: &mut [u8], start: usize, end: usize) -> usize
    requires ordered { start ≤ end }
    requires within { end ≤ length buffer.old }
    ensures same { slice_range buffer.new result (result + (end - start))
        ≡ slice_range buffer.old start end }
    ensures bound { result + (end - start) ≤ length buffer.old }
    ensures free { end - start < length buffer.old
        → result + (end - start) < length buffer.old }
{
    if end < buffer.len() {
        return start;
    }
    buffer.copy_within(start..end, 0);
    0
}

// ReadsFile once behind the bytes from `start` to `end`, at most `most` bytes.
fn refill<S: Source>(
    source: &mut S,
    buffer: &mut [u8],
    start: &mut usize,
    end: &mut usize,
    most: usize,
) -> Result<usize, Failed>
    requires some { 0 < most }
    requires ordered { start.old ≤ end.old }
    requires within { end.old ≤ length buffer.old }
    requires free { end.old - start.old < length buffer.old }
    ensures bytes { Fills (S.left source.old) (S.left source.new)
        (slice_range buffer.old start.old end.old) (slice_range buffer.new start.new end.new)
        most result }
    ensures place { (start.new ≤ end.new) × (end.new ≤ length buffer.old) }
    ensures cause { HasCause (S.read_faults source.old) (S.read_faults source.new) result }
    ensures others { LeavesSide (S.taken source.old) (S.taken source.new)
        (S.write_faults source.old) (S.write_faults source.new) }
    ensures same { S.borrow_name source.new ≡ S.borrow_name source.old }
{
    let len = *end - *start;
    *start = pack(buffer, *start, *end);
    *end = *start + len;
    match read_at(source, buffer, *end, most) {
        Ok(count) => {
            *end += count;
            Ok(count)
        }
        Err(Failed) => Err(Failed),
    }
}

// ReadsFile once into the part of the buffer from `end` on, at most `most` bytes.
fn read_at<S: Source>(
    source: &mut S,
    buffer: &mut [u8],
    end: usize,
    most: usize,
) -> Result<usize, Failed>
    requires some { 0 < most }
    requires free { end < length buffer.old }
    ensures front { take end buffer.new ≡ take end buffer.old }
    ensures bound { WritesAtMost result (drop end buffer.new) }
    ensures within { IfOk result (λ count. count ≤ most) }
    ensures bytes { ReadConsumes (S.left source.old) (S.left source.new) result
        (drop end buffer.new) }
    ensures cause { HasCause (S.read_faults source.old) (S.read_faults source.new) result }
    ensures others { LeavesSide (S.taken source.old) (S.taken source.new)
        (S.write_faults source.old) (S.write_faults source.new) }
    ensures same { S.borrow_name source.new ≡ S.borrow_name source.old }
{
    let room = (buffer.len() - end).min(most);
    source.read(&mut buffer[end..end + room])
}
