//! A source with the window in front of it, where the next line is looked for.
ghost use Rattle.std.specs.Prelude.{◌≡◌, ◌≢◌, ◌+◌, ◌-◌, ◌^◌, ◌<◌, ◌≤◌, ◌⊎◌, [], false, true};
ghost use Rattle.std.specs.Prelude.{length, take, MatchOption, Ok, OnOk, OnErr, IfOk};
ghost use Rattle.reg_io.specs.Counts.{Rose};
ghost use Rattle.reg_io.specs.LineStates.{NextLine};
ghost use Rattle.reg_io.specs.LineReaders.{EndsSkip, HasNoLineFeed, IsFirstLineFeed, IsPart};
ghost use Rattle.reg_io.specs.LineReaders.{IsSound, LeavesRest, NextRaw, ReadsMore, ReadsOn, Shows};
ghost use Rattle.reg_io.specs.LineReaders.{TakesRaw, state_of};

use crate::device::Failed;
use crate::line::{LineFault, MOST_LINE_BYTES};
use crate::source::Source;
use crate::told_line::told_line;
use crate::window::{WINDOW_BYTES, Window};
use reg_base::Line;
use std::alloc::Global;

// A source, the bytes that were read and not yet given, how many may still be given, and whether
// the source told its end. It is not read again then, as it might fail behind its end.
#[derive(Drop)]
pub(crate) struct LineReader<S> {
    pub(crate) source: S,
    pub(crate) window: Window,
    pub(crate) room: u64,
    pub(crate) ended: bool,
}

// What the window shows of the next line.
#[derive(Clone, Copy)]
pub(crate) enum Look {
    /// Its line reader stands behind so many bytes.
    Line { len: usize },
    /// More bytes than may be given, and no line reader among those that may.
    Past,
    /// A part without line reader, and the source told its end.
    Ended,
    /// A part without line reader that may go on.
    Open,
}

impl<S> LineReader<S> {
    // The source alone.
    pub(crate) fn into_source(self) -> S
        ensures { result ≡ self.source }
    {
        let LineReader {
            source,
            window: _,
            room: _,
            ended: _,
        } = self;
        source
    }
}

impl<S: Source> LineReader<S> {
    // Reads once: at most one byte more than may be given, so that a longer input is seen.
    fn read_more(&mut self) -> Result<(), Failed>
        requires within { length self.old.window ≤ self.old.room }
        requires free { length self.old.window < WINDOW_BYTES }
        requires not_ended { self.old.ended ≡ false }
        ensures more { ReadsMore S.left self.old self.new }
        ensures bound { length self.new.window ≤ self.new.room + 1 }
        ensures goes { OnOk result ((self.new.ended ≡ true)
            ⊎ (length self.old.window < length self.new.window)) }
        ensures err { OnErr result ((length self.new.window ≡ length self.old.window)
            × (self.new.ended ≡ false)) }
        ensures cause { OnErr result (Rose (S.read_faults self.old.source)
            (S.read_faults self.new.source)) }
        ensures rest { LeavesRest S.taken S.read_faults S.write_faults S.borrow_name
            self.old.source self.new.source }
    {
        let len = self.window.as_slice().len() as u64;
        let most = (self.room - len).saturating_add(1);
        let count = self.window.fill(&mut self.source, most as usize)?;
        if count == 0 {
            self.ended = true;
        }
        Ok(())
    }

    // What the window shows, of which the first `scanned` bytes are no line reader.
    fn look(&self, scanned: usize) -> Look
        requires within { scanned ≤ length self.now.window }
        requires room { scanned ≤ self.now.room }
        requires scanned { HasNoLineFeed (take scanned self.now.window) }
        ensures { Shows self.now result }
    {
        let bytes = self.window.as_slice();
        let limit = (bytes.len() as u64).min(self.room) as usize;
        if let Some(place) = find_line_feed(&bytes[scanned..limit]) {
            return Look::Line {
                len: scanned + place,
            };
        }
        if self.room < bytes.len() as u64 {
            Look::Past
        } else if self.ended {
            Look::Ended
        } else {
            Look::Open
        }
    }

    // Reads until the window shows the next line, or a part that is too long for one.
    fn find_line(&mut self) -> Result<Look, Failed>
        requires sound { IsSound S.left self.old }
        ensures on { ReadsOn S.left self.old self.new }
        ensures shows { IfOk result (Shows self.new) }
        ensures long { result ≡ Ok Look.Open → MOST_LINE_BYTES < length self.new.window }
        ensures err { OnErr result (Shows self.new Look.Open) }
        ensures cause { OnErr result (Rose (S.read_faults self.old.source)
            (S.read_faults self.new.source)) }
        ensures rest { LeavesRest S.taken S.read_faults S.write_faults S.borrow_name
            self.old.source self.new.source }
    {
        let mut scanned = 0;
        'reads: loop {
            match self.look(scanned) {
                Look::Open => {}
                look => return Ok(look),
            }
            scanned = self.window.as_slice().len();
            if scanned as u64 > MOST_LINE_BYTES {
                return Ok(Look::Open);
            }
            if self.read_more().is_err() {
                return Err(Failed);
            }
        }
    }

    // Takes the line whose line reader stands behind so many bytes.
    fn take_whole(&mut self, len: usize)
        requires { Shows self.old (Look.Line len) }
        ensures taken { TakesRaw S.left self.old self.new
            (record { content = take len self.old.window; ended = true }) }
        ensures source { self.new.source ≡ self.old.source }
        ensures ended { self.new.ended ≡ self.old.ended }
    {
        let _bound = self.window.as_slice();
        self.window.drop_front(len + 1);
        self.room -= len as u64 + 1;
    }

    // Takes the part that is the last line, and tells how many bytes it has.
    fn take_rest(&mut self) -> usize
        requires sound { IsSound S.left self.old }
        requires shows { Shows self.old Look.Ended }
        ensures taken { TakesRaw S.left self.old self.new
            (record { content = self.old.window; ended = false }) }
        ensures len { result ≡ length self.old.window }
        ensures source { self.new.source ≡ self.old.source }
        ensures ended { self.new.ended ≡ self.old.ended }
    {
        let len = self.window.as_slice().len();
        self.window.drop_front(len);
        self.room -= len as u64;
        len
    }

    // Gives the line whose line reader stands behind so many bytes.
    fn give_whole(&mut self, alloc: Global, len: usize) -> Result<Option<Line>, LineFault>
        requires { Shows self.old (Look.Line len) }
        ensures next { NextRaw S.left S.read_faults
            (state_of self.old) (state_of self.new) result }
        ensures source { self.new.source ≡ self.old.source }
        ensures ended { self.new.ended ≡ self.old.ended }
    {
        let line = told_line(alloc, &self.window.as_slice()[..len], true)?;
        self.take_whole(len);
        Ok(Some(line))
    }

    // Gives the part that is the last line, or tells the end where it is empty.
    fn give_rest(&mut self, alloc: Global) -> Result<Option<Line>, LineFault>
        requires sound { IsSound S.left self.old }
        requires shows { Shows self.old Look.Ended }
        ensures next { NextRaw S.left S.read_faults
            (state_of self.old) (state_of self.new) result }
        ensures source { self.new.source ≡ self.old.source }
        ensures ended { self.new.ended ≡ self.old.ended }
    {
        let content = self.window.as_slice();
        if content.is_empty() {
            return Ok(None);
        }
        let line = told_line(alloc, content, false)?;
        self.take_rest();
        Ok(Some(line))
    }

    // Passes over all bytes of the window.
    fn pass_all(&mut self)
        requires { length self.old.window ≤ self.old.room }
        ensures window { self.new.window ≡ [] }
        ensures room { self.old.room ≡ length self.old.window + self.new.room }
        ensures source { self.new.source ≡ self.old.source }
        ensures ended { self.new.ended ≡ self.old.ended }
    {
        let len = self.window.as_slice().len();
        self.window.drop_front(len);
        self.room -= len as u64;
    }

    // The end of a line of which so many bytes were skipped.
    fn end_skip(&mut self, skipped: u64, look: Look) -> Result<Option<Line>, LineFault>
        requires sound { IsSound S.left self.old }
        requires shows { Shows self.old look }
        requires settled { look ≢ Look.Open }
        requires fits { skipped + self.old.room < 2 ^ 64 }
        ensures ends { EndsSkip S.left self.old self.new skipped result }
        ensures source { self.new.source ≡ self.old.source }
        ensures ended { self.new.ended ≡ self.old.ended }
    {
        let len = match look {
            Look::Line { len } => {
                self.take_whole(len);
                return Ok(Some(Line::TooLong {
                    bytes: skipped + len as u64,
                }));
            }
            Look::Past => return Err(LineFault::InputTooLong),
            Look::Ended => self.take_rest(),
            Look::Open => unreachable!(),
        };
        Ok(Some(Line::TooLong {
            bytes: skipped + len as u64,
        }))
    }

    // Skips a line that is too long, and tells its length.
    fn skip_line(&mut self) -> Result<Option<Line>, LineFault>
        requires sound { IsSound S.left self.old }
        requires shows { Shows self.old Look.Open }
        requires long { MOST_LINE_BYTES < length self.old.window }
        ensures next { NextRaw S.left S.read_faults
            (state_of self.old) (state_of self.new) result }
        ensures sound { IsSound S.left self.new }
        ensures rest { LeavesRest S.taken S.read_faults S.write_faults S.borrow_name
            self.old.source self.new.source }
    {
        let start = self.room;
        'parts: loop {
            self.pass_all();
            match self.read_more() {
                Ok(()) => {}
                Err(Failed) => return Err(LineFault::Read),
            }
            match self.look(0) {
                Look::Open => {}
                look => return self.end_skip(start - self.room, look),
            }
        }
    }

    // The line that the window shows, or why there is none.
    fn answer(&mut self, alloc: Global, look: Look) -> Result<Option<Line>, LineFault>
        requires sound { IsSound S.left self.old }
        requires shows { Shows self.old look }
        requires long { look ≡ Look.Open → MOST_LINE_BYTES < length self.old.window }
        ensures next { NextRaw S.left S.read_faults
            (state_of self.old) (state_of self.new) result }
        ensures sound { IsSound S.left self.new }
        ensures rest { LeavesRest S.taken S.read_faults S.write_faults S.borrow_name
            self.old.source self.new.source }
    {
        match look {
            Look::Line { len } => self.give_whole(alloc, len),
            Look::Past => Err(LineFault::InputTooLong),
            Look::Ended => self.give_rest(alloc),
            Look::Open => self.skip_line(),
        }
    }

    // The next line, or why there is none.
    pub(crate) fn next_line(&mut self, alloc: Global) -> Result<Option<Line>, LineFault>
        requires sound { IsSound S.left self.old }
        ensures next { NextLine S.left S.read_faults
            (state_of self.old) (state_of self.new) result }
        ensures sound { IsSound S.left self.new }
        ensures rest { LeavesRest S.taken S.read_faults S.write_faults S.borrow_name
            self.old.source self.new.source }
    {
        match self.find_line() {
            Ok(look) => self.answer(alloc, look),
            Err(Failed) => Err(LineFault::Read),
        }
    }
}

// The place of the first line reader.
fn find_line_feed(bytes: &[u8]) -> Option<usize>
    ensures { MatchOption result (HasNoLineFeed bytes.now) (IsFirstLineFeed bytes.now) }
{
    for (place, byte) in bytes.iter().enumerate() {
        if *byte == b'\n' {
            return Some(place);
        }
    }
    None
}
