//! Lines of a source, one after another.
ghost use Rattle.std.specs.Prelude.{◌≡◌, ◌≤◌, [], false, None, IfOk, IfSome, Err};
ghost use Rattle.reg_io.specs.Counts.{LeavesSide};
ghost use Rattle.reg_io.specs.LineStates.{NextLine, lasting_fault, lasting_of};

use crate::line::LineFault;
use crate::line_reader::LineReader;
use crate::source::Source;
use crate::window::Window;
use reg_base::{Line, Memory};
use std::alloc::Global;
use std::marker::Model;

/// The lines of a source, up to a number of bytes.
#[derive(Drop)]
pub struct Lines<S: Source> {
    alloc: Global,
    reader: LineReader<S>,
    fault: Option<LineFault>,
}

impl<S: Source> Model for Lines<S> {
    ghost use Rattle.std.specs.Prelude.{◌≡◌, true};
    ghost use Rattle.std.specs.Io.KnownBytes.{IsAtEnd};
    ghost use Rattle.reg_io.specs.LineStates.{LinesState};

    ghost Value = { LinesState S };

    ghost view = { λ l. record {
      source = l.reader.source;
      pending = l.reader.window;
      room = l.reader.room;
      ended = l.reader.ended;
      fault = l.fault;
    } };

    ghost invariant = { λ l. l.reader.ended ≡ true → IsAtEnd (S.left l.reader.source) };
}

impl<S: Source + Drop> Lines<S> {
    /// The lines of a source, of which at most `most` bytes are given.
    pub fn new(alloc: Global, source: S, most: u64) -> Result<Lines<S>, Memory>
        ensures { IfOk result (λ lines. lines ≡ record {
          source = source;
          pending = [];
          room = most;
          ended = false;
          fault = None;
        }) }
    {
        let window = Window::new(alloc)?;
        let reader = LineReader {
            source,
            window,
            room: most,
            ended: false,
        };
        Ok(Lines {
            alloc,
            reader,
            fault: None,
        })
    }
}

impl<S: Source> Lines<S> {
    /// The next line, or `None` at the end of the input. A line that is too long is skipped and
    /// told with its length. After a fault other than `Memory` each later call answers the same.
    pub fn next_line(&mut self) -> Result<Option<Line>, LineFault>
        ensures next { self.old.fault ≡ None
            → NextLine S.left S.read_faults self.old self.new result }

        // A fault stays, and nothing moves after it.
        ensures again { IfSome self.old.fault (λ fault. result ≡ Err fault) }
        ensures stays { IfSome self.old.fault (λ _. self.new ≡ self.old) }
        ensures fault { self.old.fault ≡ None → self.new.fault ≡ lasting_fault result }

        ensures later { S.read_faults self.old.source ≤ S.read_faults self.new.source }
        ensures others { LeavesSide (S.taken self.old.source) (S.taken self.new.source)
            (S.write_faults self.old.source) (S.write_faults self.new.source) }
        ensures same { S.borrow_name self.new.source ≡ S.borrow_name self.old.source }
    {
        if let Some(fault) = self.fault {
            return Err(fault);
        }
        match self.reader.next_line(self.alloc) {
            Ok(line) => Ok(line),
            Err(fault) => {
                self.fault = lasting(fault);
                Err(fault)
            }
        }
    }

    /// The source, from which more bytes may have been read than were given.
    pub fn into_source(self) -> S
        ensures { result ≡ self.source }
    {
        let Lines {
            alloc: _,
            reader,
            fault: _,
        } = self;
        reader.into_source()
    }
}

// The fault that each later call answers, where one does.
fn lasting(fault: LineFault) -> Option<LineFault>
    ensures { result ≡ lasting_of fault }
{
    match fault {
        LineFault::Read => Some(LineFault::Read),
        LineFault::InputTooLong => Some(LineFault::InputTooLong),
        LineFault::Memory => None,
    }
}
