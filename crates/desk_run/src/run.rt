//! The run of a desk: each line of an input is answered before the next is read.
ghost use Rattle.std.specs.Prelude.{◌≡◌, ◌≤◌, None, OnSome, false};
ghost use Rattle.reg_io.specs.LineStates.{ahead};
ghost use Rattle.desk_core.specs.Histories.{Holds, IsReady};
ghost use Rattle.desk_run.specs.Runs.{Runs, streams_of};
ghost use Rattle.desk_run.specs.declared.run.RunEnd.TheVariants.{Memory, Write};
ghost use Rattle.desk_run.specs.AnsweredLines.{Answered, end_of, run_end};

use desk_core::{Desk, StepEnd, answer_line};
use post_journal::Journal;
use reg_base::Memory;
use reg_io::{Disk, Line, LineFault, Lines, Sink, SinkFault, Source, write_all};
use std::alloc::Global;

/// How many bytes an input has at the most.
pub const MOST_INPUT_BYTES: u64 = 4_294_967_296;

/// Why a run ended before its input was answered whole.
#[derive(Clone, Copy, Debug, PartialEq, Eq)]
pub enum RunEnd {
    /// Memory was refused.
    Memory,
    /// A call of the disk failed, and the journal has to be opened again.
    Disk,
    /// A read of the input failed.
    Read,
    /// A write to the output failed.
    Write,
    /// The input has more than `MOST_INPUT_BYTES` bytes.
    InputTooLong,
}

/// Answers the lines of the input, one after another. What a line changes is in the journal before
/// its reply is written, and each reply is written whole before the next line is read.
pub fn run_lines<D: Disk, S: Source, O: Sink>(
    alloc: Global,
    desk: &mut Desk,
    journal: &mut Journal,
    disk: &mut D,
    input: &mut S,
    out: &mut O,
) -> Result<(), RunEnd>
    requires going { desk.old.stopped ≡ false }
    requires holds { Holds desk.old.desk journal.old (D.state disk.old) }
    ensures runs { Runs desk.old.desk desk.new.desk
        (streams_of S.left S.read_faults O.taken O.write_faults input.old out.old)
        (streams_of S.left S.read_faults O.taken O.write_faults input.new out.new)
        (D.state disk.old) (D.state disk.new) (D.faults disk.old) (D.faults disk.new) result }
    ensures ready { IsReady desk.new journal.new (D.state disk.new) }
    ensures later { D.faults disk.old ≤ D.faults disk.new }
    ensures same { D.borrow_name disk.new ≡ D.borrow_name disk.old }
{
    let mut lines = Lines::new(alloc, input, MOST_INPUT_BYTES)?;
    let ran = answer_lines(alloc, desk, journal, disk, &mut lines, out);
    let _input = lines.into_source();
    ran
}

// Answers the lines that the reader gives, from its start on.
fn answer_lines<D: Disk, S: Source, O: Sink>(
    alloc: Global,
    desk: &mut Desk,
    journal: &mut Journal,
    disk: &mut D,
    lines: &mut Lines<S>,
    out: &mut O,
) -> Result<(), RunEnd>
    requires fresh { (lines.old.fault ≡ None) × (lines.old.room ≡ MOST_INPUT_BYTES) }
    requires going { desk.old.stopped ≡ false }
    requires holds { Holds desk.old.desk journal.old (D.state disk.old) }
    ensures runs { Runs desk.old.desk desk.new.desk
        (record (streams_of S.left S.read_faults O.taken O.write_faults lines.old.source out.old)
        { left = ahead S.left lines.old })
        (streams_of S.left S.read_faults O.taken O.write_faults lines.new.source out.new)
        (D.state disk.old) (D.state disk.new) (D.faults disk.old) (D.faults disk.new) result }
    ensures ready { IsReady desk.new journal.new (D.state disk.new) }
    ensures later { D.faults disk.old ≤ D.faults disk.new }
    ensures disk_same { D.borrow_name disk.new ≡ D.borrow_name disk.old }
    ensures same { S.borrow_name lines.new.source ≡ S.borrow_name lines.old.source }
{
    'answered: while let Some(line) = lines.next_line()? {
        answer(alloc, desk, journal, disk, line, out)?;
    }
    Ok(())
}

// Answers one line: its reply is written whole, in one call.
fn answer<D: Disk, O: Sink>(
    alloc: Global,
    desk: &mut Desk,
    journal: &mut Journal,
    disk: &mut D,
    line: Line,
    out: &mut O,
) -> Result<(), RunEnd>
    requires going { desk.old.stopped ≡ false }
    requires holds { Holds desk.old.desk journal.old (D.state disk.old) }
    ensures answered { Answered desk.old desk.new line (O.taken out.old) (O.taken out.new)
        (O.write_faults out.old) (O.write_faults out.new)
        (D.state disk.old) (D.state disk.new) (D.faults disk.old) (D.faults disk.new) result }
    ensures ready { IsReady desk.new journal.new (D.state disk.new) }
    ensures later { O.write_faults out.old ≤ O.write_faults out.new }
    ensures disk_later { D.faults disk.old ≤ D.faults disk.new }
    ensures same { D.borrow_name disk.new ≡ D.borrow_name disk.old }
{
    let Some(reply) = answer_line(alloc, desk, journal, disk, &line)? else {
        return Ok(());
    };
    write_all(out, reply.as_slice())?;
    Ok(())
}

impl From<Memory> for RunEnd {
    ghost from_gives = { λ _ e. e ≡ Memory };

    fn from(_refused: Memory) -> RunEnd {
        RunEnd::Memory
    }
}

impl From<StepEnd> for RunEnd {
    ghost from_gives = { λ end e. e ≡ run_end end };

    fn from(end: StepEnd) -> RunEnd {
        match end {
            StepEnd::Memory => RunEnd::Memory,
            StepEnd::DiskFault => RunEnd::Disk,
            StepEnd::Closed => RunEnd::Disk,
        }
    }
}

impl From<SinkFault> for RunEnd {
    ghost from_gives = { λ _ e. e ≡ Write };

    fn from(_fault: SinkFault) -> RunEnd {
        RunEnd::Write
    }
}

impl From<LineFault> for RunEnd {
    ghost from_gives = { λ fault e. e ≡ end_of fault };

    fn from(fault: LineFault) -> RunEnd {
        match fault {
            LineFault::Memory => RunEnd::Memory,
            LineFault::Read => RunEnd::Read,
            LineFault::InputTooLong => RunEnd::InputTooLong,
        }
    }
}
