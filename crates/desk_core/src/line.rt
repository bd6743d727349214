//! One line in, the bytes of its answer out.
ghost use Rattle.std.specs.Prelude.{◌≡◌, ◌≤◌, ◌==◌, ◌||◌, false};
ghost use Rattle.std.specs.List.{list_all};
ghost use Rattle.desk_words.specs.WellFormed.{IsRequest};
ghost use Rattle.desk_words.specs.ReplyTexts.{RefusalHasScales};
ghost use Rattle.desk_model.specs.Answers.{event_of_request, is_blank_line, line_event};
ghost use Rattle.desk_core.specs.Histories.{Holds, IsReady, IsUntouched};
ghost use Rattle.desk_core.specs.Lines.{IsRefusedText, LineEnds, TextEnds};

use crate::clerks::{clerk_of, is_batch};
use crate::desk::{Desk, StepEnd};
use crate::outcome::reply_line;
use crate::serving::Replied;
use desk_words::{Refusal, Reply, Request, WordFault};
use post_journal::Journal;
use reg_base::Line;
use reg_io::Disk;
use std::alloc::Global;

/// Answers a line: the bytes of its reply with a line feed, or nothing for a blank line. What it
/// changes is in the journal before it is answered. A desk that a fault of the disk has stopped
/// answers blank lines alone.
pub fn answer_line<D: Disk>(
    alloc: Global,
    desk: &mut Desk,
    journal: &mut Journal,
    disk: &mut D,
    line: &Line,
) -> Result<Option<Vec<u8>>, StepEnd>
    requires ready { IsReady desk.old journal.old (D.state disk.old) }
    ensures ends { LineEnds desk.old desk.new line.now (D.state disk.old) (D.state disk.new)
        (D.faults disk.old) (D.faults disk.new) result }
    ensures ready { IsReady desk.new journal.new (D.state disk.new) }

    // Nothing was written where memory was refused, or the desk was stopped before.
    ensures untouched { IsUntouched result disk.old disk.new }
    ensures later { D.faults disk.old ≤ D.faults disk.new }
    ensures same { D.borrow_name disk.new ≡ D.borrow_name disk.old }
{
    if is_blank(line) {
        return Ok(None);
    }
    if desk.is_stopped() {
        return Err(StepEnd::Closed);
    }
    match answer_text(alloc, desk, journal, disk, line) {
        Ok(text) => Ok(Some(text)),
        Err(end) => Err(end),
    }
}

// Whether a line has nothing but spaces and tabs.
fn is_blank(line: &Line) -> bool
    ensures { result ≡ is_blank_line line.now }
{
    match line {
        Line::Text { bytes } => are_blanks(bytes.as_slice()),
        Line::TooLong { .. } => false,
    }
}

fn are_blanks(bytes: &[u8]) -> bool
    ensures { result ≡ list_all (λ b. b == 32 || b == 9) bytes.now }
{
    bytes.iter().all(|b| *b == b' ' || *b == b'\t')
}

// Answers a line that is not blank: what its request does, or the refusal of a line that is none.
fn answer_text<D: Disk>(
    alloc: Global,
    desk: &mut Desk,
    journal: &mut Journal,
    disk: &mut D,
    line: &Line,
) -> Result<Vec<u8>, StepEnd>
    requires going { desk.old.stopped ≡ false }
    requires holds { Holds desk.old.desk journal.old (D.state disk.old) }
    ensures ends { TextEnds (line_event desk.old.desk line.now) desk.old desk.new
        (D.state disk.old) (D.state disk.new) (D.faults disk.old) (D.faults disk.new) result }
    ensures ready { IsReady desk.new journal.new (D.state disk.new) }
    ensures untouched { IsUntouched result disk.old disk.new }
    ensures later { D.faults disk.old ≤ D.faults disk.new }
    ensures same { D.borrow_name disk.new ≡ D.borrow_name disk.old }
{
    match Request::read(alloc, line) {
        Ok(request) => answer_request(alloc, desk, journal, disk, request),
        Err(WordFault::Memory) => Err(StepEnd::Memory),
        Err(fault) => refused_text(alloc, Refusal::BadLine(fault)),
    }
}

// Answers a line's request: no line speaks for the clerk that is built in.
fn answer_request<D: Disk>(
    alloc: Global,
    desk: &mut Desk,
    journal: &mut Journal,
    disk: &mut D,
    request: Request,
) -> Result<Vec<u8>, StepEnd>
    requires read { IsRequest request }
    requires going { desk.old.stopped ≡ false }
    requires holds { Holds desk.old.desk journal.old (D.state disk.old) }
    ensures ends { TextEnds (event_of_request desk.old.desk request) desk.old desk.new
        (D.state disk.old) (D.state disk.new) (D.faults disk.old) (D.faults disk.new) result }
    ensures ready { IsReady desk.new journal.new (D.state disk.new) }
    ensures untouched { IsUntouched result disk.old disk.new }
    ensures later { D.faults disk.old ≤ D.faults disk.new }
    ensures same { D.borrow_name disk.new ≡ D.borrow_name disk.old }
{
    if is_batch(clerk_of(&request)) {
        return refused_text(alloc, Refusal::UnknownClerk);
    }
    let Replied { reply: _, text } = desk.serve(alloc, journal, disk, request)?;
    Ok(text)
}

// The text of a refusal with a line feed.
fn refused_text(alloc: Global, refusal: Refusal) -> Result<Vec<u8>, StepEnd>
    requires { RefusalHasScales refusal }
    ensures { IsRefusedText refusal result }
{
    let text = reply_line(alloc, &Reply::Refused(refusal))?;
    Ok(text)
}
