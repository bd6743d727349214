//! The groups of a file, posted one after another at a desk over its journal.
ghost use Rattle.std.specs.Prelude.{◌≡◌, ◌≤◌, ◌<◌, ◌^◌, ◌++◌, false, length, OnOk, OnErr};
ghost use Rattle.std.specs.List.{AllByRecursion};
ghost use Rattle.desk_words.specs.WellFormed.{IsRequest};
ghost use Rattle.desk_core.specs.Histories.{Holds, IsReady};
ghost use Rattle.csv_groups.specs.Requests.{IsBatchPost};
ghost use Rattle.csv_import.specs.Imports.{group_line, posting_of};
ghost use Rattle.csv_import.specs.ImportEnds.{ImportEnds};
ghost use Rattle.csv_import.specs.Posting.{EachEnds, GroupEnds, sent_event};

use crate::counts::Counts;
use crate::lines::{make_room, put_counts, put_line};
use crate::outcome::{Outcome, renumbered, sent_outcome};
use csv_groups::Group;
use desk_core::{Desk, StepEnd};
use desk_words::Request;
use post_journal::Journal;
use reg_base::{Code, List};
use reg_io::Disk;
use std::alloc::Global;

/// Posts groups one after another, writes a line of each, and at last a line of counts. A group
/// whose key is that of a document is not sent. What a group changes is in the journal before its
/// line is written, and behind that nothing can fail for want of memory.
pub fn post_groups<D: Disk>(
    alloc: Global,
    desk: &mut Desk,
    journal: &mut Journal,
    disk: &mut D,
    groups: List<Group>,
    out: &mut Vec<u8>,
) -> Result<(), StepEnd>
    requires ready { IsReady desk.old journal.old (D.state disk.old) }
    requires posts { AllByRecursion IsBatchPost groups }
    requires few { length groups < 2 ^ 32 }
    ensures ends { ImportEnds desk.old desk.new groups out.old.items out.new.items
        (D.state disk.old) (D.state disk.new) (D.faults disk.old) (D.faults disk.new) result }
    ensures ready { IsReady desk.new journal.new (D.state disk.new) }
    ensures later { D.faults disk.old ≤ D.faults disk.new }
    ensures same { D.borrow_name disk.new ≡ D.borrow_name disk.old }
{
    if desk.is_stopped() {
        return Err(StepEnd::Closed);
    }
    let counts = post_each(alloc, desk, journal, disk, groups, out)?;
    make_room(out)?;
    put_counts(out, &counts);
    Ok(())
}

// Posts groups one after another, writes a line of each, and counts what became of them.
fn post_each<D: Disk>(
    alloc: Global,
    desk: &mut Desk,
    journal: &mut Journal,
    disk: &mut D,
    groups: List<Group>,
    out: &mut Vec<u8>,
) -> Result<Counts, StepEnd>
    requires going { desk.old.stopped ≡ false }
    requires holds { Holds desk.old.desk journal.old (D.state disk.old) }
    requires posts { AllByRecursion IsBatchPost groups }
    requires few { length groups < 2 ^ 32 }
    ensures ends { EachEnds desk.old desk.new groups out.old.items out.new.items
        (D.state disk.old) (D.state disk.new) (D.faults disk.old) (D.faults disk.new) result }
    ensures ready { IsReady desk.new journal.new (D.state disk.new) }
    ensures later { D.faults disk.old ≤ D.faults disk.new }
    ensures same { D.borrow_name disk.new ≡ D.borrow_name disk.old }
{
    let mut counts = Counts::new();
    'groups: for group in groups.into_vec() {
        let outcome = post_group(alloc, desk, journal, disk, group, out)?;
        counts.add(&outcome);
    }
    Ok(counts)
}

// Posts a group, and writes its line. The room of the line is made first: behind the entry in the
// journal nothing may fail.
fn post_group<D: Disk>(
    alloc: Global,
    desk: &mut Desk,
    journal: &mut Journal,
    disk: &mut D,
    group: Group,
    out: &mut Vec<u8>,
) -> Result<Outcome, StepEnd>
    requires post { IsBatchPost group }
    requires going { desk.old.stopped ≡ false }
    requires holds { Holds desk.old.desk journal.old (D.state disk.old) }
    ensures ends { GroupEnds (posting_of desk.old.desk group) desk.old desk.new
        (D.state disk.old) (D.state disk.new) (D.faults disk.old) (D.faults disk.new) result }
    ensures line { OnOk result
        (out.new.items ≡ out.old.items ++ group_line desk.old.desk group) }
    ensures err { OnErr result (out.new.items ≡ out.old.items) }
    ensures ready { IsReady desk.new journal.new (D.state disk.new) }
    ensures later { D.faults disk.old ≤ D.faults disk.new }
    ensures same { D.borrow_name disk.new ≡ D.borrow_name disk.old }
{
    make_room(out)?;
    let Group { key, request } = group;
    let outcome = outcome_of(alloc, desk, journal, disk, &key, request)?;
    put_line(out, &key, &outcome);
    Ok(outcome)
}

// What becomes of a group: where a document has its key already, nothing is sent.
#[tactic(auto, unfolding(crate::specs::Imports::posting_of))]
fn outcome_of<D: Disk>(
    alloc: Global,
    desk: &mut Desk,
    journal: &mut Journal,
    disk: &mut D,
    key: &Code,
    request: Request,
) -> Result<Outcome, StepEnd>
    requires read { IsRequest request }
    requires going { desk.old.stopped ≡ false }
    requires holds { Holds desk.old.desk journal.old (D.state disk.old) }
    ensures ends { GroupEnds
        (posting_of desk.old.desk (record { key = key.now; request = request })) desk.old desk.new
        (D.state disk.old) (D.state disk.new) (D.faults disk.old) (D.faults disk.new) result }
    ensures ready { IsReady desk.new journal.new (D.state disk.new) }
    ensures later { D.faults disk.old ≤ D.faults disk.new }
    ensures same { D.borrow_name disk.new ≡ D.borrow_name disk.old }
{
    match desk.by_key(key) {
        Some(doc) => Ok(Outcome::There(doc)),
        None => send(alloc, desk, journal, disk, request),
    }
}

// Sends the request of a group, under the next number of the clerk `batch`.
fn send<D: Disk>(
    alloc: Global,
    desk: &mut Desk,
    journal: &mut Journal,
    disk: &mut D,
    request: Request,
) -> Result<Outcome, StepEnd>
    requires read { IsRequest request }
    requires going { desk.old.stopped ≡ false }
    requires holds { Holds desk.old.desk journal.old (D.state disk.old) }
    ensures ends { GroupEnds (sent_event desk.old.desk request) desk.old desk.new
        (D.state disk.old) (D.state disk.new) (D.faults disk.old) (D.faults disk.new) result }
    ensures ready { IsReady desk.new journal.new (D.state disk.new) }
    ensures later { D.faults disk.old ≤ D.faults disk.new }
    ensures same { D.borrow_name disk.new ≡ D.borrow_name disk.old }
{
    let request = renumbered(desk.batch_number(), request);
    let reply = desk.step(alloc, journal, disk, &request)?;
    Ok(sent_outcome(&reply))
}
