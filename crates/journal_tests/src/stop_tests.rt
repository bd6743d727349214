//! Tests of stops: each call that fails, and what a crash then leaves.
ghost use Rattle.std.specs.Prelude.{◌≡◌, false};
ghost use Rattle.post_journal.specs.Journals.{Stands};

use crate::files::{BEGUN, LINE, entries_in};
use crate::rows::expect;
use post_journal::{Journal, OpenFault, Payload};
use reg_base::List;
use reg_io::{CrashImage, Disk, FailingCalls, FailingDisk, MemoryDisk};
use std::alloc::{AllocError, Global};

// A disk of these bytes, of which one call fails.
fn failing_disk(alloc: Global, bytes: &[u8], number: u64) -> Result<FailingDisk, AllocError> {
    let disk = MemoryDisk::holding(alloc, Vec::from_slice(alloc, bytes)?)?;
    let numbers = List::from_slice(alloc, &[number])?;
    Ok(FailingDisk::new(disk, FailingCalls::new(numbers)))
}

// How many entries each of the three images of a crash has.
fn left(alloc: Global, disk: &MemoryDisk) -> Result<[usize; 3], OpenFault> {
    let read = entries_in(alloc, disk.after_crash(CrashImage::AsRead)?)?;
    let confirmed = entries_in(alloc, disk.after_crash(CrashImage::Confirmed)?)?;
    let scrambled = entries_in(alloc, disk.after_crash(CrashImage::Scrambled)?)?;
    Ok([read, confirmed, scrambled])
}

// Whether opening a new file stops at its call of this number, and each image is then opened
// without entries. It makes nine calls.
fn opening_stops(alloc: Global, number: u64) -> Result<bool, OpenFault> {
    let mut disk = failing_disk(alloc, b"", number)?;
    let stops = match Journal::open(alloc, &mut disk) {
        Ok(_) => number > 9,
        Err(fault) => fault == OpenFault::DiskFault && number <= 9,
    };
    let left = left(alloc, &disk.disk)?;
    Ok(stops && (disk.disk.faults == 1) == (number <= 9) && left == [0, 0, 0])
}

#[test]
fn an_opening_that_stops_leaves_no_entry(rt: HostRuntime) {
    for number in 1..11 {
        expect(&rt, &number, opening_stops(rt.alloc(), number) == Ok(true));
    }
}

// Appends the entry, where the file is short. Whether that ended well.
fn appends<D: Disk>(alloc: Global, journal: &mut Journal, disk: &mut D) -> Result<bool, OpenFault>
    requires usable { journal.old.failed ≡ false }
    requires stands { Stands journal.old.end (D.state disk.old) }
{
    let payload = Payload {
        bytes: List::from_slice(alloc, LINE)?,
    };
    if payload.bytes.len() != 171 || journal.len() > 1_000_000 {
        return Ok(false);
    }
    match journal.room(&payload) {
        Ok(()) => Ok(journal.append(disk, &payload).is_ok()),
        Err(_) => Err(OpenFault::Memory),
    }
}

// Which call fails, and then whether an append ends well, and how many entries each image of a
// crash has. Opening a journal without entries makes four calls, and an append the next four.
const STOPS: [(u64, bool, [usize; 3]); 5] = [
    (5, false, [0, 0, 0]),
    (6, false, [0, 0, 0]),
    (7, false, [0, 0, 0]),
    (8, false, [1, 0, 0]),
    (9, true, [1, 1, 1]),
];

fn append_stops(alloc: Global, row: &(u64, bool, [usize; 3])) -> Result<bool, OpenFault> {
    let mut disk = failing_disk(alloc, &BEGUN, row.0)?;
    let (mut journal, _entries) = Journal::open(alloc, &mut disk)?;
    let done = appends(alloc, &mut journal, &mut disk)?;
    Ok(done == row.1 && left(alloc, &disk.disk)? == row.2)
}

#[test]
fn an_append_that_stops_leaves_its_entry_whole_or_not_at_all(rt: HostRuntime) {
    for row in &STOPS {
        expect(&rt, &row.0, append_stops(rt.alloc(), row) == Ok(true));
    }
}
