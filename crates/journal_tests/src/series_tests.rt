//! A test of many appends, one after another.
ghost use Rattle.std.specs.Prelude.{◌≡◌, [], ◌∷◌, false, OnOk};
ghost use Rattle.post_journal.specs.Journals.{Grows, Stands};
ghost use Rattle.post_journal.specs.Openings.{payloads};

use crate::files::entries_in;
use crate::rows::expect;
use post_journal::{Journal, OpenFault, Payload};
use reg_base::List;
use reg_io::{CrashImage, Disk, MemoryDisk};
use std::alloc::{AllocError, Global};

// Appends an entry, where the file is short.
fn append<D: Disk>(journal: &mut Journal, disk: &mut D, entry: &Payload) -> Result<(), OpenFault>
    requires usable { journal.old.failed ≡ false }
    requires stands { Stands journal.old.end (D.state disk.old) }
    ensures grows { OnOk result
        (Grows (D.state disk.old) (D.state disk.new) (entry.now.bytes ∷ []) []) }
    ensures usable { OnOk result (journal.new.failed ≡ false) }
    ensures stands { OnOk result (Stands journal.new.end (D.state disk.new)) }
{
    let len = entry.bytes.len();
    if len == 0 || len > 1000 || journal.len() > 1_000_000 {
        return Err(OpenFault::Memory);
    }
    if journal.room(entry).is_err() {
        return Err(OpenFault::Memory);
    }
    match journal.append(disk, entry) {
        Ok(()) => Ok(()),
        Err(_) => Err(OpenFault::DiskFault),
    }
}

// Appends all of them: at every moment a crash leaves a front of them behind what was there.
fn append_all<D: Disk>(
    journal: &mut Journal,
    disk: &mut D,
    entries: &[Payload],
) -> Result<(), OpenFault>
    requires usable { journal.old.failed ≡ false }
    requires stands { Stands journal.old.end (D.state disk.old) }
    ensures { OnOk result
        (Grows (D.state disk.old) (D.state disk.new) (payloads entries.now) []) }
{
    for entry in entries {
        append(journal, disk, entry)?;
    }
    Ok(())
}

// Two entries.
fn two_entries(alloc: Global) -> Result<List<Payload>, AllocError> {
    let mut entries = List::new(alloc);
    entries.push(Payload {
        bytes: List::from_slice(alloc, b"one")?,
    })?;
    entries.push(Payload {
        bytes: List::from_slice(alloc, b"two")?,
    })?;
    Ok(entries)
}

// How many entries a crash leaves behind both.
fn left_behind(alloc: Global, image: CrashImage) -> Result<usize, OpenFault> {
    let entries = two_entries(alloc)?;
    let mut disk = MemoryDisk::new(alloc);
    let (mut journal, _none) = Journal::open(alloc, &mut disk)?;
    append_all(&mut journal, &mut disk, entries.as_slice())?;
    entries_in(alloc, disk.after_crash(image)?)
}

#[test]
fn entries_stand_behind_one_another(rt: HostRuntime) {
    for image in &[
        CrashImage::AsRead,
        CrashImage::Confirmed,
        CrashImage::Scrambled,
    ] {
        expect(&rt, &"two", left_behind(rt.alloc(), *image) == Ok(2));
    }
}
