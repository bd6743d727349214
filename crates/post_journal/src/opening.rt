//! Opening the journal that a disk holds.
ghost use Rattle.std.specs.Prelude.{◌≡◌, ◌+◌, ◌<◌, length, false, IfSome, IfOk, OnOk};
ghost use Rattle.reg_io.specs.Counts.{HasCause};
ghost use Rattle.reg_io.specs.Disks.{IsSure};
ghost use Rattle.post_journal.specs.Images.{image_of, journal_length};
ghost use Rattle.post_journal.specs.Gates.{IsClosedFile, IsContent, IsEmptyJournal, IsSmallFile};
ghost use Rattle.post_journal.specs.Journals.{Keeps, ShowsOnly, Stands};
ghost use Rattle.post_journal.specs.Openings.{
  HasDiskCause,
  KeepsRefused,
  OpensAs,
  beginning_of,
  payloads,
};
ghost use Rattle.post_journal.specs.declared.beginning.Beginning.TheVariants.{Begun};

use crate::beginning::{Beginning, read_beginning};
use crate::entries::read_run;
use crate::fault::OpenFault;
use crate::gate::{open_behind, put_sure};
use crate::journal::{Journal, Payload};
use reg_base::List;
use reg_io::{Disk, Failed};
use std::alloc::Global;

/// The bytes of the first entry behind its gate byte, with a closed gate behind them.
const FIRST_BEHIND: [u8; 22] = *b"\x00\x00\x00\x11regdesk journal 1\x00";

impl Journal {
    /// Opens the journal that the disk holds, and gives its entries. A file that was never begun
    /// is begun.
    pub fn open<D: Disk>(alloc: Global, disk: &mut D) -> Result<(Journal, List<Payload>), OpenFault>
        ensures opens { IfSome (D.state disk.old).content
            (λ bytes. OpensAs (image_of bytes) result) }
        ensures stands { IfOk result (λ opened. (opened.0.failed ≡ false)
            × Stands opened.0.end (D.state disk.new)) }
        ensures end { IfOk result (λ opened.
            opened.0.end + 1 ≡ journal_length (payloads opened.1)) }

        // A file that is refused keeps its bytes, and no opening brings an entry or takes one.
        ensures refused { KeepsRefused (D.state disk.old) (D.state disk.new) result }
        ensures keeps { Keeps (D.state disk.old) (D.state disk.new) }
        ensures cause { HasDiskCause (D.faults disk.old) (D.faults disk.new) result }
        ensures same { D.borrow_name disk.new ≡ D.borrow_name disk.old }
    {
        let (beginning, len) = look(disk)?;
        match beginning {
            Beginning::Empty => {
                begin_empty(disk)?;
                Ok((Journal::at(alloc, 22), List::new(alloc)))
            }
            Beginning::Fresh => {
                begin(disk)?;
                Ok((Journal::at(alloc, 22), List::new(alloc)))
            }
            Beginning::Begun => {
                let (end, entries) = read_run(alloc, disk, len)?;
                Ok((Journal::at(alloc, end), entries))
            }
            Beginning::Other => Err(OpenFault::NotAJournal),
        }
    }
}

// How the file begins, and its length. What is seen is made sure before: it may have been read
// after a stop, and a crash could still leave less.
fn look<D: Disk>(disk: &mut D) -> Result<(Beginning, u64), Failed>
    ensures seen { IfOk result (λ seen. IfSome (D.state disk.old).content
        (λ bytes. (seen.0 ≡ beginning_of bytes) × (seen.1 ≡ length bytes))) }
    ensures long { IfOk result (λ seen. seen.0 ≡ Begun → 22 < seen.1) }
    ensures content { (D.state disk.new).content ≡ (D.state disk.old).content }
    ensures sure { OnOk result (IsSure (D.state disk.new)) }
    ensures shows { ShowsOnly (D.state disk.old) (D.state disk.new)
        (IsContent (D.state disk.old)) }
    ensures cause { HasCause (D.faults disk.old) (D.faults disk.new) result }
    ensures same { D.borrow_name disk.new ≡ D.borrow_name disk.old }
{
    disk.sync()?;
    let len = disk.len()?;
    let beginning = read_beginning(disk, len)?;
    Ok((beginning, len))
}

// Writes the first entry behind the closed gate byte of a file that is to be begun.
fn begin<D: Disk>(disk: &mut D) -> Result<(), Failed>
    requires closed { IfSome (D.state disk.old).content IsClosedFile }
    requires sure { IsSure (D.state disk.old) }
    ensures stands { OnOk result (Stands 22 (D.state disk.new)) }
    ensures shows { ShowsOnly (D.state disk.old) (D.state disk.new)
        (IsEmptyJournal (D.state disk.old)) }
    ensures cause { HasCause (D.faults disk.old) (D.faults disk.new) result }
    ensures same { D.borrow_name disk.new ≡ D.borrow_name disk.old }
{
    open_behind(disk, 0, &FIRST_BEHIND)
}

// Writes a closed gate byte into a file of one byte at the most, and then the first entry.
fn begin_empty<D: Disk>(disk: &mut D) -> Result<(), Failed>
    requires small { IsSmallFile (D.state disk.old) }
    requires sure { IsSure (D.state disk.old) }
    ensures stands { OnOk result (Stands 22 (D.state disk.new)) }
    ensures shows { ShowsOnly (D.state disk.old) (D.state disk.new)
        (IsEmptyJournal (D.state disk.old)) }
    ensures cause { HasCause (D.faults disk.old) (D.faults disk.new) result }
    ensures same { D.borrow_name disk.new ≡ D.borrow_name disk.old }
{
    put_sure(disk, 0, &[0])?;
    begin(disk)
}
