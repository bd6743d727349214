//! A journal that stands on a disk.
//!
//! It keeps the place of the gate byte behind its last entry, and a room that is filled with what
//! an append writes behind that byte. The entries themselves stand on the disk alone.
ghost use Rattle.std.specs.Prelude.{◌≡◌, ◌+◌, ◌-◌, ◌<◌, ◌≤◌, false, length, vec_len, OnOk};
ghost use Rattle.reg_io.specs.Counts.{HasCause};
ghost use Rattle.post_journal.specs.Images.{behind_gate, end_of_places, most_payload};
ghost use Rattle.post_journal.specs.Journals.{AppendEnds, FitsBehind, GrowsBy, Stands};

use crate::fault::DiskFault;
use crate::gate::open_behind;
use reg_base::{List, Memory};
use reg_io::Disk;
use std::alloc::{AllocError, Global};
use std::marker::Model;

/// What an entry of a journal holds.
#[derive(Debug, Drop)]
pub struct Payload {
    pub bytes: List<u8>,
}

/// Where a journal ends on its disk, and the room for what is appended next.
#[derive(Debug, Drop)]
pub struct Journal {
    end: u64,
    room: Vec<u8>,
    failed: bool,
}

impl Model for Journal {
    ghost use Rattle.std.specs.Prelude.{◌-◌, ◌<◌, vec_len};
    ghost use Rattle.post_journal.specs.Images.{end_of_places};
    ghost use Rattle.post_journal.specs.Journals.{JournalState};

    ghost Value = { JournalState };

    // A payload has five bytes before and behind it: its length, and the next gate byte.
    ghost view = { λ j. record { end = j.end; spare = vec_len j.room - 5; failed = j.failed } };

    ghost invariant = { λ j. j.end < end_of_places };
}

impl Journal {
    // A journal that ends at this place.
    pub(crate) fn at(alloc: Global, end: u64) -> Journal
        requires { end < end_of_places }
        ensures end { result.end ≡ end }
        ensures usable { result.failed ≡ false }
    {
        Journal {
            end,
            room: Vec::new(alloc),
            failed: false,
        }
    }

    /// How many bytes of the file are in use. What stands behind the last gate byte is not.
    pub fn len(&self) -> u64
        ensures { result ≡ self.now.end + 1 }
    {
        self.end + 1
    }

    /// Makes room for a payload.
    pub fn room(&mut self, payload: &Payload) -> Result<(), Memory>
        requires most { length payload.now.bytes ≤ most_payload }
        ensures room { OnOk result (length payload.now.bytes ≤ self.new.spare) }
        ensures end { self.new.end ≡ self.old.end }
        ensures failed { self.new.failed ≡ self.old.failed }
    {
        let len = payload.bytes.len() + 5;
        if self.room.len() < len {
            grow(&mut self.room, len)?;
        }
        Ok(())
    }

    /// Appends an entry. After a fault the file has to be opened again.
    pub fn append<D: Disk>(&mut self, disk: &mut D, payload: &Payload) -> Result<(), DiskFault>
        requires usable { self.old.failed ≡ false }
        requires stands { Stands self.old.end (D.state disk.old) }
        requires fits { FitsBehind self.old.end payload.now.bytes }
        requires room { length payload.now.bytes ≤ self.old.spare }
        ensures grows { GrowsBy (D.state disk.old) (D.state disk.new) payload.now.bytes result }
        ensures ends { AppendEnds self.old self.new (length payload.now.bytes)
            (D.state disk.new) result }
        ensures cause { HasCause (D.faults disk.old) (D.faults disk.new) result }
        ensures same { D.borrow_name disk.new ≡ D.borrow_name disk.old }
    {
        let len = payload.bytes.len();
        self.failed = true;
        let behind = &mut self.room.as_mut_slice()[..len + 5];
        put_behind(behind, payload.bytes.as_slice());
        open_behind(disk, self.end, behind)?;
        self.end += 5 + len as u64;
        self.room.clear();
        self.failed = false;
        Ok(())
    }
}

// Makes the list this long.
fn grow(list: &mut Vec<u8>, len: usize) -> Result<(), AllocError>
    requires { vec_len list.old ≤ len }
    ensures { OnOk result (len ≤ vec_len list.new) }
{
    list.resize(len, 0)
}

// Fills the room with what stands behind the gate byte of an entry.
fn put_behind(room: &mut [u8], payload: &[u8])
    requires len { length room.old ≡ length payload.now + 5 }
    requires most { length payload.now ≤ most_payload }
    ensures { room.new ≡ behind_gate payload.now }
{
    let len = payload.len();
    room[..4].copy_from_slice(&(len as u32).to_be_bytes());
    room[4..len + 4].copy_from_slice(payload);
    room[len + 4] = 0;
}
