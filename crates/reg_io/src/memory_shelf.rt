//! Shelves in memory: one that fails only for a file that is not there, and one by a list.
ghost use Rattle.std.specs.Prelude.{◌≡◌, ◌≢◌, ◌↔◌, ◌≤◌, true, false, None, Some, Err, IfOk, drop};
ghost use Rattle.std.specs.Prelude.{vec_len};
ghost use Rattle.std.specs.Option.{option_copied};
ghost use Rattle.reg_io.specs.Counts.{Rose};
ghost use Rattle.reg_io.specs.FailingCalls.{fails_next, next_call};
ghost use Rattle.reg_io.specs.Files.{ReadsFile, file_named, file_read};

use crate::failing_calls::FailingCalls;
use crate::shelf::{Shelf, ShelfFault};
use reg_base::{List, Text};
use std::alloc::Global;

/// Files in memory, each under its name. Of two with one name the first is read.
#[derive(Debug, Drop)]
pub struct MemoryShelf {
    pub files: List<(Text, List<u8>)>,
    pub faults: u64,
}

impl MemoryShelf {
    pub fn new(files: List<(Text, List<u8>)>) -> MemoryShelf
        ensures files { result.files ≡ files }
        ensures faults { result.faults ≡ 0 }
    {
        MemoryShelf { files, faults: 0 }
    }

    // The bytes of the first file of this name.
    fn find(&self, name: &str) -> Option<&List<u8>>
        ensures { option_copied result ≡ file_named name.now self.now.files }
    {
        for file in self.files.as_slice() {
            if file.0.as_str() == name {
                return Some(&file.1);
            }
        }
        None
    }
}

impl Shelf for MemoryShelf {
    ghost files = { λ s. Some s.files };

    ghost faults = { λ s. s.faults };

    fn read_file(&mut self, alloc: Global, name: &str, most: u64) -> Result<Vec<u8>, ShelfFault>
        ensures read { ReadsFile (file_read (file_named name.now self.old.files) most) result }
        ensures bound { IfOk result (λ bytes. vec_len bytes ≤ most) }

        // It fails exactly for a file that is not there, and its count rises there alone.
        ensures missing { (result ≡ Err ShelfFault.Failed)
            ↔ (file_named name.now self.old.files ≡ None) }
        ensures cause { result ≡ Err ShelfFault.Failed → Rose self.old.faults self.new.faults }
        ensures counts { result ≢ Err ShelfFault.Failed → self.new.faults ≡ self.old.faults }
        ensures later { self.old.faults ≤ self.new.faults }
        ensures stays { self.new.files ≡ self.old.files }
    {
        let Some(bytes) = self.find(name) else {
            self.faults = self.faults.saturating_add(1);
            return Err(ShelfFault::Failed);
        };
        if bytes.len() as u64 > most {
            return Err(ShelfFault::TooLong);
        }
        Ok(Vec::from_slice(alloc, bytes.as_slice())?)
    }
}

/// The same with calls that fail, each of which counts as a fault.
#[derive(Debug, Drop)]
pub struct FailingShelf {
    pub shelf: MemoryShelf,
    pub failing: FailingCalls,
}

impl FailingShelf {
    pub fn new(shelf: MemoryShelf, failing: FailingCalls) -> FailingShelf
        ensures shelf { result.shelf ≡ shelf }
        ensures failing { result.failing ≡ failing }
    {
        FailingShelf { shelf, failing }
    }
}

impl Shelf for FailingShelf {
    ghost files = { λ s. Some s.shelf.files };

    ghost faults = { λ s. s.shelf.faults };

    fn read_file(&mut self, alloc: Global, name: &str, most: u64) -> Result<Vec<u8>, ShelfFault>
        ensures read { ReadsFile
            (file_read (file_named name.now self.old.shelf.files) most) result }
        ensures bound { IfOk result (λ bytes. vec_len bytes ≤ most) }

        // It fails exactly at the calls that are listed, and for a file that is not there.
        ensures listed { fails_next self.old.failing ≡ true → result ≡ Err ShelfFault.Failed }
        ensures missing { fails_next self.old.failing ≡ false → ((result ≡ Err ShelfFault.Failed)
            ↔ (file_named name.now self.old.shelf.files ≡ None)) }
        ensures next { self.new.failing ≡ next_call self.old.failing }
        ensures cause { result ≡ Err ShelfFault.Failed
            → Rose self.old.shelf.faults self.new.shelf.faults }
        ensures later { self.old.shelf.faults ≤ self.new.shelf.faults }
        ensures stays { self.new.shelf.files ≡ self.old.shelf.files }
    {
        if self.failing.next_fails() {
            self.shelf.faults = self.shelf.faults.saturating_add(1);
            return Err(ShelfFault::Failed);
        }
        self.shelf.read_file(alloc, name, most)
    }
}
