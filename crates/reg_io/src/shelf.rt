//! Where files are read from by name.
ghost use Rattle.std.specs.Prelude.{◌≡◌, ◌≤◌, ℕ, List, Option, None, IfOk, IfSome, vec_len};
ghost use Rattle.reg_io.specs.Counts.{Rose};
ghost use Rattle.reg_io.specs.Files.{ReadsFile, file_named, file_read};
ghost use Rattle.reg_io.specs.declared.shelf.ShelfFault.TheVariants.{Memory};

use std::alloc::{AllocError, Global};

/// Why a file could not be read.
#[derive(Clone, Copy, Debug, PartialEq, Eq)]
pub enum ShelfFault {
    /// There is no such file, or a call on it failed.
    Failed,
    /// The file has more bytes than may be read.
    TooLong,
    /// Memory was refused.
    Memory,
}

/// A shelf of files.
pub trait Shelf {
    // The files by name, where they are told.
    ghost files: { Self → Option (List (List ℕ × List ℕ)) } = { λ _. None };

    // How many calls failed. It never falls.
    ghost faults: { Self → ℕ };

    // The name of the borrow where this is a reference, and 0 for a shelf itself.
    ghost borrow_name: { Self → ℕ } = { λ _. 0 };

    /// The bytes of a file, of which there may be `most`.
    fn read_file(&mut self, alloc: Global, name: &str, most: u64) -> Result<Vec<u8>, ShelfFault>
        ensures read { IfSome (files self.old) (λ all.
            ReadsFile (file_read (file_named name.now all) most) result) }
        ensures bound { IfOk result (λ bytes. vec_len bytes ≤ most) }
        ensures cause { result ≡ Err ShelfFault.Failed → Rose (faults self.old) (faults self.new) }

        // The count never falls, and the files stay whatever is answered.
        ensures later { faults self.old ≤ faults self.new }
        ensures stays { files self.new ≡ files self.old }
        ensures same { borrow_name self.new ≡ borrow_name self.old };
}

impl<F: Shelf> Shelf for &mut F {
    ghost files = { λ f. F.files f.now };

    ghost faults = { λ f. F.faults f.now };

    ghost borrow_name = { λ f. f.ghost_name };

    fn read_file(&mut self, alloc: Global, name: &str, most: u64) -> Result<Vec<u8>, ShelfFault> {
        (**self).read_file(alloc, name, most)
    }
}

impl From<AllocError> for ShelfFault {
    ghost from_gives = { λ _ e. e ≡ Memory };

    fn from(_refused: AllocError) -> ShelfFault {
        ShelfFault::Memory
    }
}
