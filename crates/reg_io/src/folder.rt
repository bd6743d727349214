//! The files of a folder.
ghost use Rattle.std.specs.Prelude.{◌≡◌, ◌≤◌, ◌+◌, ◌-◌, ◌^◌, IfOk, IfSome, min, take, vec_len};

use crate::shelf::{Shelf, ShelfFault};
use std::alloc::Global;
use std::io::Read;
use std::rt::Files;
use std::{fs, io};

/// The files that a runtime reaches, each by its path. What they hold is not told.
#[derive(Drop)]
pub struct Folder<'a, R> {
    files: &'a R,
    faults: u64,
}

impl<'a, R: Files> Folder<'a, R> {
    pub fn new(files: &'a R) -> Folder<'a, R>
        ensures { ⟦<Folder<'a, R> as Shelf>⟧.faults result ≡ 0 }
    {
        Folder { files, faults: 0 }
    }

    /// How many files could not be read.
    pub fn faults(&self) -> u64
        ensures { result ≡ ⟦<Folder<'a, R> as Shelf>⟧.faults self.now }
    {
        self.faults
    }
}

impl<R: Files> Shelf for Folder<'_, R> {
    ghost faults = { λ f. f.faults };

    fn read_file(&mut self, alloc: Global, name: &str, most: u64) -> Result<Vec<u8>, ShelfFault> {
        match read_up_to(self.files, alloc, name, most) {
            Ok(bytes) if bytes.len() as u64 <= most => Ok(bytes),
            Ok(_) => Err(ShelfFault::TooLong),
            Err(e) if e.kind() == io::ErrorKind::OutOfMemory => Err(ShelfFault::Memory),
            Err(_) => {
                self.faults = self.faults.saturating_add(1);
                Err(ShelfFault::Failed)
            }
        }
    }
}

// The bytes of a file, and of a longer one its first `most` and one more.
fn read_up_to<R: Files>(files: &R, alloc: Global, name: &str, most: u64) -> io::Result<Vec<u8>> {
    let file = fs::open(files, name)?;
    first_bytes(alloc, file, most)
}

// What a reader has left, and of more bytes the first `most` and one more.
fn first_bytes<R: Read + Drop>(alloc: Global, reader: R, most: u64) -> io::Result<Vec<u8>>
    ensures { IfOk result (λ bytes. IfSome (R.Read.remaining reader)
        (λ left. bytes.items ≡ take (min (most + 1) (2 ^ 64 - 1)) left)) }
{
    let mut bytes = Vec::new(alloc);
    reader.take(most.saturating_add(1)).read_to_end(&mut bytes)?;
    Ok(bytes)
}
