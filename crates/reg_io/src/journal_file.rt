//! The file that a journal is kept in.
ghost use Rattle.std.specs.Prelude.{◌≡◌};
ghost use Rattle.reg_io.specs.Counts.{HasCause};
ghost use Rattle.reg_io.specs.Disks.{untold};

use crate::device::Failed;
use crate::disk::Disk;
use std::fs::{OpenFile, OpenOptions};
use std::io;
use std::os::unix::fs::FileExt;
use std::rt::Files;

/// A file of a runtime, opened at the first call, and made where there is none. What it holds is
/// not told.
#[derive(Drop)]
pub struct JournalFile<'a, R: Files> {
    files: &'a R,
    name: &'a str,
    file: Option<R::File>,
    faults: u64,
}

impl<'a, R: Files> JournalFile<'a, R>
where
    R::File: FileExt,
{
    pub fn new(files: &'a R, name: &'a str) -> JournalFile<'a, R>
        ensures { ⟦<JournalFile<'a, R> as Disk>⟧.faults result ≡ 0 }
    {
        JournalFile {
            files,
            name,
            file: None,
            faults: 0,
        }
    }

    /// How many calls failed.
    pub fn faults(&self) -> u64
        ensures { result ≡ ⟦<JournalFile<'a, R> as Disk>⟧.faults self.now }
    {
        self.faults
    }
}

// Opens the file where it is not open yet, and makes it where there is none.
fn open<R: Files>(files: &R, name: &str, file: &mut Option<R::File>) -> io::Result<()> {
    if file.is_none() {
        let mut how = OpenOptions::new();
        how.read(true).write(true).create(true);
        *file = Some(how.open(files, name)?);
    }
    Ok(())
}

// The file, where it is open.
fn opened<F>(file: &Option<F>) -> io::Result<&F> {
    match file {
        Some(file) => Ok(file),
        None => Err(io::Error::from(io::ErrorKind::NotFound)),
    }
}

// The answer of a call, whose failure is counted.
fn counted<T>(faults: &mut u64, answer: io::Result<T>) -> Result<T, Failed>
    ensures { HasCause faults.old faults.new result }
{
    match answer {
        Ok(value) => Ok(value),
        Err(_) => {
            *faults = faults.saturating_add(1);
            Err(Failed)
        }
    }
}

fn len_of<R: Files>(files: &R, name: &str, file: &mut Option<R::File>) -> io::Result<u64> {
    open(files, name, file)?;
    Ok(opened(file)?.metadata()?.len())
}

fn read_from<R: Files>(
    files: &R,
    name: &str,
    file: &mut Option<R::File>,
    place: u64,
    into: &mut [u8],
) -> io::Result<()>
where
    R::File: FileExt,
{
    open(files, name, file)?;
    opened(file)?.read_exact_at(into, place)
}

fn write_to<R: Files>(
    files: &R,
    name: &str,
    file: &mut Option<R::File>,
    place: u64,
    bytes: &[u8],
) -> io::Result<()>
where
    R::File: FileExt,
{
    open(files, name, file)?;
    opened(file)?.write_all_at(bytes, place)
}

fn cut_to<R: Files>(files: &R, name: &str, file: &mut Option<R::File>, len: u64) -> io::Result<()> {
    open(files, name, file)?;
    opened(file)?.set_len(len)
}

fn sync_all<R: Files>(files: &R, name: &str, file: &mut Option<R::File>) -> io::Result<()> {
    open(files, name, file)?;
    opened(file)?.sync_all()
}

impl<R: Files> Disk for JournalFile<'_, R>
where
    R::File: FileExt,
{
    ghost state = { λ _. untold };

    ghost none_is_later = { λ d k image left. absurd left };

    ghost faults = { λ d. d.faults };

    fn len(&mut self) -> Result<u64, Failed> {
        counted(
            &mut self.faults,
            len_of(self.files, self.name, &mut self.file),
        )
    }

    fn read(&mut self, place: u64, into: &mut [u8]) -> Result<(), Failed> {
        let answer = read_from(self.files, self.name, &mut self.file, place, into);
        counted(&mut self.faults, answer)
    }

    fn write_at(&mut self, place: u64, bytes: &[u8]) -> Result<(), Failed> {
        let answer = write_to(self.files, self.name, &mut self.file, place, bytes);
        counted(&mut self.faults, answer)
    }

    fn cut(&mut self, len: u64) -> Result<(), Failed> {
        counted(
            &mut self.faults,
            cut_to(self.files, self.name, &mut self.file, len),
        )
    }

    fn sync(&mut self) -> Result<(), Failed> {
        counted(
            &mut self.faults,
            sync_all(self.files, self.name, &mut self.file),
        )
    }
}
