//! Standard input, output and error, and any other reader or writer of std.
ghost use Rattle.std.specs.Prelude.{◌≡◌};

use crate::device::{Device, Failed};
use crate::sink::Sink;
use crate::source::Source;
use std::io::{Read, Write};

/// A reader of std. Each read goes straight to it, and what it holds is not told.
#[derive(Drop)]
pub struct ReaderSource<R> {
    reader: R,
    faults: u64,
}

impl<R: Read> ReaderSource<R> {
    pub fn new(reader: R) -> ReaderSource<R>
        ensures left { ⟦<ReaderSource<R> as Device>⟧.left result ≡ R.remaining reader }
        ensures faults { ⟦<ReaderSource<R> as Device>⟧.read_faults result ≡ 0 }
    {
        ReaderSource { reader, faults: 0 }
    }

    /// How many reads failed.
    pub fn faults(&self) -> u64
        ensures { result ≡ ⟦<ReaderSource<R> as Device>⟧.read_faults self.now }
    {
        self.faults
    }
}

impl<R: Read> Device for ReaderSource<R> {
    ghost left = { λ s. R.remaining s.reader };

    ghost read_faults = { λ s. s.faults };
}

impl<R: Read> Source for ReaderSource<R> {
    fn read(&mut self, into: &mut [u8]) -> Result<usize, Failed> {
        match self.reader.read(into) {
            Ok(count) => Ok(count),
            Err(_) => {
                self.faults = self.faults.saturating_add(1);
                Err(Failed)
            }
        }
    }
}

/// A writer of std. Each write goes straight to it and is kept back nowhere; what it took is not
/// told.
#[derive(Drop)]
pub struct WriterSink<W> {
    writer: W,
    faults: u64,
}

impl<W: Write> WriterSink<W> {
    pub fn new(writer: W) -> WriterSink<W>
        ensures taken { ⟦<WriterSink<W> as Device>⟧.taken result ≡ W.contents writer }
        ensures faults { ⟦<WriterSink<W> as Device>⟧.write_faults result ≡ 0 }
    {
        WriterSink { writer, faults: 0 }
    }

    /// How many writes failed or took nothing.
    pub fn faults(&self) -> u64
        ensures { result ≡ ⟦<WriterSink<W> as Device>⟧.write_faults self.now }
    {
        self.faults
    }
}

impl<W: Write> Device for WriterSink<W> {
    ghost taken = { λ s. W.contents s.writer };

    ghost write_faults = { λ s. s.faults };
}

impl<W: Write> Sink for WriterSink<W> {
    fn write(&mut self, bytes: &[u8]) -> Result<usize, Failed> {
        match self.writer.write(bytes) {
            Ok(count) if count > 0 || bytes.is_empty() => Ok(count),
            Ok(_) => {
                self.faults = self.faults.saturating_add(1);
                Ok(0)
            }
            Err(_) => {
                self.faults = self.faults.saturating_add(1);
                Err(Failed)
            }
        }
    }
}
