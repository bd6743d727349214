//! The outside of the desk: what it reads, writes and keeps files on, and the lines of its input.
//!
//! Means: a source is the bytes left, a sink the bytes taken, a shelf its files, a disk its bytes
//! and what a crash may leave of them, where they are told, and each has a count of faults;
//! `lines_of` in `specs/Lines.antt` cuts bytes into lines.
//!
//! Stands on: `reg_base` for lists and texts.
//!
//! Promises: counts never fall, and a call fails only where its count rose; `Lines` gives the lines
//! of the bytes however reads cut them; `write_all` writes all bytes, or their front and a fault;
//! a disk in memory is a disk, at every moment, by the record of its calls.
//!
//! Leaves open: what real files and streams hold, what a crash leaves of a real disk, when memory
//! is refused.
#![tactic(auto)]

mod crash;
mod device;
mod disk;
mod disk_call;
mod failing_calls;
mod folder;
mod journal_file;
mod line;
mod line_reader;
mod lines;
mod memory_disk;
mod memory_shelf;
mod memory_sink;
mod memory_source;
mod shelf;
mod sink;
mod source;
mod standard;
mod told_line;
mod window;

pub use crash::CrashImage;
pub use device::{Device, Failed};
pub use disk::Disk;
pub use disk_call::DiskCall;
pub use failing_calls::FailingCalls;
pub use folder::Folder;
pub use journal_file::JournalFile;
pub use line::{LineFault, MOST_LINE_BYTES};
pub use lines::Lines;
pub use memory_disk::{FailingDisk, MemoryDisk};
pub use memory_shelf::{FailingShelf, MemoryShelf};
pub use memory_sink::{FailingSink, MemorySink};
pub use memory_source::{FailingSource, MemorySource};
pub use reg_base::Line;
pub use shelf::{Shelf, ShelfFault};
pub use sink::{Sink, SinkFault, write_all};
pub use source::Source;
pub use standard::{ReaderSource, WriterSink};
