//! regdesk: a posting desk for accumulation registers.
//!
//! Means: the program is `desk_main` over the real words, files and streams.
//!
//! Stands on: `desk_run` for the run, `reg_io` for the adapters.
//!
//! Promises: it ends with the status that `desk_main` gives.
//!
//! Leaves open: what the system's files and streams hold.
#![tactic(auto)]

mod program;

use desk_run::desk_main;
use reg_io::{Folder, JournalFile, ReaderSource, WriterSink};
use std::process::ExitCode;

fn main(rt: HostRuntime) -> ExitCode {
    let alloc = rt.alloc();
    let mut err = WriterSink::new(rt.stderr());
    let words = match program::words_of(&rt) {
        Ok(words) => words,
        Err(fault) => return program::refuse(fault, &mut err),
    };
    let finish = desk_main(
        &rt,
        alloc,
        words.as_slice(),
        &mut Folder::new(&rt),
        JournalFile::new(&rt, "regdesk.journal"),
        &mut ReaderSource::new(rt.stdin()),
        &mut WriterSink::new(rt.stdout()),
        &mut err,
    );
    ExitCode::from(finish.status)
}
