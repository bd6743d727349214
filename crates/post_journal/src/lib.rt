//! The journal of a desk: its entries on a disk, each whole or not there after a crash.
//!
//! Means: `image_of` in `specs/Images.antt` says what the bytes of a file are as a journal, and
//! `Grows` in `specs/Journals.antt` what appends leave of them at every moment.
//!
//! Stands on: `reg_io` for the disk.
//!
//! Promises: opening gives the entries of the file; an append adds exactly its payload; a crash at
//! any moment leaves the entries that were there, with the one that is being appended or without.
//!
//! Leaves open: what an entry says, and what a real file leaves after a crash.
#![tactic(auto)]

mod beginning;
mod entries;
mod fault;
mod gate;
mod journal;
mod opening;

pub use fault::{DiskFault, OpenFault};
pub use journal::{Journal, Payload};
