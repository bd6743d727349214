//! Imports: the documents that a file of comma separated values asks for, posted at a desk.
//!
//! Means: `posting_of` in `specs/Imports.antt` says what one group of a file comes to, with the line
//! that is written of it, and `import_text` what all groups come to, one after another; `ImportEnds`
//! in `specs/ImportEnds.antt` says what is left by how it ends.
//!
//! Stands on: `csv_groups` for what a file asks for, and `desk_core` for the desk over its journal.
//!
//! Promises: a document whose key is there already is told and not sent again, every other one is
//! sent once, in the order of the file, under the next number of the clerk `batch`; a line is
//! written of each that is in the journal.
//!
//! Leaves open: when memory is refused.
#![tactic(auto)]

mod counts;
mod import;
mod lines;
mod outcome;

pub use import::post_groups;
pub use outcome::Outcome;
