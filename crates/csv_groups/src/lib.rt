//! The documents to post that a file of comma separated values holds.
//!
//! Means: a file's bytes are groups of rows, each of which is a document to post, or have a first
//! fault; `read_file` in `specs/Files.antt` says which.
//!
//! Stands on: `csv` for the records of the bytes, `cfg_model` for the fields that columns name,
//! `desk_words` for requests, and `reg_base` for codes, names, dates and comments.
//!
//! Promises: `read_groups` gives exactly the groups or the first fault that the file has, and the
//! request of each group is well formed; want of memory alone is free.
//!
//! Leaves open: whether a document's type knows its fields, and when memory is refused.
#![tactic(auto)]

mod cells;
mod column;
mod columns;
mod fault;
mod fields;
mod group;
mod groups;
mod read;
mod records;
mod rows;

pub use fault::{RowFault, RowWhy};
pub use group::Group;
pub use read::read_groups;
