//! The journal's entries, and the desk that they replay to.
//!
//! Means: `commands_text` in `specs/Entries.antt` says how the commands of a change are written,
//! and `replayed` in `specs/Replays.antt` which state the entries of a journal leave, one after
//! another, or which of them is the first that can't be replayed.
//!
//! Stands on: `desk_model` for what a command does, `desk_words` for the texts of requests.
//!
//! Promises: what a desk commits is read back, and replays to the state that it left; over entries
//! that replay the numbers of each clerk rise.
//!
//! Leaves open: how the entries are kept, and what is replied.
#![tactic(auto)]

mod entry;
mod laws;

pub use entry::{Command, print_entry, read_entry};
pub use laws::{accepted_requests_are_replayed, entries_read_back, numbers_rise_over_entries};
