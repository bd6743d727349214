//! The desk: the machine of `desk_model`, with its documents kept and its lines answered.
//!
//! Means: a desk is seen as that of the machine; `step` and `answer_line` make its events over the
//! journal that stands on a disk. `StepEnds` in `specs/Histories.antt` and `LineEnds` in
//! `specs/Lines.antt` say what each leaves, `OpensDesk` which desk the entries of a journal open.
//!
//! Stands on: `desk_model` for what a desk is, `desk_history` for what entries are and replay to,
//! `desk_plans` and `desk_tables` for what a request plans to do or asks, `doc_store` for the
//! documents that are kept, `post_journal` for the entries on a disk.
//!
//! Promises: a step gives the reply and leaves the desk of the machine; a line is answered by
//! exactly its bytes; what it changes is in the journal before it is answered, and the journal
//! replays to the desk; a refusal changes nothing; want of memory leaves the desk, its journal and
//! the disk as they were; a fault of the disk stops the desk.
//!
//! Leaves open: when memory is wanted.
#![tactic(auto)]

mod books;
mod changes;
mod clerks;
mod controls;
mod counts;
mod deeds;
mod desk;
mod limits;
mod line;
mod numbers;
mod outcome;
mod planned;
mod questions;
mod replay;
mod requests;
mod room;
mod serving;
mod way;

pub use changes::Left;
pub use counts::Counts;
pub use desk::{Desk, StepEnd};
pub use limits::{MOST_DOCUMENTS, MOST_ENTRY, MOST_JOURNAL, MOST_KEPT_RECORDS, MOST_LINES};
pub use line::answer_line;
pub use outcome::{Change, Entry, Outcome, Prepared};
pub use replay::{MOST_REPLAYED_RECORDS, ReplayFault};
pub use serving::Replied;
pub use way::Way;
