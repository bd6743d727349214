//! Requests as they are read from a line and printed, and replies as they are printed.
//!
//! Means: `request` in `specs/Reading.antt` says which request a line is, or its first fault;
//! `request_text` in `specs/RequestTexts.antt` is its canonical text, and `reply_text` in
//! `specs/ReplyTexts.antt` the text of a reply.
//!
//! Stands on: `serde_json` for JSON, `json_laws` for what is written and read back, `reg_base` for
//! lines, names, dates, cuts, codes, comments and the faults of posting.
//!
//! Promises: a line is read exactly as `request` says, and what is read is well formed; requests
//! and replies are printed exactly as their texts say, and a request that is well formed reads
//! back; want of memory alone is free.
//!
//! Leaves open: whether a register, a clerk or a value that a request names is known.
#![tactic(auto)]

mod command_values;
mod fault;
mod field_values;
mod fields;
mod json_values;
mod laws;
mod members;
mod parsed;
mod print;
mod read;
mod read_requests;
mod read_tables;
mod refusal_values;
mod reply;
mod reply_values;
mod request;
mod request_values;
mod row_parts;
mod row_values;
mod sets;
mod shapes;
mod table_shapes;
mod table_values;
mod tables;

pub use fault::{Member, WordFault};
pub use laws::{members_ascend, requests_read_back};
pub use reply::{Acknowledgement, Answer, Field, Limit, Refusal, Reply, ShownDocument};
pub use request::{
    Balance, Close, DocQuestion, FieldText, FilterText, LedgerText, Manual, Post, RecordText,
    RegisterText, Request, SetText, StandingDocument, Sweep, Switch, Write,
};
pub use tables::{
    AccountBalance, AccountTurnovers, AskedAccounts, AskedDates, AskedRegister, Both,
    DocumentsQuestion, DrCr, Turnovers,
};
