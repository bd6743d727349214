//! Reports that words ask for: a trial balance, a stock card, a list of documents.
//!
//! Means: words are the name of what a report is of and the dates of its range. `report_request` in
//! `specs/Reports.antt` says which request they make, `report_text` the text of its answer, and
//! `report_of` the report that they get at a desk, or why they get none.
//!
//! Stands on: `desk_words` for requests and replies, `desk_model` and `desk_history` for what a
//! desk answers, `text_reports` for the texts, `cfg_model` for what a name names.
//!
//! Promises: the request and the text are exactly those of the definitions, and the request is well
//! formed. At a desk that a journal replays to, each answer can be printed.
//!
//! Leaves open: where words come from, who asks, and how much memory a text takes.
#![tactic(auto)]

mod asked;
mod laws;
mod text;

pub use asked::report_request;
pub use laws::reports_can_be_printed;
pub use text::report_text;
