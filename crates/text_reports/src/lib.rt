//! Reports as texts: a trial balance, a stock card, a list of documents.
//!
//! Means: a report is a list of lines of cells in columns; `report_text` in `specs/Tables.antt`
//! says how it is written, and the other files of `specs/` which lines each report has.
//!
//! Stands on: `reg_base` for rows and how numbers, dates and points are written, `cfg_model` for
//! charts of accounts and registers.
//!
//! Promises: each call appends exactly the text of its report; where memory is wanted, nothing.
//! The lines of a report without a bare column are of one length.
//!
//! Leaves open: where the rows come from and in which order, and how much memory a text takes.
#![tactic(auto)]

mod cells;
mod documents;
mod laws;
mod placing;
mod stock;
mod table;
mod totals;
mod trial;

pub use documents::document_list;
pub use laws::lines_align;
pub use stock::stock_card;
pub use trial::trial_balance;
