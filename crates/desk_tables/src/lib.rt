//! What a question for a table is answered, under a configuration and over documents.
//!
//! Means: `question_answer` of `desk_model`, for each question that is no question for one document.
//!
//! Stands on: `virt_tables` and `ledger_reg` for the tables, `doc_store` for the walk over the
//! documents, `desk_model` for what is asked and answered, `desk_plans` for texts that are read as
//! values.
//!
//! Promises: each question is answered as the machine answers it, or refused as it refuses it; want
//! of memory alone is free.
//!
//! Leaves open: who asks, and how the documents are kept.
#![tactic(auto)]

mod asked;
mod documents;
mod ledgers;
mod lists;
mod registers;

pub use documents::answer_documents;
pub use ledgers::{
    answer_account_balance, answer_account_both, answer_account_turnovers, answer_pairs,
};
pub use registers::{answer_balance, answer_both, answer_turnovers};
