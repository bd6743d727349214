//! Tables of ledgers: balances, turnovers and both by account, and sums by pairs of accounts.
//!
//! Means: each table is that of `specs/AccountTables.antt` of `cfg_model`, over the entries of the
//! documents that a viewer sees.
//!
//! Stands on: `reg_base` for entries and rows, `cfg_model` for charts of accounts and what their
//! tables are, and `doc_store` for the documents.
//!
//! Promises: a table is exactly that of its definition, or is refused for the range that it asks
//! for or for too many rows.
//!
//! Leaves open: when memory is wanted.
#![tactic(auto)]

mod ask;
mod balances;
mod nets;
mod pairs;
mod rows;
mod sides;
mod slots;
mod unit_rows;
mod unit_tables;
mod units;
mod walk;

pub use ask::AccountAsk;
pub use balances::account_balance;
pub use pairs::dr_cr;
pub use unit_tables::{account_both, account_turnovers};
