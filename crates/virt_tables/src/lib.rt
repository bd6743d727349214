//! Tables of registers: balances and turnovers by group and unit, over the documents that are kept.
//!
//! Means: a table is the rows of `balance_of`, `turnovers_of` or `balance_and_turnovers_of` of
//! `reg_base` over the register's records.
//!
//! Stands on: `reg_base` for records, units and what tables are, `doc_store` for the walk over
//! documents, `row_sums` and `table_sums` for sums, `cfg_model` for registers.
//!
//! Promises: each call makes exactly the rows of its table, in order, or is refused exactly where
//! the table is: it would begin behind its end, or has more than 100,000 rows.
//!
//! Leaves open: how much memory a table takes.
#![tactic(auto)]

mod ask;
mod balance_table;
mod both_sums;
mod both_table;
mod carried;
mod columns;
mod cuts;
mod ends;
mod limits;
mod moves;
mod turnover_table;

pub use ask::Ask;
pub use balance_table::balance;
pub use both_table::balance_and_turnovers;
pub use cuts::{Query, all_rows, balance_rows};
pub use turnover_table::turnovers;
