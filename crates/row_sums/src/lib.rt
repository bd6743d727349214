//! Sums by group, while records and rows are added.
//!
//! Means: sums are seen as their rows. `AddsUp` in `specs/Sums.antt` says which records they sum,
//! with rows of zeros or without, and `Adds` what is added to them.
//!
//! Stands on: `reg_base` for records, filters, groups and what a balance is.
//!
//! Promises: sums of nothing, and rows of a balance, add up what they stand for; a record more is
//! added to its group; the rows that are shown are those of a balance; whether a record is asked
//! for.
//!
//! Leaves open: where records come from, and how much memory the sums take.
#![tactic(auto)]

mod filters;
mod groups;
mod raised;
mod sums;

pub use filters::matches;
pub use groups::group_values;
pub use sums::RowSums;
