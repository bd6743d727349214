//! Sums by group and unit, while numbers are added.
//!
//! Means: sums are seen as their rows. `rows_over` in `specs/Additions.antt` says which rows
//! additions make: one for each key, in order, with a sum per column.
//!
//! Stands on: `reg_base` for groups, units and their order.
//!
//! Promises: sums of nothing have no rows; what is added is added to the row of its key; the rows
//! come out as they are seen. `added` adds numbers column by column.
//!
//! Leaves open: what the columns are, and how much memory the sums take.
#![tactic(auto)]

mod column_sums;
mod sums;

pub use column_sums::added;
pub use sums::{TableSums, UnitSums};
