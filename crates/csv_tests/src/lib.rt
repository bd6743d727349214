//! Tests of files of comma separated values: files with what is told of them, worked out by hand.
//!
//! Means: nothing; it has tests alone, apart from the crate that they try, since the tests of a
//! crate have it proved a second time.
//!
//! Stands on: `csv_groups`.
//!
//! Promises: what each test asks.
//!
//! Leaves open: all that no row speaks of.
#![tactic(auto)]

#[cfg(test)]
mod fault_rows;
#[cfg(test)]
mod group_rows;
#[cfg(test)]
mod tests;
