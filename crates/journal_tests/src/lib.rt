//! Tests of the journal over disks in memory: files as they are opened, and what stops leave.
//!
//! Means: nothing; it has tests alone, apart from the crates that it tries, since the tests of a
//! crate have it proved a second time.
//!
//! Stands on: `reg_base`, `reg_io`, `post_journal`.
//!
//! Promises: what each test asks.
//!
//! Leaves open: all that no row speaks of.
#![tactic(auto)]

#[cfg(test)]
mod files;
#[cfg(test)]
mod opening_tests;
#[cfg(test)]
mod rows;
#[cfg(test)]
mod series_tests;
#[cfg(test)]
mod stop_tests;
