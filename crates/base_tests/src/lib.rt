//! Tests of plain values and of the outside: spellings, lines and failing calls.
//!
//! Means: nothing; it has tests alone, apart from the crates that they try, since the tests of a
//! crate have it proved a second time.
//!
//! Stands on: `reg_base`, `reg_io`.
//!
//! Promises: what each test asks.
//!
//! Leaves open: all that no row speaks of.
#![tactic(auto)]

#[cfg(test)]
mod device_tests;
#[cfg(test)]
mod disk_tests;
#[cfg(test)]
mod line_tests;
#[cfg(test)]
mod rows;
#[cfg(test)]
mod value_tests;
