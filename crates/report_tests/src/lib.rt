//! Tests of reports: rows with the lines that are written of them, worked out by hand.
//!
//! Means: nothing; it has tests alone, apart from the crate that they try, since the tests of a
//! crate have it proved a second time.
//!
//! Stands on: `reg_base`, `cfg_model`, `text_reports`.
//!
//! Promises: what each test asks.
//!
//! Leaves open: all that no row speaks of.
#![tactic(auto)]

#[cfg(test)]
mod balance_tests;
#[cfg(test)]
mod card_tests;
#[cfg(test)]
mod list_tests;
#[cfg(test)]
mod rows;
