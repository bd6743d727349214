//! Tests of tables of registers: records with the rows of their tables, worked out by hand.
//!
//! Means: nothing; it has tests alone, apart from the crate that they try, since the tests of a
//! crate have it proved a second time.
//!
//! Stands on: `reg_base`, `doc_store`, `cfg_model`, `virt_tables`.
//!
//! Promises: what each test asks.
//!
//! Leaves open: all that no row speaks of.
#![tactic(auto)]

#[cfg(test)]
mod records;
#[cfg(test)]
mod table_tests;
#[cfg(test)]
mod texts;
