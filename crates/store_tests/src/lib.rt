//! Tests of the store of documents: what is found by number and by key, and what is staged.
//!
//! Means: nothing; it has tests alone, apart from the crate that it tries, since the tests of a
//! crate have it proved a second time.
//!
//! Stands on: `reg_base`, `doc_store`.
//!
//! Promises: what each test asks.
//!
//! Leaves open: all that no row speaks of.
#![tactic(auto)]

#[cfg(test)]
mod rows;
#[cfg(test)]
mod store_tests;
