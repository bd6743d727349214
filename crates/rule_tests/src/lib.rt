//! Tests of rules: short texts with their first fault or their canonical text, worked out by hand.
//!
//! Means: nothing; it has tests alone, apart from the crate that they try, since the tests of a
//! crate have it proved a second time.
//!
//! Stands on: `rule_lang`.
//!
//! Promises: what each test asks.
//!
//! Leaves open: all that no row speaks of.
#![tactic(auto)]

#[cfg(test)]
mod meaning_rows;
#[cfg(test)]
mod printed_rows;
#[cfg(test)]
mod rows;
#[cfg(test)]
mod sample_rows;
#[cfg(test)]
mod sample_tests;
#[cfg(test)]
mod syntax_rows;
#[cfg(test)]
mod tests;
#[cfg(test)]
mod text_tests;
