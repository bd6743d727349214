//! Tests of the run that only code can make: calls that fail, and inputs in pieces.
//! What lines and files are answered is tested with the program, by the rows of `examples/rows`.
//!
//! Means: nothing; it has tests alone, apart from the crates that they try, since the tests of a
//! crate have it proved a second time.
//!
//! Stands on: `desk_run` and the crates below it.
//!
//! Promises: what each test asks.
//!
//! Leaves open: all that no row speaks of.
#![tactic(auto)]

#[cfg(test)]
mod failing_tests;
#[cfg(test)]
mod shop;
#[cfg(test)]
mod stop_tests;
