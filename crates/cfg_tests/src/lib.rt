//! Tests of the configuration: files with what is told of them, worked out by hand.
//!
//! Means: nothing; it has tests alone, apart from the crate that they try, since the tests of a
//! crate have it proved a second time.
//!
//! Stands on: `cfg_model`.
//!
//! Promises: what each test asks.
//!
//! Leaves open: all that no row speaks of.
#![tactic(auto)]

#[cfg(test)]
mod rows;
#[cfg(test)]
mod test_files;
#[cfg(test)]
mod test_shop;
#[cfg(test)]
mod test_told;
#[cfg(test)]
mod tests;
