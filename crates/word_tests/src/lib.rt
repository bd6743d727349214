//! Tests of requests and replies: lines with what is told of them, byte by byte.
//!
//! Means: nothing; it has tests alone, apart from the crate that they try, since the tests of a
//! crate have it proved a second time.
//!
//! Stands on: `desk_words`.
//!
//! Promises: what each test asks.
//!
//! Leaves open: all that no row speaks of.
#![tactic(auto)]

#[cfg(test)]
mod document_tests;
#[cfg(test)]
mod post_tests;
#[cfg(test)]
mod print_tests;
#[cfg(test)]
mod reply_tests;
#[cfg(test)]
mod row_tests;
#[cfg(test)]
mod rows;
#[cfg(test)]
mod shown_tests;
#[cfg(test)]
mod table_tests;
#[cfg(test)]
mod tests;
