//! How a row of a table is asked for.
use std::fmt::Display;
use std::process::Abort;

// Asks that the row is as it says, and names it where it is not.
pub(crate) fn expect(rt: &impl Abort, row: &impl Display, is_right: bool) {
    assert!(rt; is_right, "at {row}");
}
