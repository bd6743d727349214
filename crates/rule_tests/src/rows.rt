//! How a row of a table is asked for.
use std::process::Abort;

// Texts, each with what is told of it.
pub(crate) type Rows = &'static [(&'static str, &'static str)];

// Asks that this was told of a row; none was where memory is wanted.
pub(crate) fn expect(rt: &impl Abort, row: &str, told: Option<String>, wanted: &str) {
    match told {
        Some(told) => assert_eq!(rt; told.as_str(), wanted, "{row}"),
        None => panic!(rt; "nothing was told of {row}"),
    }
}
