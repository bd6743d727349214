//! A line of input.
use crate::list::List;

/// A line.
#[derive(Debug, Drop)]
pub enum Line {
    /// Its bytes without the line feed and without one carriage return before it.
    Text { bytes: List<u8> },
    /// The line has more bytes than a line may have, so many without its line feed, and was
    /// skipped.
    TooLong { bytes: u64 },
}
