//! How a request is run.

/// How a request is run.
#[derive(Drop)]
pub enum Way {
    /// As one that is made now, whose entry in the journal has so many bytes.
    Served { entry: usize },
    /// As a command of the journal, with the number that was drawn for its document, or 0.
    Replayed { number: u32 },
}
