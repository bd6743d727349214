//! What a change sees of a desk.
use reg_base::{Date, Document};

/// What a change sees of the documents and their dates.
#[derive(Drop)]
pub struct Sight<'a> {
    /// The document that the change names.
    pub before: Option<&'a Document>,
    /// The document that has the key which the change gives.
    pub holder: Option<u32>,
    /// The date before which the books are closed.
    pub closed: Date,
    /// The number that is drawn for a new document, and 0 where one is named.
    pub drawn: u32,
}
