//! What is staged in a slot.
use reg_base::Document;

/// A change that is not committed yet.
#[derive(Drop)]
pub enum Staged {
    /// A document that is put, or stands in the place of the one with its number.
    Put(Document),
    /// The number of a document that is removed.
    Removal(u32),
}
