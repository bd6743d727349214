//! A document that a file asks to post.
use desk_words::Request;
use reg_base::Code;

/// The rows of one key: a document to post.
#[derive(Drop)]
pub struct Group {
    pub key: Code,
    /// It posts the document, for the clerk `batch` and under the number 1.
    pub request: Request,
}
