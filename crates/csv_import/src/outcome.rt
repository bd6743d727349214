//! What becomes of a group of a file.
ghost use Rattle.std.specs.Prelude.{◌≡◌};
ghost use Rattle.csv_import.specs.Imports.{acknowledged_document as acknowledged_document_of};
ghost use Rattle.csv_import.specs.Imports.{renumbered as renumbered_of};
ghost use Rattle.csv_import.specs.Imports.{sent_outcome as sent_outcome_of};

use desk_words::{Acknowledgement, Answer, Post, Reply, Request};

/// What becomes of a group.
#[derive(Clone, Copy, Debug, PartialEq, Eq)]
pub enum Outcome {
    /// Its document was posted, under this number.
    Posted(u32),
    /// A document of this number has its key already.
    There(u32),
    /// The desk refused it: the number of the refusal.
    Refused(u64),
}

// The request of a group under another number.
pub(crate) fn renumbered(number: u32, request: Request) -> Request
    ensures { result ≡ renumbered_of number request }
{
    match request {
        Request::Post(Post::Content(content)) => {
            let mut content = content;
            content.no = number;
            Request::Post(Post::Content(content))
        }
        request => request,
    }
}

// What a reply says of a group that was sent.
pub(crate) fn sent_outcome(reply: &Reply) -> Outcome
    ensures { result ≡ sent_outcome_of reply.now }
{
    match reply {
        Reply::Done(answer) => Outcome::Posted(acknowledged_document(answer)),
        Reply::Refused(refusal) => Outcome::Refused(refusal.number()),
    }
}

// The document that is acknowledged, and 0 where the answer is of another request.
fn acknowledged_document(answer: &Answer) -> u32
    ensures { result ≡ acknowledged_document_of answer.now }
{
    match answer {
        Answer::Acknowledged(Acknowledgement::Document { doc, .. }) => *doc,
        _ => 0,
    }
}
