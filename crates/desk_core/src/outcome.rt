//! What a request comes to, before anything is changed.
ghost use Rattle.std.specs.Prelude.{◌≡◌, ◌++◌, ◌∷◌, [], None, Some, IfOk};
ghost use Rattle.desk_words.specs.ReplyTexts.{HasScales, reply_text};
ghost use Rattle.desk_core.specs.declared.outcome.Outcome.TheVariants.{Replies};

use desk_words::{Acknowledgement, Answer, Refusal, Reply};
use post_journal::Payload;
use reg_base::{Date, Document, Memory};
use std::alloc::Global;

/// What is left to be done to a desk.
#[derive(Drop)]
pub enum Change {
    /// A document is put in the place of its number.
    Put(Document),
    /// The document of this number is removed.
    Remove(u32),
    /// The books are closed before this date.
    Close(Date),
}

/// What a request comes to.
#[derive(Drop)]
pub enum Outcome {
    /// A reply, and nothing changes.
    Replies(Reply),
    /// A change, and what it is acknowledged with.
    Changes {
        change: Change,
        acknowledgement: Acknowledgement,
    },
}

/// What is left to be committed of a request: a change, what it is acknowledged with, and the text
/// of the journal's entry.
#[derive(Drop)]
pub struct Entry {
    pub change: Change,
    pub acknowledgement: Acknowledgement,
    pub text: Payload,
}

/// A reply with its text, and what is left to be committed: all that a commit needs besides its
/// room.
#[derive(Drop)]
pub struct Prepared {
    pub reply: Reply,
    /// The reply's text with a line feed.
    pub text: Vec<u8>,
    pub entry: Option<Entry>,
}

pub(crate) fn refusal_outcome(refusal: Refusal) -> Outcome
    ensures { result ≡ Replies (Reply.Refused refusal) }
{
    Outcome::Replies(Reply::Refused(refusal))
}

// The books are to be closed before a date.
pub(crate) fn close_outcome(date: Date) -> Outcome
    ensures { result ≡ Outcome.Changes (Change.Close date) (Acknowledgement.Closed date) }
{
    Outcome::Changes {
        change: Change::Close(date),
        acknowledgement: Acknowledgement::Closed { date },
    }
}

// A document is to be removed.
pub(crate) fn removal_outcome(number: u32) -> Outcome
    ensures { result ≡ Outcome.Changes (Change.Remove number) (Acknowledgement.Swept number) }
{
    Outcome::Changes {
        change: Change::Remove(number),
        acknowledgement: Acknowledgement::Swept { doc: number },
    }
}

// A document that was made is to be put, and its change is acknowledged by how it stands.
pub(crate) fn document_outcome(document: Document) -> Outcome
    ensures { result ≡ Outcome.Changes (Change.Put document)
        (Acknowledgement.Document document.doc.active document.doc.number document.doc.state) }
{
    let doc = &document.doc;
    let acknowledgement = Acknowledgement::Document {
        active: doc.active,
        doc: doc.number,
        state: doc.state,
    };
    Outcome::Changes {
        change: Change::Put(document),
        acknowledgement,
    }
}

// A reply with its text, which changes nothing.
pub(crate) fn prepare_reply(alloc: Global, reply: Reply) -> Result<Prepared, Memory>
    requires { HasScales reply }
    ensures reply { IfOk result (λ prepared. prepared.reply ≡ reply) }
    ensures text { IfOk result (λ prepared. prepared.text.items ≡ reply_text reply ++ 10 ∷ []) }
    ensures entry { IfOk result (λ prepared. prepared.entry ≡ None) }
{
    let text = reply_line(alloc, &reply)?;
    Ok(Prepared {
        reply,
        text,
        entry: None,
    })
}

// A change with the text of its acknowledgement, and that of its entry.
pub(crate) fn prepare_change(
    alloc: Global,
    change: Change,
    acknowledgement: &Acknowledgement,
    entry: Payload,
) -> Result<Prepared, Memory>
    ensures reply { IfOk result
        (λ prepared. prepared.reply ≡ Reply.Done (Answer.Acknowledged acknowledgement.now)) }
    ensures text { IfOk result
        (λ prepared. prepared.text.items ≡ reply_text prepared.reply ++ 10 ∷ []) }
    ensures entry { IfOk result (λ prepared. prepared.entry ≡ Some (record {
      change = change;
      acknowledgement = acknowledgement.now;
      text = entry;
    })) }
{
    let reply = Reply::Done(Answer::Acknowledged(*acknowledgement));
    let Prepared {
        reply,
        text,
        entry: _,
    } = prepare_reply(alloc, reply)?;
    Ok(Prepared {
        reply,
        text,
        entry: Some(Entry {
            change,
            acknowledgement: *acknowledgement,
            text: entry,
        }),
    })
}

// The text of a reply with a line feed.
pub(crate) fn reply_line(alloc: Global, reply: &Reply) -> Result<Vec<u8>, Memory>
    requires { HasScales reply.now }
    ensures { IfOk result (λ text. text.items ≡ reply_text reply.now ++ 10 ∷ []) }
{
    let mut text = Vec::new(alloc);
    reply.print(alloc, &mut text)?;
    text.push(b'\n')?;
    Ok(text)
}
