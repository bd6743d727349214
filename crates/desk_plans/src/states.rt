//! What a change asks of the document that it names, of its key, and of its dates.
ghost use Rattle.std.specs.Prelude.{◌≡◌, nat_le};
ghost use Rattle.std.specs.Option.{option_copied};
ghost use Rattle.reg_base.specs.Results.{unless, some_or};
ghost use Rattle.desk_words.specs.declared.reply.Refusal.TheVariants.{UnknownDoc, WrongState};
ghost use Rattle.desk_words.specs.declared.reply.Refusal.TheVariants.{Closed};
ghost use Rattle.desk_model.specs.States.{named_is_seen as named_is_seen_in, takes};
ghost use Rattle.desk_model.specs.States.{key_is_free as key_is_free_of};
ghost use Rattle.desk_model.specs.States.{dates_are_open as are_open};
ghost use Rattle.desk_model.specs.States.{number_with as number_in, key_with as key_in};
ghost use Rattle.desk_model.specs.States.{is_posted_manual as is_posted_manual_doc};
ghost use Rattle.desk_model.specs.States.{is_marked as is_marked_state};
ghost use Rattle.desk_model.specs.Writes.{is_written_kind as is_written_kind_doc};
ghost use Rattle.desk_model.specs.Posts.{is_unmarked_kind as is_unmarked_kind_doc};
ghost use Rattle.desk_model.specs.Posts.{is_posted_kind as is_posted_kind_doc};
ghost use Rattle.desk_plans.specs.Sights.{sight_view};
ghost use Rattle.reg_base.specs.Tries.{Tries, TriesAs};

use crate::sight::Sight;
use crate::tried::{PartFault, Tried};
use desk_words::Refusal;
use reg_base::{Code, Date, Doc, DocState, Document};

// A document that is named is seen.
pub(crate) fn named_is_seen(doc: Option<u32>, sight: &Sight<'_>) -> Tried<()>
    ensures { Tries result (named_is_seen_in doc (sight_view sight.now).before) }
{
    if doc.is_some() && sight.before.is_none() {
        return Err(PartFault::Refused(Refusal::UnknownDoc));
    }
    Ok(())
}

// The document that a change of one has to see.
pub(crate) fn seen_document<'a>(sight: &Sight<'a>) -> Tried<&'a Document>
    ensures { TriesAs (λ d. d.now) result (some_or (sight_view sight.now).before UnknownDoc) }
{
    match sight.before {
        Some(document) => Ok(document),
        None => Err(PartFault::Refused(Refusal::UnknownDoc)),
    }
}

// A document that was there is a written one of a type.
pub(crate) fn takes_written(sight: &Sight<'_>) -> Tried<()>
    ensures { Tries result (takes is_written_kind_doc (sight_view sight.now).before) }
{
    match sight.before {
        Some(document) => is_taken(is_written_kind(&document.doc), &document.doc),
        None => Ok(()),
    }
}

// A document that was there is a written or posted one of a type.
pub(crate) fn takes_unmarked(sight: &Sight<'_>) -> Tried<()>
    ensures { Tries result (takes is_unmarked_kind_doc (sight_view sight.now).before) }
{
    match sight.before {
        Some(document) => is_taken(is_unmarked_kind(&document.doc), &document.doc),
        None => Ok(()),
    }
}

// A document that was there is a posted one of records that were given by hand.
pub(crate) fn takes_posted_manual(sight: &Sight<'_>) -> Tried<()>
    ensures { Tries result (takes is_posted_manual_doc (sight_view sight.now).before) }
{
    match sight.before {
        Some(document) => is_taken(is_posted_manual(&document.doc), &document.doc),
        None => Ok(()),
    }
}

// The document is one that the change takes, as a test of it says.
pub(crate) fn is_taken(test: bool, doc: &Doc) -> Tried<()>
    ensures { Tries result (unless test (WrongState doc.now.state)) }
{
    if !test {
        return Err(PartFault::Refused(Refusal::WrongState { state: doc.state }));
    }
    Ok(())
}

// Whether a document is a written one of a type.
fn is_written_kind(doc: &Doc) -> bool
    ensures { result ≡ is_written_kind_doc doc.now }
{
    doc.state == DocState::Written && doc.kind.is_some()
}

// Whether a document is a written or posted one of a type.
pub(crate) fn is_unmarked_kind(doc: &Doc) -> bool
    ensures { result ≡ is_unmarked_kind_doc doc.now }
{
    !is_marked(doc.state) && doc.kind.is_some()
}

// Whether a document is a posted one of a type.
pub(crate) fn is_posted_kind(doc: &Doc) -> bool
    ensures { result ≡ is_posted_kind_doc doc.now }
{
    doc.state == DocState::Posted && doc.kind.is_some()
}

// Whether a document is marked for deletion.
pub(crate) fn is_marked(state: DocState) -> bool
    ensures { result ≡ is_marked_state state }
{
    state == DocState::Marked
}

// Whether a document is a posted one of records that were given by hand.
pub(crate) fn is_posted_manual(doc: &Doc) -> bool
    ensures { result ≡ is_posted_manual_doc doc.now }
{
    doc.state == DocState::Posted && doc.kind.is_none()
}

// The key that a new document gives is no other document's.
pub(crate) fn key_is_free(sight: &Sight<'_>) -> Tried<()>
    ensures { Tries result (key_is_free_of sight.now.holder) }
{
    match sight.holder {
        Some(doc) => Err(PartFault::Refused(Refusal::KeyTaken { doc })),
        None => Ok(()),
    }
}

// Neither the date that a document had nor the one that it gets is before the closed date.
pub(crate) fn dates_are_open(sight: &Sight<'_>, date: Date) -> Tried<()>
    ensures { Tries result (are_open sight.now.closed (sight_view sight.now).before date) }
{
    match sight.before {
        Some(document) => date_is_open(sight.closed, document.doc.date.min(date)),
        None => date_is_open(sight.closed, date),
    }
}

// The date is not before the closed date.
pub(crate) fn date_is_open(closed: Date, date: Date) -> Tried<()>
    ensures { Tries result (unless (nat_le closed date) (Closed closed)) }
{
    if date < closed {
        return Err(PartFault::Refused(Refusal::Closed { date: closed }));
    }
    Ok(())
}

// A document keeps its number, and a new one has the drawn one.
pub(crate) fn number_with(sight: &Sight<'_>) -> u32
    ensures { result ≡ number_in (sight_view sight.now) }
{
    match sight.before {
        Some(document) => document.doc.number,
        None => sight.drawn,
    }
}

// A document keeps its key, and a new one has the one that is given.
pub(crate) fn key_with(key: &Option<Code>, sight: &Sight<'_>) -> Option<Code>
    ensures { result ≡ key_in key.now (sight_view sight.now).before }
{
    match sight.before {
        Some(document) => document.doc.key,
        None => *key,
    }
}
