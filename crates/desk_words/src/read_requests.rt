//! Each request from its members, read in their order.
ghost use Rattle.serde_json.specs.View.{members_view};
ghost use Rattle.reg_base.specs.Results.{Gives};
ghost use Rattle.desk_words.specs.declared.fault.WordFault.TheVariants.{Memory};
ghost use Rattle.desk_words.specs.ReadRequests.{key_beside, heading_of, write_request};
ghost use Rattle.desk_words.specs.ReadRequests.{switch_request};
ghost use Rattle.desk_words.specs.ReadRequests.{manual_request, close_request, sweep_request};
ghost use Rattle.desk_words.specs.ReadRequests.{doc_question, standing_document};
ghost use Rattle.desk_words.specs.ReadRequests.{standing_post};

use crate::fault::{Member, WordFault};
use crate::members::{content_members, first_present};
use crate::parsed::Object;
use crate::request::{Close, DocQuestion, Manual, StandingDocument, Sweep, Switch, Write};
use crate::shapes::{read_member, read_optional};
use reg_base::{Code, Name};
use std::alloc::Global;

// The key of a document. Only a new document is given one, so that a key beside a number is
// refused.
#[tactic(auto, unfolding(crate::specs::ReadRequests::key_beside))]
fn key_beside(alloc: Global, doc: &Option<u32>, object: &Object) -> Result<Option<Code>, WordFault>
    ensures { Gives Memory result (key_beside doc.now (members_view object.now.entries)) }
{
    let key = read_optional(alloc, Member::Key, object)?;
    if doc.is_some() && key.is_some() {
        return Err(WordFault::BadMember {
            member: Member::Key,
        });
    }
    Ok(key)
}

// Whose request it is, and which document it makes or replaces.
#[derive(Clone, Copy)]
struct Heading {
    clerk: Name,
    no: u32,
    doc: Option<u32>,
    key: Option<Code>,
}

#[tactic(auto, unfolding(crate::specs::ReadRequests::heading_of))]
fn heading_of(alloc: Global, object: &Object) -> Result<Heading, WordFault>
    ensures { Gives Memory result (heading_of (members_view object.now.entries)) }
{
    let clerk = read_member(alloc, Member::Clerk, object)?;
    let no = read_member(alloc, Member::No, object)?;
    let doc = read_optional(alloc, Member::Doc, object)?;
    let key = key_beside(alloc, &doc, object)?;
    Ok(Heading {
        clerk,
        no,
        doc,
        key,
    })
}

#[tactic(auto, unfolding(crate::specs::ReadRequests::write_request))]
pub(crate) fn write_request(alloc: Global, object: &Object) -> Result<Write, WordFault>
    ensures { Gives Memory result (write_request (members_view object.now.entries)) }
{
    let given = heading_of(alloc, object)?;
    let kind = read_member(alloc, Member::Kind, object)?;
    let date = read_member(alloc, Member::Date, object)?;
    let head = read_member(alloc, Member::Head, object)?;
    let lines = read_member(alloc, Member::Lines, object)?;
    let comment = read_optional(alloc, Member::Comment, object)?;
    Ok(Write {
        clerk: given.clerk,
        no: given.no,
        doc: given.doc,
        key: given.key,
        kind,
        date,
        head,
        lines,
        comment,
        tx: None,
    })
}

#[tactic(auto, unfolding(crate::specs::ReadRequests::standing_document))]
pub(crate) fn standing_document(
    alloc: Global,
    object: &Object,
) -> Result<StandingDocument, WordFault>
    ensures { Gives Memory result (standing_document (members_view object.now.entries)) }
{
    let clerk = read_member(alloc, Member::Clerk, object)?;
    let no = read_member(alloc, Member::No, object)?;
    let doc = read_member(alloc, Member::Doc, object)?;
    Ok(StandingDocument {
        clerk,
        no,
        doc,
        tx: None,
    })
}

// A document to be posted as it stands: no member of content may be there.
#[tactic(auto, unfolding(crate::specs::ReadRequests::standing_post))]
pub(crate) fn standing_post(alloc: Global, object: &Object) -> Result<StandingDocument, WordFault>
    ensures { Gives Memory result (standing_post (members_view object.now.entries)) }
{
    let standing = standing_document(alloc, object)?;
    match first_present(content_members(), object) {
        Some(member) => Err(WordFault::BadMember { member }),
        None => Ok(standing),
    }
}

#[tactic(auto, unfolding(crate::specs::ReadRequests::switch_request))]
pub(crate) fn switch_request(alloc: Global, object: &Object) -> Result<Switch, WordFault>
    ensures { Gives Memory result (switch_request (members_view object.now.entries)) }
{
    let standing = standing_document(alloc, object)?;
    let on = read_member(alloc, Member::On, object)?;
    Ok(Switch {
        clerk: standing.clerk,
        no: standing.no,
        doc: standing.doc,
        on,
        tx: None,
    })
}

#[tactic(auto, unfolding(crate::specs::ReadRequests::manual_request))]
pub(crate) fn manual_request(alloc: Global, object: &Object) -> Result<Manual, WordFault>
    ensures { Gives Memory result (manual_request (members_view object.now.entries)) }
{
    let given = heading_of(alloc, object)?;
    let date = read_member(alloc, Member::Date, object)?;
    let sets = read_member(alloc, Member::Sets, object)?;
    let comment = read_optional(alloc, Member::Comment, object)?;
    Ok(Manual {
        clerk: given.clerk,
        no: given.no,
        doc: given.doc,
        key: given.key,
        date,
        sets,
        comment,
        tx: None,
    })
}

#[tactic(auto, unfolding(crate::specs::ReadRequests::close_request))]
pub(crate) fn close_request(alloc: Global, object: &Object) -> Result<Close, WordFault>
    ensures { Gives Memory result (close_request (members_view object.now.entries)) }
{
    let clerk = read_member(alloc, Member::Clerk, object)?;
    let no = read_member(alloc, Member::No, object)?;
    let date = read_member(alloc, Member::Date, object)?;
    Ok(Close { clerk, no, date })
}

#[tactic(auto, unfolding(crate::specs::ReadRequests::sweep_request))]
pub(crate) fn sweep_request(alloc: Global, object: &Object) -> Result<Sweep, WordFault>
    ensures { Gives Memory result (sweep_request (members_view object.now.entries)) }
{
    let standing = standing_document(alloc, object)?;
    Ok(Sweep {
        clerk: standing.clerk,
        no: standing.no,
        doc: standing.doc,
    })
}

#[tactic(auto, unfolding(crate::specs::ReadRequests::doc_question))]
pub(crate) fn doc_question(alloc: Global, object: &Object) -> Result<DocQuestion, WordFault>
    ensures { Gives Memory result (doc_question (members_view object.now.entries)) }
{
    let clerk = read_member(alloc, Member::Clerk, object)?;
    let doc = read_member(alloc, Member::Doc, object)?;
    Ok(DocQuestion {
        clerk,
        doc,
        tx: None,
    })
}
