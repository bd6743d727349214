//! Requests about documents as JSON: each with the members that are never absent in byte order, and
//! then those that may be.
ghost use Rattle.std.specs.Prelude.{◌≡◌, IfOk, OnOk};
ghost use Rattle.serde_json.specs.View.{members_view};
ghost use Rattle.desk_words.specs.RequestTexts.{put_optional, write_frame, write_members};
ghost use Rattle.desk_words.specs.RequestTexts.{standing_members, post_members, switch_members};
ghost use Rattle.desk_words.specs.RequestTexts.{manual_frame, manual_members, close_members};
ghost use Rattle.desk_words.specs.RequestTexts.{sweep_members, doc_members};

use crate::json_values::{put_some, put_text, put_value};
use crate::parsed::Object;
use crate::request::{Close, DocQuestion, Manual, Post, StandingDocument, Sweep, Switch, Write};
use reg_base::{Code, Comment, Memory};
use std::alloc::Global;

#[tactic(auto, unfolding(crate::specs::RequestTexts::write_members))]
pub(crate) fn write_members(alloc: Global, op: &str, write: &Write) -> Result<Object, Memory>
    ensures { IfOk result (λ m. members_view m.entries ≡ write_members op.now write.now) }
{
    let mut members = write_frame(alloc, op, write)?;
    put_optional(
        alloc,
        &mut members,
        &write.doc,
        &write.key,
        &write.comment,
        &write.tx,
    )?;
    Ok(members)
}

// Puts what a document may have among the members.
fn put_optional(
    alloc: Global,
    members: &mut Object,
    doc: &Option<u32>,
    key: &Option<Code>,
    comment: &Option<Comment>,
    tx: &Option<u8>,
) -> Result<(), Memory>
    ensures { OnOk result (members_view members.new.entries
        ≡ put_optional doc.now key.now comment.now tx.now (members_view members.old.entries)) }
{
    put_some(alloc, members, "doc", doc)?;
    put_some(alloc, members, "key", key)?;
    put_some(alloc, members, "comment", comment)?;
    put_some(alloc, members, "tx", tx)
}

// The members that are never absent.
#[tactic(auto, unfolding(crate::specs::RequestTexts::write_frame))]
fn write_frame(alloc: Global, op: &str, write: &Write) -> Result<Object, Memory>
    ensures { IfOk result (λ m. members_view m.entries ≡ write_frame op.now write.now) }
{
    let mut members = Object::new(alloc);
    put_value(alloc, &mut members, "clerk", &write.clerk)?;
    put_value(alloc, &mut members, "date", &write.date)?;
    put_value(alloc, &mut members, "head", &write.head)?;
    put_value(alloc, &mut members, "kind", &write.kind)?;
    put_value(alloc, &mut members, "lines", &write.lines)?;
    put_value(alloc, &mut members, "no", &write.no)?;
    put_text(alloc, &mut members, "op", op)?;
    Ok(members)
}

pub(crate) fn post_members(alloc: Global, post: &Post) -> Result<Object, Memory>
    ensures { IfOk result (λ m. members_view m.entries ≡ post_members post.now) }
{
    match post {
        Post::Content(write) => write_members(alloc, "post", write),
        Post::Standing(standing) => standing_members(alloc, "post", standing),
    }
}

#[tactic(auto, unfolding(crate::specs::RequestTexts::standing_members))]
pub(crate) fn standing_members(
    alloc: Global,
    op: &str,
    standing: &StandingDocument,
) -> Result<Object, Memory>
    ensures { IfOk result (λ m. members_view m.entries ≡ standing_members op.now standing.now) }
{
    let mut members = Object::new(alloc);
    put_value(alloc, &mut members, "clerk", &standing.clerk)?;
    put_value(alloc, &mut members, "doc", &standing.doc)?;
    put_value(alloc, &mut members, "no", &standing.no)?;
    put_text(alloc, &mut members, "op", op)?;
    put_some(alloc, &mut members, "tx", &standing.tx)?;
    Ok(members)
}

#[tactic(auto, unfolding(crate::specs::RequestTexts::switch_members))]
pub(crate) fn switch_members(alloc: Global, op: &str, switch: &Switch) -> Result<Object, Memory>
    ensures { IfOk result (λ m. members_view m.entries ≡ switch_members op.now switch.now) }
{
    let mut members = Object::new(alloc);
    put_value(alloc, &mut members, "clerk", &switch.clerk)?;
    put_value(alloc, &mut members, "doc", &switch.doc)?;
    put_value(alloc, &mut members, "no", &switch.no)?;
    put_value(alloc, &mut members, "on", &switch.on)?;
    put_text(alloc, &mut members, "op", op)?;
    put_some(alloc, &mut members, "tx", &switch.tx)?;
    Ok(members)
}

#[tactic(auto, unfolding(crate::specs::RequestTexts::manual_members))]
pub(crate) fn manual_members(alloc: Global, manual: &Manual) -> Result<Object, Memory>
    ensures { IfOk result (λ m. members_view m.entries ≡ manual_members manual.now) }
{
    let mut members = manual_frame(alloc, manual)?;
    put_optional(
        alloc,
        &mut members,
        &manual.doc,
        &manual.key,
        &manual.comment,
        &manual.tx,
    )?;
    Ok(members)
}

// The members that are never absent.
#[tactic(auto, unfolding(crate::specs::RequestTexts::manual_frame))]
fn manual_frame(alloc: Global, manual: &Manual) -> Result<Object, Memory>
    ensures { IfOk result (λ m. members_view m.entries ≡ manual_frame manual.now) }
{
    let mut members = Object::new(alloc);
    put_value(alloc, &mut members, "clerk", &manual.clerk)?;
    put_value(alloc, &mut members, "date", &manual.date)?;
    put_value(alloc, &mut members, "no", &manual.no)?;
    put_text(alloc, &mut members, "op", "manual")?;
    put_value(alloc, &mut members, "sets", &manual.sets)?;
    Ok(members)
}

#[tactic(auto, unfolding(crate::specs::RequestTexts::close_members))]
pub(crate) fn close_members(alloc: Global, close: &Close) -> Result<Object, Memory>
    ensures { IfOk result (λ m. members_view m.entries ≡ close_members close.now) }
{
    let mut members = Object::new(alloc);
    put_value(alloc, &mut members, "clerk", &close.clerk)?;
    put_value(alloc, &mut members, "date", &close.date)?;
    put_value(alloc, &mut members, "no", &close.no)?;
    put_text(alloc, &mut members, "op", "close")?;
    Ok(members)
}

#[tactic(auto, unfolding(crate::specs::RequestTexts::sweep_members))]
pub(crate) fn sweep_members(alloc: Global, sweep: &Sweep) -> Result<Object, Memory>
    ensures { IfOk result (λ m. members_view m.entries ≡ sweep_members sweep.now) }
{
    let mut members = Object::new(alloc);
    put_value(alloc, &mut members, "clerk", &sweep.clerk)?;
    put_value(alloc, &mut members, "doc", &sweep.doc)?;
    put_value(alloc, &mut members, "no", &sweep.no)?;
    put_text(alloc, &mut members, "op", "sweep")?;
    Ok(members)
}

#[tactic(auto, unfolding(crate::specs::RequestTexts::doc_members))]
pub(crate) fn doc_members(alloc: Global, doc: &DocQuestion) -> Result<Object, Memory>
    ensures { IfOk result (λ m. members_view m.entries ≡ doc_members doc.now) }
{
    let mut members = Object::new(alloc);
    put_value(alloc, &mut members, "clerk", &doc.clerk)?;
    put_value(alloc, &mut members, "doc", &doc.doc)?;
    put_text(alloc, &mut members, "op", "doc")?;
    put_some(alloc, &mut members, "tx", &doc.tx)?;
    Ok(members)
}
