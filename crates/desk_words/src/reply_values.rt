//! Replies as JSON.
ghost use Rattle.std.specs.Prelude.{◌≡◌, IfOk};
ghost use Rattle.serde_json.specs.View.{view};
ghost use Rattle.desk_words.specs.ReplyTexts.{AnswerHasScales, HasScales};
ghost use Rattle.desk_words.specs.ReplyTexts.{document_data, acknowledgement_data, shown_data};
ghost use Rattle.desk_words.specs.ReplyTexts.{answer_data, reply_data};

use crate::json_values::{ToJson, one_member, put_text, put_value};
use crate::parsed::Object;
use crate::refusal_values::refusal_value;
use crate::reply::{Acknowledgement, Answer, Reply, ShownDocument, state_name};
use crate::row_parts::kind_name;
use crate::row_values::{
    AccountTable, RegisterTable, account_table, document_table, pair_table, register_table,
    sum_table, turnovers_table,
};
use reg_base::{DocState, Memory};
use serde_json::Value as Json;
use std::alloc::Global;

// A reply as JSON.
#[tactic(auto, unfolding(crate::specs::ReplyTexts::reply_data))]
pub(crate) fn reply_value(alloc: Global, reply: &Reply) -> Result<Json, Memory>
    requires { HasScales reply.now }
    ensures { IfOk result (λ v. view v ≡ reply_data reply.now) }
{
    match reply {
        Reply::Done(answer) => one_member(alloc, "ok", answer_value(alloc, answer)?),
        Reply::Refused(refusal) => one_member(alloc, "refused", refusal_value(alloc, refusal)?),
    }
}

#[tactic(auto, unfolding(crate::specs::ReplyTexts::answer_data))]
fn answer_value(alloc: Global, answer: &Answer) -> Result<Json, Memory>
    requires { AnswerHasScales answer.now }
    ensures { IfOk result (λ v. view v ≡ answer_data answer.now) }
{
    match answer {
        Answer::Acknowledged(acknowledgement) => acknowledgement_value(alloc, *acknowledgement),
        Answer::Balance { rows, scales } => { sum_table(alloc, rows.as_slice(), scales.as_slice()) }
        Answer::Shown(shown) => shown_value(alloc, shown),
        Answer::Turnovers {
            balances,
            rows,
            scales,
        } => register_table(
            alloc,
            turnovers_table(*balances),
            rows.as_slice(),
            scales.as_slice(),
        ),
        Answer::Both { rows, scales } => register_table(
            alloc,
            RegisterTable::Both,
            rows.as_slice(),
            scales.as_slice(),
        ),
        Answer::AccountBalance { rows, scale } => {
            account_table(alloc, AccountTable::Balance, rows.as_slice(), *scale)
        }
        Answer::AccountTurnovers { rows, scale } => {
            account_table(alloc, AccountTable::Turnovers, rows.as_slice(), *scale)
        }
        Answer::AccountBoth { rows, scale } => {
            account_table(alloc, AccountTable::Both, rows.as_slice(), *scale)
        }
        Answer::DrCr { rows, scale } => pair_table(alloc, rows.as_slice(), *scale),
        Answer::Documents { rows } => document_table(alloc, rows.as_slice()),
    }
}

fn acknowledgement_value(alloc: Global, acknowledgement: Acknowledgement) -> Result<Json, Memory>
    ensures { IfOk result (λ v. view v ≡ acknowledgement_data acknowledgement) }
{
    match acknowledgement {
        Acknowledgement::Document { active, doc, state } => {
            document_value(alloc, active, doc, state)
        }
        Acknowledgement::Closed { date } => one_member(alloc, "closed", date.to_json(alloc)?),
        Acknowledgement::Swept { doc } => one_member(alloc, "doc", Json::from(doc)),
    }
}

#[tactic(auto, unfolding(crate::specs::ReplyTexts::document_data))]
fn document_value(alloc: Global, active: bool, doc: u32, state: DocState) -> Result<Json, Memory>
    ensures { IfOk result (λ v. view v ≡ document_data active doc state) }
{
    let mut members = Object::new(alloc);
    put_value(alloc, &mut members, "active", &active)?;
    put_value(alloc, &mut members, "doc", &doc)?;
    put_text(alloc, &mut members, "state", state_name(state))?;
    Ok(Json::Object(members))
}

#[tactic(auto, unfolding(crate::specs::ReplyTexts::shown_data))]
fn shown_value(alloc: Global, shown: &ShownDocument) -> Result<Json, Memory>
    ensures { IfOk result (λ v. view v ≡ shown_data shown.now) }
{
    let mut members = Object::new(alloc);
    put_value(alloc, &mut members, "active", &shown.active)?;
    put_value(alloc, &mut members, "comment", &shown.comment)?;
    put_value(alloc, &mut members, "date", &shown.date)?;
    put_value(alloc, &mut members, "doc", &shown.doc)?;
    put_value(alloc, &mut members, "head", &shown.head)?;
    put_value(alloc, &mut members, "key", &shown.key)?;
    put_text(alloc, &mut members, "kind", kind_name(&shown.kind))?;
    put_value(alloc, &mut members, "lines", &shown.lines)?;
    put_value(alloc, &mut members, "sets", &shown.sets)?;
    put_text(alloc, &mut members, "state", state_name(shown.state))?;
    Ok(Json::Object(members))
}
