//! Requests as JSON.
ghost use Rattle.std.specs.Prelude.{◌≡◌, Some, map, IfOk};
ghost use Rattle.serde_json.specs.Data.{array};
ghost use Rattle.serde_json.specs.View.{view, items_of};
ghost use Rattle.desk_words.specs.JsonValues.{texts_data};
ghost use Rattle.desk_words.specs.RequestTexts.{mark_name as mark_name_of, side_data};
ghost use Rattle.desk_words.specs.RequestTexts.{register_data, ledger_data, record_data, set_data};
ghost use Rattle.desk_words.specs.RequestTexts.{sets_data, request_data};

use crate::command_values::{
    close_members, doc_members, manual_members, post_members, standing_members, sweep_members,
    switch_members, write_members,
};
use crate::json_values::{ToJson, array_value, push_items, put_text, put_value, text};
use crate::parsed::Object;
use crate::request::{LedgerText, RecordText, RegisterText, Request, SetText};
use crate::table_values::{
    account_balance_members, account_turnovers_members, balance_members, both_members,
    documents_members, dr_cr_members, turnovers_members,
};
use reg_base::{List, Mark, Memory, Side};
use serde_json::Value as Json;
use std::alloc::Global;

// A request as JSON.
#[tactic(auto, unfolding(crate::specs::RequestTexts::request_data))]
pub(crate) fn request_value(alloc: Global, request: &Request) -> Result<Json, Memory>
    ensures { IfOk result (λ v. view v ≡ request_data request.now) }
{
    match request {
        Request::Write(write) => Ok(Json::Object(write_members(alloc, "write", write)?)),
        Request::Mark(mark) => Ok(Json::Object(switch_members(alloc, "mark", mark)?)),
        Request::Manual(manual) => Ok(Json::Object(manual_members(alloc, manual)?)),
        Request::Activity(activity) => {
            Ok(Json::Object(switch_members(alloc, "activity", activity)?))
        }
        Request::Close(close) => Ok(Json::Object(close_members(alloc, close)?)),
        Request::Sweep(sweep) => Ok(Json::Object(sweep_members(alloc, sweep)?)),
        Request::Balance(balance) => Ok(Json::Object(balance_members(alloc, balance)?)),
        Request::Doc(doc) => Ok(Json::Object(doc_members(alloc, doc)?)),
        Request::Post(post) => Ok(Json::Object(post_members(alloc, post)?)),
        Request::Unpost(standing) => {
            Ok(Json::Object(standing_members(alloc, "unpost", standing)?))
        }
        Request::Turnovers(asked) => {
            Ok(Json::Object(turnovers_members(alloc, "turnovers", asked)?))
        }
        Request::Both(both) => Ok(Json::Object(both_members(alloc, both)?)),
        Request::AccountBalance(asked) => Ok(Json::Object(account_balance_members(alloc, asked)?)),
        Request::AccountTurnovers(asked) => {
            let members = account_turnovers_members(alloc, "account_turnovers", asked)?;
            Ok(Json::Object(members))
        }
        Request::AccountBoth(asked) => {
            let members = account_turnovers_members(alloc, "account_both", asked)?;
            Ok(Json::Object(members))
        }
        Request::DrCr(asked) => Ok(Json::Object(dr_cr_members(alloc, asked)?)),
        Request::Documents(asked) => Ok(Json::Object(documents_members(alloc, asked)?)),
    }
}

impl ToJson for List<SetText> {
    ghost json = { sets_data };

    #[tactic(auto, unfolding(crate::specs::RequestTexts::sets_data))]
    fn to_json(&self, alloc: Global) -> Result<Json, Memory> {
        array_value(alloc, self.as_slice())
    }
}

impl ToJson for SetText {
    ghost json = { set_data };

    #[tactic(auto, unfolding(crate::specs::RequestTexts::set_data))]
    fn to_json(&self, alloc: Global) -> Result<Json, Memory> {
        let mut members = Object::new(alloc);
        put_value(alloc, &mut members, "records", &self.records)?;
        put_value(alloc, &mut members, "space", &self.space)?;
        Ok(Json::Object(members))
    }
}

impl ToJson for List<RecordText> {
    ghost json = { λ records. array (items_of (map record_data records)) };

    fn to_json(&self, alloc: Global) -> Result<Json, Memory> {
        array_value(alloc, self.as_slice())
    }
}

impl ToJson for RecordText {
    ghost json = { record_data };

    fn to_json(&self, alloc: Global) -> Result<Json, Memory> {
        match self {
            RecordText::Register(text) => register_value(alloc, text),
            RecordText::Ledger(text) => ledger_value(alloc, text),
        }
    }
}

#[tactic(auto, unfolding(crate::specs::RequestTexts::register_data))]
fn register_value(alloc: Global, given: &RegisterText) -> Result<Json, Memory>
    ensures { IfOk result (λ v. view v ≡ register_data given.now) }
{
    let mut members = Object::new(alloc);
    put_text(alloc, &mut members, "kind", mark_name(given.mark))?;
    put_value(alloc, &mut members, "sums", &given.sums)?;
    put_value(alloc, &mut members, "values", &given.values)?;
    Ok(Json::Object(members))
}

fn mark_name(mark: Mark) -> &'static str
    ensures { result.now ≡ mark_name_of mark }
{
    match mark {
        Mark::Receipt => "receipt",
        Mark::Expense => "expense",
        Mark::Turn => "turn",
    }
}

#[tactic(auto, unfolding(crate::specs::RequestTexts::ledger_data))]
fn ledger_value(alloc: Global, given: &LedgerText) -> Result<Json, Memory>
    ensures { IfOk result (λ v. view v ≡ ledger_data given.now) }
{
    let mut members = Object::new(alloc);
    put_value(alloc, &mut members, "amount", &given.amount)?;
    put_value(alloc, &mut members, "credit", &given.credit)?;
    put_value(alloc, &mut members, "debit", &given.debit)?;
    Ok(Json::Object(members))
}

impl ToJson for Option<Side> {
    ghost json = { side_data };

    // The account and its extras, or null where the side is absent.
    fn to_json(&self, alloc: Global) -> Result<Json, Memory> {
        match self {
            Some(side) => account_value(alloc, side),
            None => Ok(Json::Null),
        }
    }
}

#[tactic(auto, unfolding(crate::specs::JsonValues::texts_data))]
fn account_value(alloc: Global, side: &Side) -> Result<Json, Memory>
    ensures { IfOk result (λ v. view v ≡ side_data (Some side.now)) }
{
    let mut texts = Vec::new(alloc);
    texts.push(text(alloc, side.account.as_str())?)?;
    push_items(alloc, &mut texts, side.extras.as_slice())?;
    Ok(Json::Array(texts))
}
