//! Refusals as JSON.
ghost use Rattle.std.specs.Prelude.{◌≡◌, codes, string_bytes, map, IsSome, IfOk};
ghost use Rattle.serde_json.specs.Data.{string, no_members, member};
ghost use Rattle.serde_json.specs.View.{view, members_view};
ghost use Rattle.reg_base.specs.Dates.{date_text};
ghost use Rattle.reg_base.specs.Numbers.{sum_text};
ghost use Rattle.desk_words.specs.JsonValues.{whole, texts_data};
ghost use Rattle.desk_words.specs.ReplyWords.{value_text};
ghost use Rattle.desk_words.specs.ReplyTexts.{HasMissingScale, RefusalHasScales};
ghost use Rattle.desk_words.specs.RefusalTexts.{word_fault_detail, word_fault_members};
ghost use Rattle.desk_words.specs.RefusalTexts.{place_members, missing_text as missing_text_of};
ghost use Rattle.desk_words.specs.RefusalTexts.{post_fault_detail, post_fault_members};
ghost use Rattle.desk_words.specs.RefusalTexts.{table_fault_detail, table_fault_members};
ghost use Rattle.desk_words.specs.RefusalTexts.{refusal_detail, refusal_data};

use crate::fault::WordFault;
use crate::json_values::{put_text, put_value};
use crate::parsed::Object;
use crate::reply::{
    Refusal, entry_fault_number, post_fault_number, state_name, table_fault_number,
};
use reg_base::{Date, List, Memory, Name, PostFault, Scale, TableFault, Value, sum_string};
use serde_json::{Value as Json, put};
use std::alloc::Global;

// A refusal: its number, its name, and what it tells besides.
#[tactic(auto, unfolding(crate::specs::RefusalTexts::refusal_data))]
pub(crate) fn refusal_value(alloc: Global, refusal: &Refusal) -> Result<Json, Memory>
    requires { RefusalHasScales refusal.now }
    ensures { IfOk result (λ v. view v ≡ refusal_data refusal.now) }
{
    let mut members = refusal_detail(alloc, refusal)?;
    put(&mut members, alloc, "code", Json::from(refusal.number()))?;
    put_text(alloc, &mut members, "name", refusal.name())?;
    Ok(Json::Object(members))
}

// What a refusal tells besides its number and its name.
#[tactic(auto, unfolding(crate::specs::RefusalTexts::refusal_detail))]
fn refusal_detail(alloc: Global, refusal: &Refusal) -> Result<Object, Memory>
    requires { RefusalHasScales refusal.now }
    ensures { IfOk result (λ m. members_view m.entries ≡ refusal_detail refusal.now) }
{
    match refusal {
        Refusal::BadLine(fault) => word_fault_members(alloc, fault),
        Refusal::UnknownClerk | Refusal::NumberReused | Refusal::UnknownDoc => {
            Ok(Object::new(alloc))
        }
        Refusal::NotAllowed { right } => text_member(alloc, "right", right.word()),
        Refusal::Stale { last } => whole_member(alloc, "last", u64::from(*last)),
        Refusal::WrongState { state } => text_member(alloc, "state", state_name(*state)),
        Refusal::BadField { field } => text_member(alloc, "field", field.name()),
        Refusal::KeyTaken { doc } => whole_member(alloc, "doc", u64::from(*doc)),
        Refusal::Closed { date } => date_member(alloc, *date),
        Refusal::Limit { which, number } => limit_members(alloc, which.name(), *number),
        Refusal::Rule { fault, scale } => post_fault_members(alloc, *scale, fault),
        Refusal::Control {
            register,
            values,
            balance,
            scale,
        } => control_members(alloc, register, values, *balance, *scale),
        Refusal::Table { fault } => table_fault_members(alloc, fault),
    }
}

// A resource that would fall below zero: what it would come to, and whose it is.
fn control_members(
    alloc: Global,
    register: &Name,
    values: &List<Value>,
    balance: i128,
    scale: Scale,
) -> Result<Object, Memory>
    ensures { IfOk result (λ m. members_view m.entries
        ≡ member (codes "balance") (string (sum_text balance scale))
        (member (codes "register") (string register.now)
        (member (codes "values") (texts_data (map value_text values.now)) no_members))) }
{
    let mut members = Object::new(alloc);
    let balance = sum_string(alloc, balance, scale.get())?;
    put(&mut members, alloc, "balance", Json::String(balance))?;
    put_value(alloc, &mut members, "register", register)?;
    put_value(alloc, &mut members, "values", values)?;
    Ok(members)
}

#[tactic(auto, unfolding(crate::specs::RefusalTexts::table_fault_members))]
fn table_fault_members(alloc: Global, fault: &TableFault) -> Result<Object, Memory>
    ensures { IfOk result (λ m. members_view m.entries ≡ table_fault_members fault.now) }
{
    let mut members = table_fault_detail(alloc, fault)?;
    put(
        &mut members,
        alloc,
        "fault",
        Json::from(table_fault_number(fault)),
    )?;
    Ok(members)
}

// What a fault of a table tells besides its number.
fn table_fault_detail(alloc: Global, fault: &TableFault) -> Result<Object, Memory>
    ensures { IfOk result (λ m. members_view m.entries ≡ table_fault_detail fault.now) }
{
    match *fault {
        TableFault::BadRange { from, to } => {
            let mut members = Object::new(alloc);
            put_value(alloc, &mut members, "from", &from)?;
            put_value(alloc, &mut members, "to", &to)?;
            Ok(members)
        }
        TableFault::TooManyRows { limit } => whole_member(alloc, "limit", u64::from(limit)),
        TableFault::UnknownField { name } => text_member(alloc, "field", name.as_str()),
    }
}

#[tactic(auto, unfolding(crate::specs::RefusalTexts::post_fault_members))]
fn post_fault_members(
    alloc: Global,
    scale: Option<Scale>,
    fault: &PostFault,
) -> Result<Object, Memory>
    requires { HasMissingScale scale fault.now }
    ensures { IfOk result (λ m. members_view m.entries ≡ post_fault_members scale fault.now) }
{
    let mut members = post_fault_detail(alloc, scale, fault)?;
    put(
        &mut members,
        alloc,
        "fault",
        Json::from(post_fault_number(fault)),
    )?;
    Ok(members)
}

// What a fault of posting tells besides its number.
fn post_fault_detail(
    alloc: Global,
    scale: Option<Scale>,
    fault: &PostFault,
) -> Result<Object, Memory>
    requires { HasMissingScale scale fault.now }
    ensures { IfOk result (λ m. members_view m.entries ≡ post_fault_detail scale fault.now) }
{
    match *fault {
        PostFault::Broken { rule, line, code } => {
            let mut members = place_members(alloc, rule, line)?;
            put_value(alloc, &mut members, "text", &code)?;
            Ok(members)
        }
        PostFault::Shortage {
            rule,
            line,
            missing,
        } => {
            let mut members = place_members(alloc, rule, line)?;
            let missing = missing_text(alloc, scale, missing)?;
            put(&mut members, alloc, "missing", Json::String(missing))?;
            Ok(members)
        }
        PostFault::Entry { rule, line, fault } => {
            let mut members = place_members(alloc, rule, line)?;
            put(
                &mut members,
                alloc,
                "entry",
                Json::from(entry_fault_number(fault)),
            )?;
            Ok(members)
        }
        PostFault::TooManyRecords => Ok(Object::new(alloc)),
        PostFault::Overflow { rule, line } | PostFault::Negative { rule, line } => {
            place_members(alloc, rule, line)
        }
    }
}

// The rule and the line of the document at which posting found a fault.
fn place_members(alloc: Global, rule: u32, line: u32) -> Result<Object, Memory>
    ensures { IfOk result (λ m. members_view m.entries ≡ place_members rule line) }
{
    let mut members = whole_member(alloc, "line", u64::from(line))?;
    put(&mut members, alloc, "rule", Json::from(rule))?;
    Ok(members)
}

// A quantity that is missing, with its decimals.
fn missing_text(alloc: Global, scale: Option<Scale>, missing: i64) -> Result<String, Memory>
    requires { IsSome scale }
    ensures { IfOk result (λ text. string_bytes text ≡ missing_text_of scale missing) }
{
    match scale {
        Some(scale) => sum_string(alloc, i128::from(missing), scale.get()),
        // Only a shortage tells a quantity, and it has a scale.
        None => unreachable!(),
    }
}

fn limit_members(alloc: Global, which: &str, number: u64) -> Result<Object, Memory>
    ensures { IfOk result (λ m. members_view m.entries
        ≡ member (codes "number") (whole number)
        (member (codes "which") (string which.now) no_members)) }
{
    let mut members = whole_member(alloc, "number", number)?;
    put_text(alloc, &mut members, "which", which)?;
    Ok(members)
}

#[tactic(auto, unfolding(crate::specs::RefusalTexts::word_fault_members))]
fn word_fault_members(alloc: Global, fault: &WordFault) -> Result<Object, Memory>
    ensures { IfOk result (λ m. members_view m.entries ≡ word_fault_members fault.now) }
{
    let mut members = word_fault_detail(alloc, fault)?;
    put(&mut members, alloc, "kind", Json::from(fault.number()))?;
    Ok(members)
}

// What the fault of a line tells besides its number.
fn word_fault_detail(alloc: Global, fault: &WordFault) -> Result<Object, Memory>
    ensures { IfOk result (λ m. members_view m.entries ≡ word_fault_detail fault.now) }
{
    match fault {
        WordFault::TooLong { bytes } => whole_member(alloc, "bytes", *bytes),
        WordFault::Missing { member } => text_member(alloc, "member", member.name()),
        WordFault::UnknownMember { name } => text_member(alloc, "member", name.as_str()),
        WordFault::BadMember { member } => text_member(alloc, "member", member.name()),
        WordFault::NotJson | WordFault::NotObject | WordFault::UnknownOp | WordFault::Memory => {
            Ok(Object::new(alloc))
        }
    }
}

fn date_member(alloc: Global, date: Date) -> Result<Object, Memory>
    ensures { IfOk result (λ m. members_view m.entries
        ≡ member (codes "date") (string (date_text date)) no_members) }
{
    let mut members = Object::new(alloc);
    put_value(alloc, &mut members, "date", &date)?;
    Ok(members)
}

fn whole_member(alloc: Global, name: &str, number: u64) -> Result<Object, Memory>
    ensures { IfOk result (λ m. members_view m.entries
        ≡ member name.now (whole number) no_members) }
{
    let mut members = Object::new(alloc);
    put(&mut members, alloc, name, Json::from(number))?;
    Ok(members)
}

fn text_member(alloc: Global, name: &str, value: &str) -> Result<Object, Memory>
    ensures { IfOk result (λ m. members_view m.entries
        ≡ member name.now (string value.now) no_members) }
{
    let mut members = Object::new(alloc);
    put_text(alloc, &mut members, name, value)?;
    Ok(members)
}
