//! Requests for tables as JSON.
ghost use Rattle.std.specs.Prelude.{◌≡◌, IfOk, OnOk};
ghost use Rattle.serde_json.specs.View.{members_view};
ghost use Rattle.desk_words.specs.TableTexts.{by_name as by_name_of, method_name as method_name_of};
ghost use Rattle.desk_words.specs.TableTexts.{by_data, method_data, filters_data, table_frame};
ghost use Rattle.desk_words.specs.TableTexts.{put_register, put_accounts, put_dates};
ghost use Rattle.desk_words.specs.TableTexts.{balance_members, turnovers_members, both_members};
ghost use Rattle.desk_words.specs.TableTexts.{account_balance_members, account_turnovers_members};
ghost use Rattle.desk_words.specs.TableTexts.{dr_cr_members, documents_members};

use crate::json_values::{ToJson, put_some, put_text, put_value, text};
use crate::parsed::Object;
use crate::request::{Balance, FilterText};
use crate::tables::{
    AccountBalance, AccountTurnovers, AskedAccounts, AskedDates, AskedRegister, Both,
    DocumentsQuestion, DrCr, Turnovers,
};
use reg_base::{List, Memory, Method, Name, Periodicity};
use serde_json::Value as Json;
use std::alloc::Global;

// ---- what tables share

// The members that each table has.
fn table_frame(alloc: Global, op: &str, clerk: &Name) -> Result<Object, Memory>
    ensures { IfOk result (λ m. members_view m.entries ≡ table_frame op.now clerk.now) }
{
    let mut members = Object::new(alloc);
    put_value(alloc, &mut members, "clerk", clerk)?;
    put_text(alloc, &mut members, "op", op)?;
    Ok(members)
}

#[tactic(auto, unfolding(crate::specs::TableTexts::put_register))]
fn put_register(alloc: Global, members: &mut Object, register: &AskedRegister) -> Result<(), Memory>
    ensures { OnOk result (members_view members.new.entries
        ≡ put_register register.now (members_view members.old.entries)) }
{
    put_value(alloc, members, "register", &register.name)?;
    put_some(alloc, members, "filter", &register.filter)?;
    put_some(alloc, members, "group", &register.group)
}

#[tactic(auto, unfolding(crate::specs::TableTexts::put_accounts))]
fn put_accounts(alloc: Global, members: &mut Object, accounts: &AskedAccounts) -> Result<(), Memory>
    ensures { OnOk result (members_view members.new.entries
        ≡ put_accounts accounts.now (members_view members.old.entries)) }
{
    put_value(alloc, members, "ledger", &accounts.ledger)?;
    put_some(alloc, members, "account", &accounts.account)?;
    put_some(alloc, members, "extras", &accounts.extras)
}

#[tactic(auto, unfolding(crate::specs::TableTexts::put_dates))]
fn put_dates(alloc: Global, members: &mut Object, dates: &AskedDates) -> Result<(), Memory>
    ensures { OnOk result (members_view members.new.entries
        ≡ put_dates dates.now (members_view members.old.entries)) }
{
    put_some(alloc, members, "from", &dates.from)?;
    put_some(alloc, members, "to", &dates.to)
}

impl ToJson for List<FilterText> {
    ghost json = { filters_data };

    // An object with the values of each name, a name that comes twice with its later ones.
    fn to_json(&self, alloc: Global) -> Result<Json, Memory> {
        let mut members = Object::new(alloc);
        'filters: for filter in self.as_slice() {
            put_value(alloc, &mut members, filter.name.as_str(), &filter.values)?;
        }
        Ok(Json::Object(members))
    }
}

impl ToJson for Periodicity {
    ghost json = { by_data };

    fn to_json(&self, alloc: Global) -> Result<Json, Memory> {
        text(alloc, by_name(*self))
    }
}

fn by_name(by: Periodicity) -> &'static str
    ensures { result.now ≡ by_name_of by }
{
    match by {
        Periodicity::Period => "period",
        Periodicity::Record => "record",
        Periodicity::Recorder => "recorder",
        Periodicity::Day => "day",
        Periodicity::Week => "week",
        Periodicity::TenDays => "ten_days",
        Periodicity::Month => "month",
        Periodicity::Quarter => "quarter",
        Periodicity::HalfYear => "half_year",
        Periodicity::Year => "year",
    }
}

impl ToJson for Method {
    ghost json = { method_data };

    fn to_json(&self, alloc: Global) -> Result<Json, Memory> {
        text(alloc, method_name(*self))
    }
}

fn method_name(method: Method) -> &'static str
    ensures { result.now ≡ method_name_of method }
{
    match method {
        Method::Movements => "movements",
        Method::MovementsAndPeriodBoundaries => "boundaries",
    }
}

// ---- requests

#[tactic(auto, unfolding(crate::specs::TableTexts::balance_members))]
pub(crate) fn balance_members(alloc: Global, balance: &Balance) -> Result<Object, Memory>
    ensures { IfOk result (λ m. members_view m.entries ≡ balance_members balance.now) }
{
    let mut members = table_frame(alloc, "balance", &balance.clerk)?;
    put_register(alloc, &mut members, &balance.register)?;
    put_some(alloc, &mut members, "cut", &balance.cut)?;
    put_some(alloc, &mut members, "tx", &balance.tx)?;
    Ok(members)
}

#[tactic(auto, unfolding(crate::specs::TableTexts::turnovers_members))]
pub(crate) fn turnovers_members(
    alloc: Global,
    op: &str,
    asked: &Turnovers,
) -> Result<Object, Memory>
    ensures { IfOk result (λ m. members_view m.entries ≡ turnovers_members op.now asked.now) }
{
    let mut members = table_frame(alloc, op, &asked.clerk)?;
    put_register(alloc, &mut members, &asked.register)?;
    put_dates(alloc, &mut members, &asked.dates)?;
    put_some(alloc, &mut members, "by", &asked.by)?;
    put_some(alloc, &mut members, "tx", &asked.tx)?;
    Ok(members)
}

#[tactic(auto, unfolding(crate::specs::TableTexts::both_members))]
pub(crate) fn both_members(alloc: Global, both: &Both) -> Result<Object, Memory>
    ensures { IfOk result (λ m. members_view m.entries ≡ both_members both.now) }
{
    let mut members = turnovers_members(alloc, "both", &both.turnovers)?;
    put_some(alloc, &mut members, "method", &both.method)?;
    Ok(members)
}

#[tactic(auto, unfolding(crate::specs::TableTexts::account_balance_members))]
pub(crate) fn account_balance_members(
    alloc: Global,
    asked: &AccountBalance,
) -> Result<Object, Memory>
    ensures { IfOk result (λ m. members_view m.entries ≡ account_balance_members asked.now) }
{
    let mut members = table_frame(alloc, "account_balance", &asked.clerk)?;
    put_accounts(alloc, &mut members, &asked.accounts)?;
    put_some(alloc, &mut members, "cut", &asked.cut)?;
    put_some(alloc, &mut members, "tx", &asked.tx)?;
    Ok(members)
}

#[tactic(auto, unfolding(crate::specs::TableTexts::account_turnovers_members))]
pub(crate) fn account_turnovers_members(
    alloc: Global,
    op: &str,
    asked: &AccountTurnovers,
) -> Result<Object, Memory>
    ensures { IfOk result (λ m. members_view m.entries
        ≡ account_turnovers_members op.now asked.now) }
{
    let mut members = table_frame(alloc, op, &asked.clerk)?;
    put_accounts(alloc, &mut members, &asked.accounts)?;
    put_dates(alloc, &mut members, &asked.dates)?;
    put_some(alloc, &mut members, "by", &asked.by)?;
    put_some(alloc, &mut members, "tx", &asked.tx)?;
    Ok(members)
}

#[tactic(auto, unfolding(crate::specs::TableTexts::dr_cr_members))]
pub(crate) fn dr_cr_members(alloc: Global, asked: &DrCr) -> Result<Object, Memory>
    ensures { IfOk result (λ m. members_view m.entries ≡ dr_cr_members asked.now) }
{
    let mut members = table_frame(alloc, "dr_cr", &asked.clerk)?;
    put_value(alloc, &mut members, "ledger", &asked.ledger)?;
    put_some(alloc, &mut members, "account", &asked.account)?;
    put_dates(alloc, &mut members, &asked.dates)?;
    put_some(alloc, &mut members, "tx", &asked.tx)?;
    Ok(members)
}

#[tactic(auto, unfolding(crate::specs::TableTexts::documents_members))]
pub(crate) fn documents_members(alloc: Global, asked: &DocumentsQuestion) -> Result<Object, Memory>
    ensures { IfOk result (λ m. members_view m.entries ≡ documents_members asked.now) }
{
    let mut members = table_frame(alloc, "documents", &asked.clerk)?;
    put_dates(alloc, &mut members, &asked.dates)?;
    put_some(alloc, &mut members, "tx", &asked.tx)?;
    Ok(members)
}
