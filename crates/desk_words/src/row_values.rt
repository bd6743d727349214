//! The rows of tables as JSON.
ghost use Rattle.std.specs.Prelude.{◌≡◌, codes, length, map, All, IfOk};
ghost use Rattle.serde_json.specs.Data.{array, object, no_members, member};
ghost use Rattle.serde_json.specs.View.{view, items_of};
ghost use Rattle.desk_words.specs.RowTexts.{row_data, turnover_row_data, move_row_data};
ghost use Rattle.desk_words.specs.RowTexts.{both_row_data, register_row_data, held_row_data};
ghost use Rattle.desk_words.specs.RowTexts.{moved_row_data, whole_row_data, account_row_data};
ghost use Rattle.desk_words.specs.RowTexts.{pair_row_data, document_row_data, table_data};
ghost use Rattle.desk_words.specs.RowTexts.{turnovers_table as turnovers_table_of};
ghost use Rattle.desk_words.specs.RowTexts.{HasMoves, HasBoth, HasNumbers};

use crate::json_values::{ToJson, array_value, one_member, put_text, put_value};
use crate::parsed::Object;
use crate::reply::state_name;
use crate::row_parts::{kind_name, put_amount, put_sums};
use reg_base::{AccountRow, DocRow, Memory, PairRow, Row, Scale, SumRow};
use serde_json::Value as Json;
use std::alloc::Global;

// The tables of a register besides its balance.
#[derive(Clone, Copy)]
pub(crate) enum RegisterTable {
    // Turnovers of a register without balances.
    Turnovers,
    // Turnovers of a register with balances.
    Moves,
    Both,
}

// The tables of accounts that have a row per account.
#[derive(Clone, Copy)]
pub(crate) enum AccountTable {
    Balance,
    Turnovers,
    Both,
}

// ---- tables

// The table of turnovers, by whether the register has balances.
pub(crate) fn turnovers_table(balances: bool) -> RegisterTable
    ensures { result ≡ turnovers_table_of balances }
{
    if balances {
        RegisterTable::Moves
    } else {
        RegisterTable::Turnovers
    }
}

fn table(alloc: Global, rows: Vec<Json>) -> Result<Json, Memory>
    ensures { IfOk result (λ v. view v
        ≡ object (member (codes "rows") (array (items_of (map view rows.items))) no_members)) }
{
    one_member(alloc, "rows", Json::Array(rows))
}

pub(crate) fn sum_table(alloc: Global, rows: &[SumRow], scales: &[Scale]) -> Result<Json, Memory>
    requires { All (λ row. length row.sums ≡ length scales.now) rows.now }
    ensures { IfOk result (λ v. view v ≡ table_data (row_data scales.now) rows.now) }
{
    let mut values = Vec::new(alloc);
    'rows: for row in rows {
        values.push(sum_row(alloc, row, scales)?)?;
    }
    table(alloc, values)
}

pub(crate) fn register_table(
    alloc: Global,
    kind: RegisterTable,
    rows: &[Row],
    scales: &[Scale],
) -> Result<Json, Memory>
    requires { All (HasNumbers kind (length scales.now)) rows.now }
    ensures { IfOk result (λ v. view v
        ≡ table_data (register_row_data kind scales.now) rows.now) }
{
    let mut values = Vec::new(alloc);
    'rows: for row in rows {
        values.push(register_row(alloc, kind, row, scales)?)?;
    }
    table(alloc, values)
}

pub(crate) fn account_table(
    alloc: Global,
    kind: AccountTable,
    rows: &[AccountRow],
    scale: Scale,
) -> Result<Json, Memory>
    ensures { IfOk result (λ v. view v ≡ table_data (account_row_data kind scale) rows.now) }
{
    let mut values = Vec::new(alloc);
    'rows: for row in rows {
        values.push(account_row(alloc, kind, row, scale)?)?;
    }
    table(alloc, values)
}

pub(crate) fn pair_table(alloc: Global, rows: &[PairRow], scale: Scale) -> Result<Json, Memory>
    ensures { IfOk result (λ v. view v ≡ table_data (pair_row_data scale) rows.now) }
{
    let mut values = Vec::new(alloc);
    'rows: for row in rows {
        values.push(pair_row(alloc, row, scale)?)?;
    }
    table(alloc, values)
}

pub(crate) fn document_table(alloc: Global, rows: &[DocRow]) -> Result<Json, Memory>
    ensures { IfOk result (λ v. view v ≡ table_data document_row_data rows.now) }
{
    one_member(alloc, "rows", array_value(alloc, rows)?)
}

// ---- rows

#[tactic(auto, unfolding(crate::specs::RowTexts::row_data))]
fn sum_row(alloc: Global, row: &SumRow, scales: &[Scale]) -> Result<Json, Memory>
    requires { length row.now.sums ≡ length scales.now }
    ensures { IfOk result (λ v. view v ≡ row_data scales.now row.now) }
{
    let mut members = Object::new(alloc);
    put_value(alloc, &mut members, "group", &row.group)?;
    put_sums(alloc, &mut members, "sums", &row.sums, scales)?;
    Ok(Json::Object(members))
}

fn register_row(
    alloc: Global,
    kind: RegisterTable,
    row: &Row,
    scales: &[Scale],
) -> Result<Json, Memory>
    requires { HasNumbers kind (length scales.now) row.now }
    ensures { IfOk result (λ v. view v ≡ register_row_data kind scales.now row.now) }
{
    match kind {
        RegisterTable::Turnovers => turnover_row(alloc, row, scales),
        RegisterTable::Moves => move_row(alloc, row, scales),
        RegisterTable::Both => both_row(alloc, row, scales),
    }
}

#[tactic(auto, unfolding(crate::specs::RowTexts::turnover_row_data))]
fn turnover_row(alloc: Global, row: &Row, scales: &[Scale]) -> Result<Json, Memory>
    requires { length row.now.turnover ≡ length scales.now }
    ensures { IfOk result (λ v. view v ≡ turnover_row_data scales.now row.now) }
{
    let mut members = Object::new(alloc);
    put_value(alloc, &mut members, "group", &row.group)?;
    put_sums(alloc, &mut members, "turnover", &row.turnover, scales)?;
    put_value(alloc, &mut members, "unit", &row.unit)?;
    Ok(Json::Object(members))
}

#[tactic(auto, unfolding(crate::specs::RowTexts::move_row_data))]
fn move_row(alloc: Global, row: &Row, scales: &[Scale]) -> Result<Json, Memory>
    requires { HasMoves (length scales.now) row.now }
    ensures { IfOk result (λ v. view v ≡ move_row_data scales.now row.now) }
{
    let mut members = Object::new(alloc);
    put_sums(alloc, &mut members, "expense", &row.expense, scales)?;
    put_value(alloc, &mut members, "group", &row.group)?;
    put_sums(alloc, &mut members, "receipt", &row.receipt, scales)?;
    put_sums(alloc, &mut members, "turnover", &row.turnover, scales)?;
    put_value(alloc, &mut members, "unit", &row.unit)?;
    Ok(Json::Object(members))
}

#[tactic(auto, unfolding(crate::specs::RowTexts::both_row_data))]
fn both_row(alloc: Global, row: &Row, scales: &[Scale]) -> Result<Json, Memory>
    requires { HasBoth (length scales.now) row.now }
    ensures { IfOk result (λ v. view v ≡ both_row_data scales.now row.now) }
{
    let mut members = Object::new(alloc);
    put_sums(alloc, &mut members, "closing", &row.closing, scales)?;
    put_sums(alloc, &mut members, "expense", &row.expense, scales)?;
    put_value(alloc, &mut members, "group", &row.group)?;
    put_sums(alloc, &mut members, "opening", &row.opening, scales)?;
    put_sums(alloc, &mut members, "receipt", &row.receipt, scales)?;
    put_sums(alloc, &mut members, "turnover", &row.turnover, scales)?;
    put_value(alloc, &mut members, "unit", &row.unit)?;
    Ok(Json::Object(members))
}

fn account_row(
    alloc: Global,
    kind: AccountTable,
    row: &AccountRow,
    scale: Scale,
) -> Result<Json, Memory>
    ensures { IfOk result (λ v. view v ≡ account_row_data kind scale row.now) }
{
    match kind {
        AccountTable::Balance => held_row(alloc, row, scale),
        AccountTable::Turnovers => moved_row(alloc, row, scale),
        AccountTable::Both => whole_row(alloc, row, scale),
    }
}

#[tactic(auto, unfolding(crate::specs::RowTexts::held_row_data))]
fn held_row(alloc: Global, row: &AccountRow, scale: Scale) -> Result<Json, Memory>
    ensures { IfOk result (λ v. view v ≡ held_row_data scale row.now) }
{
    let mut members = Object::new(alloc);
    put_value(alloc, &mut members, "account", &row.account)?;
    put_amount(alloc, &mut members, "close_cr", row.close_cr, scale)?;
    put_amount(alloc, &mut members, "close_dr", row.close_dr, scale)?;
    put_value(alloc, &mut members, "extras", &row.extras)?;
    Ok(Json::Object(members))
}

#[tactic(auto, unfolding(crate::specs::RowTexts::moved_row_data))]
fn moved_row(alloc: Global, row: &AccountRow, scale: Scale) -> Result<Json, Memory>
    ensures { IfOk result (λ v. view v ≡ moved_row_data scale row.now) }
{
    let mut members = Object::new(alloc);
    put_value(alloc, &mut members, "account", &row.account)?;
    put_value(alloc, &mut members, "extras", &row.extras)?;
    put_amount(alloc, &mut members, "turn_cr", row.turn_cr, scale)?;
    put_amount(alloc, &mut members, "turn_dr", row.turn_dr, scale)?;
    put_value(alloc, &mut members, "unit", &row.unit)?;
    Ok(Json::Object(members))
}

#[tactic(auto, unfolding(crate::specs::RowTexts::whole_row_data))]
fn whole_row(alloc: Global, row: &AccountRow, scale: Scale) -> Result<Json, Memory>
    ensures { IfOk result (λ v. view v ≡ whole_row_data scale row.now) }
{
    let mut members = Object::new(alloc);
    put_value(alloc, &mut members, "account", &row.account)?;
    put_amount(alloc, &mut members, "close_cr", row.close_cr, scale)?;
    put_amount(alloc, &mut members, "close_dr", row.close_dr, scale)?;
    put_value(alloc, &mut members, "extras", &row.extras)?;
    put_amount(alloc, &mut members, "open_cr", row.open_cr, scale)?;
    put_amount(alloc, &mut members, "open_dr", row.open_dr, scale)?;
    put_amount(alloc, &mut members, "turn_cr", row.turn_cr, scale)?;
    put_amount(alloc, &mut members, "turn_dr", row.turn_dr, scale)?;
    put_value(alloc, &mut members, "unit", &row.unit)?;
    Ok(Json::Object(members))
}

#[tactic(auto, unfolding(crate::specs::RowTexts::pair_row_data))]
fn pair_row(alloc: Global, row: &PairRow, scale: Scale) -> Result<Json, Memory>
    ensures { IfOk result (λ v. view v ≡ pair_row_data scale row.now) }
{
    let mut members = Object::new(alloc);
    put_amount(alloc, &mut members, "amount", row.amount, scale)?;
    put_value(alloc, &mut members, "credit", &row.credit)?;
    put_value(alloc, &mut members, "debit", &row.debit)?;
    Ok(Json::Object(members))
}

impl ToJson for DocRow {
    ghost json = { document_row_data };

    #[tactic(auto, unfolding(crate::specs::RowTexts::document_row_data))]
    fn to_json(&self, alloc: Global) -> Result<Json, Memory> {
        let mut members = Object::new(alloc);
        put_value(alloc, &mut members, "date", &self.date)?;
        put_value(alloc, &mut members, "doc", &self.number)?;
        put_value(alloc, &mut members, "key", &self.key)?;
        put_text(alloc, &mut members, "kind", kind_name(&self.kind))?;
        put_text(alloc, &mut members, "state", state_name(self.state))?;
        Ok(Json::Object(members))
    }
}
