//! Balances with turnovers: opening, receipts, expenses, turnover and closing by group and unit.
ghost use Rattle.std.specs.Prelude.{◌≡◌, ◌+◌, ◌≤◌, ◌<◌, ◌^◌, ◌++◌, [], ◌∷◌, All, filter, length};
ghost use Rattle.std.specs.Prelude.{IfOk, OnOk};
ghost use Rattle.std.specs.List.{list_any};
ghost use Rattle.std.specs.Ordering.{is_eq};
ghost use Rattle.reg_base.specs.Tries.{Tries};
ghost use Rattle.reg_base.specs.Records.{records_of};
ghost use Rattle.reg_base.specs.Turnovers.{balance_and_turnovers_of, table_of, row_limit};
ghost use Rattle.reg_base.specs.Turnovers.{stands as stands_in, has_movement as moves_in};
ghost use Rattle.reg_base.specs.Turnovers.{has_balance as stays_in, unit_cmp};
ghost use Rattle.virt_tables.specs.Bounds.{HasShortRecords};
ghost use Rattle.virt_tables.specs.Both.{row_after, rows_after, zeros as zeros_of, IsCarried};
ghost use Rattle.virt_tables.specs.Limits.{room_for, limited};

use crate::ask::Ask;
use crate::both_sums::both_sums;
use crate::carried::Carried;
use crate::ends::ends_of;
use crate::limits::check_room;
use crate::moves::Moves;
use crate::turnover_table::{check_range, has_number};
use cfg_model::Register;
use doc_store::Documents;
use reg_base::{Fault, List, Memory, Method, Range, Row, TableFault, Unit};
use std::alloc::Global;
use table_sums::UnitSums;

/// The balances and turnovers of a register: what stood before each unit of the range, what moved
/// in it, and what stood then, by group and unit.
pub fn balance_and_turnovers(
    alloc: Global,
    ask: &Ask,
    range: &Range,
    method: Method,
    register: &Register,
    documents: Documents<'_>,
) -> Result<List<Row>, Fault<TableFault>>
    requires few { length documents < 2 ^ 32 }
    requires short { All HasShortRecords documents }
    ensures { Tries result (table_of range.now (balance_and_turnovers_of
        (length register.now.resources) (records_of ask.now.register documents.entry)
        ask.now.filter ask.now.group range.now method)) }
{
    check_range(range)?;
    let ends = ends_of(alloc, method, range)?;
    let moves = Moves {
        ask,
        range,
        balances: true,
        resources: register.resources.len(),
    };
    let edges = ends.as_slice();
    let sums = both_sums(alloc, documents, &moves, edges)?;
    both_rows(alloc, moves.resources, edges, sums.into_rows(alloc)?)
}

// The rows that stand, each opening with what its group had before.
fn both_rows(
    alloc: Global,
    resources: usize,
    ends: &[Unit],
    sums: List<UnitSums>,
) -> Result<List<Row>, Fault<TableFault>>
    requires { IsCarried resources (zeros_of resources) sums }
    ensures { Tries result (limited (filter (stands_in ends.now)
        (rows_after resources [] (zeros_of resources) sums))) }
{
    let mut rows = List::new(alloc);
    let mut carried = Carried::new(alloc, resources)?;
    for unit in sums.into_vec() {
        push_both(alloc, &mut rows, &mut carried, resources, ends, unit)?;
    }
    Ok(rows)
}

// Puts the row of sums behind the others, where it stands, and carries its closing on.
fn push_both(
    alloc: Global,
    rows: &mut List<Row>,
    carried: &mut Carried,
    resources: usize,
    ends: &[Unit],
    sums: UnitSums,
) -> Result<(), Fault<TableFault>>
    requires room { length rows.old ≤ row_limit }
    requires carried { IsCarried resources carried.old.balance (sums ∷ []) }
    ensures group { OnOk result (carried.new.group ≡ sums.group) }
    ensures balance { OnOk result (carried.new.balance
        ≡ (row_after resources carried.old.group carried.old.balance sums).closing) }
    ensures rows { OnOk result (rows.new ≡ rows.old ++ filter (stands_in ends.now)
        (row_after resources carried.old.group carried.old.balance sums ∷ [])) }
    ensures room { Tries result (room_for (length (rows.old ++ filter (stands_in ends.now)
        (row_after resources carried.old.group carried.old.balance sums ∷ [])))) }
{
    let row = next_row(alloc, carried, resources, sums)?;
    push_standing(rows, ends, row)
}

// The row of sums behind those before it; its closing is carried on.
fn next_row(
    alloc: Global,
    carried: &mut Carried,
    resources: usize,
    sums: UnitSums,
) -> Result<Row, Memory>
    requires { IsCarried resources carried.old.balance (sums ∷ []) }
    ensures row { IfOk result (λ row. row
        ≡ row_after resources carried.old.group carried.old.balance sums) }
    ensures group { IfOk result (λ row. carried.new.group ≡ row.group) }
    ensures balance { IfOk result (λ row. carried.new.balance ≡ row.closing) }
{
    let row = carried.row(alloc, resources, sums)?;
    *carried = Carried::behind(alloc, &row)?;
    Ok(row)
}

// Puts a row behind the others, where it stands.
fn push_standing(rows: &mut List<Row>, ends: &[Unit], row: Row) -> Result<(), Fault<TableFault>>
    requires { length rows.old ≤ row_limit }
    ensures rows { OnOk result (rows.new ≡ rows.old ++ filter (stands_in ends.now) (row ∷ [])) }
    ensures room { Tries result
        (room_for (length (rows.old ++ filter (stands_in ends.now) (row ∷ [])))) }
{
    if !stands(ends, &row) {
        return Ok(());
    }
    push_limited(rows, row)
}

// Puts a row behind the others, where it has room.
fn push_limited(rows: &mut List<Row>, row: Row) -> Result<(), Fault<TableFault>>
    ensures rows { OnOk result (rows.new ≡ rows.old ++ row ∷ []) }
    ensures room { Tries result (room_for (length rows.old + 1)) }
{
    check_room(rows)?;
    push_row(rows, row)?;
    Ok(())
}

// Puts a row behind the others.
fn push_row(rows: &mut List<Row>, row: Row) -> Result<(), Memory>
    ensures { OnOk result (rows.new ≡ rows.old ++ row ∷ []) }
{
    rows.push(row)?;
    Ok(())
}

// Whether a row stands: something moved, or it is at an end of the range and has a balance.
fn stands(ends: &[Unit], row: &Row) -> bool
    ensures { result ≡ stands_in ends.now row.now }
{
    has_movement(row) || (is_end(ends, &row.unit) && has_balance(row))
}

// Whether a unit is one of those at the ends of the range.
fn is_end(ends: &[Unit], unit: &Unit) -> bool
    ensures { result ≡ list_any (λ u. is_eq (unit_cmp u unit.now)) ends.now }
{
    ends.iter().any(|end| end.cmp(unit).is_eq())
}

// Whether a receipt, an expense or a turnover is not 0.
fn has_movement(row: &Row) -> bool
    ensures { result ≡ moves_in row.now }
{
    has_number(row.receipt.as_slice())
        || has_number(row.expense.as_slice())
        || has_number(row.turnover.as_slice())
}

// Whether an opening or a closing is not 0.
fn has_balance(row: &Row) -> bool
    ensures { result ≡ stays_in row.now }
{
    has_number(row.opening.as_slice()) || has_number(row.closing.as_slice())
}
