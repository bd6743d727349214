//! Turnovers: what the records of a range move, by group and unit.
ghost use Rattle.std.specs.Prelude.{◌≡◌, ℕ, ◌≤◌, ◌<◌, ◌+◌, ◌^◌, ◌++◌, [], ◌∷◌, All, filter, length};
ghost use Rattle.std.specs.Prelude.{map, nat_le, take, drop, true, false, IfOk, OnOk};
ghost use Rattle.reg_base.specs.declared.fault.TableFault.TheVariants.{BadRange as IsBadRange};
ghost use Rattle.reg_base.specs.Results.{unless};
ghost use Rattle.reg_base.specs.Tries.{Tries};
ghost use Rattle.reg_base.specs.Records.{records_of};
ghost use Rattle.reg_base.specs.Sums.{has_number as has_number_in};
ghost use Rattle.reg_base.specs.Turnovers.{turnovers_of, table_of, has_movement, row_limit};
ghost use Rattle.virt_tables.specs.Bounds.{HasShortRecords};
ghost use Rattle.virt_tables.specs.Columns.{row_from, turn_row as turn_row_of};
ghost use Rattle.virt_tables.specs.Limits.{room_for, limited};

use crate::ask::Ask;
use crate::limits::check_room;
use crate::moves::{Moves, moved_sums};
use cfg_model::Register;
use doc_store::Documents;
use reg_base::{Fault, List, Memory, Range, Row, TableFault};
use std::alloc::Global;
use table_sums::UnitSums;

/// The turnovers of a register: what its records of the range move, by group and unit.
pub fn turnovers(
    alloc: Global,
    ask: &Ask,
    range: &Range,
    register: &Register,
    documents: Documents<'_>,
) -> Result<List<Row>, Fault<TableFault>>
    requires few { length documents < 2 ^ 32 }
    requires short { All HasShortRecords documents }
    ensures { Tries result (table_of range.now (turnovers_of register.now.balance
        (length register.now.resources) (records_of ask.now.register documents.entry)
        ask.now.filter ask.now.group range.now)) }
{
    check_range(range)?;
    let moves = Moves {
        ask,
        range,
        balances: register.balance,
        resources: register.resources.len(),
    };
    let sums = moved_sums(alloc, documents, &moves)?;
    moved_rows(alloc, &moves, sums.into_rows(alloc)?)
}

/// Refuses a range that begins behind its end.
pub(crate) fn check_range(range: &Range) -> Result<(), Fault<TableFault>>
    ensures { Tries result (unless (nat_le range.now.from range.now.to)
        (IsBadRange range.now.from range.now.to)) }
{
    if range.to < range.from {
        return Err(Fault::Refused(TableFault::BadRange {
            from: range.from,
            to: range.to,
        }));
    }
    Ok(())
}

// The rows in which something moved.
fn moved_rows(
    alloc: Global,
    moves: &Moves<'_>,
    sums: List<UnitSums>,
) -> Result<List<Row>, Fault<TableFault>>
    ensures { Tries result (limited (filter has_movement
        (map (row_from moves.now.balances moves.now.resources) sums))) }
{
    let mut rows = List::new(alloc);
    for unit in sums.into_vec() {
        push_moved(alloc, &mut rows, moves, unit)?;
    }
    Ok(rows)
}

// Puts the row of sums behind the others, where something moved.
fn push_moved(
    alloc: Global,
    rows: &mut List<Row>,
    moves: &Moves<'_>,
    sums: UnitSums,
) -> Result<(), Fault<TableFault>>
    requires { length rows.old ≤ row_limit }
    ensures rows { OnOk result (rows.new ≡ rows.old ++ filter has_movement
        (row_from moves.now.balances moves.now.resources sums ∷ [])) }
    ensures room { Tries result (room_for (length (rows.old ++ filter has_movement
        (row_from moves.now.balances moves.now.resources sums ∷ [])))) }
{
    if !has_number(sums.sums.as_slice()) {
        return Ok(());
    }
    push_limited(alloc, rows, moves, sums)
}

// Puts the row of sums behind the others, where it has room.
fn push_limited(
    alloc: Global,
    rows: &mut List<Row>,
    moves: &Moves<'_>,
    sums: UnitSums,
) -> Result<(), Fault<TableFault>>
    ensures rows { OnOk result (rows.new ≡ rows.old
        ++ row_from moves.now.balances moves.now.resources sums ∷ []) }
    ensures room { Tries result (room_for (length rows.old + 1)) }
{
    check_room(rows)?;
    push_row(alloc, rows, moves, sums)?;
    Ok(())
}

// Puts the row of sums behind the others.
fn push_row(
    alloc: Global,
    rows: &mut List<Row>,
    moves: &Moves<'_>,
    sums: UnitSums,
) -> Result<(), Memory>
    ensures { OnOk result (rows.new ≡ rows.old
        ++ row_from moves.now.balances moves.now.resources sums ∷ []) }
{
    let row = turnover_row(alloc, moves.balances, moves.resources, sums)?;
    rows.push(row)?;
    Ok(())
}

/// Whether not all of the numbers are 0.
pub(crate) fn has_number(numbers: &[i128]) -> bool
    ensures { result ≡ has_number_in numbers.now }
{
    numbers.iter().any(|number| *number != 0)
}

// The row of sums.
fn turnover_row(
    alloc: Global,
    balances: bool,
    resources: usize,
    sums: UnitSums,
) -> Result<Row, Memory>
    ensures { IfOk result (λ row. row ≡ row_from balances resources sums) }
{
    if balances {
        balance_row(alloc, resources, sums)
    } else {
        Ok(turn_row(alloc, sums))
    }
}

// The row of a register with balances.
fn balance_row(alloc: Global, resources: usize, sums: UnitSums) -> Result<Row, Memory>
    ensures { IfOk result (λ row. row ≡ row_from true resources sums) }
{
    let (receipt, others) = split(sums.sums.as_slice(), resources);
    let (expense, turnover) = split(others, resources);
    let receipt = List::from_slice(alloc, receipt)?;
    let expense = List::from_slice(alloc, expense)?;
    let turnover = List::from_slice(alloc, turnover)?;
    Ok(Row {
        group: sums.group,
        unit: sums.unit,
        opening: List::new(alloc),
        receipt,
        expense,
        turnover,
        closing: List::new(alloc),
    })
}

// The row of a register without balances.
fn turn_row(alloc: Global, sums: UnitSums) -> Row
    ensures { result ≡ turn_row_of sums }
{
    let UnitSums { group, unit, sums } = sums;
    Row {
        group,
        unit,
        opening: List::new(alloc),
        receipt: List::new(alloc),
        expense: List::new(alloc),
        turnover: sums,
        closing: List::new(alloc),
    }
}

/// The numbers up to a place, and those behind it.
pub(crate) fn split(numbers: &[i128], place: usize) -> (&[i128], &[i128])
    ensures front { result.0.now ≡ take place numbers.now }
    ensures back { result.1.now ≡ drop place numbers.now }
{
    let end = place.min(numbers.len());
    (&numbers[..end], &numbers[end..])
}
