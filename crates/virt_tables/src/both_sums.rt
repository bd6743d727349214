//! What records bring to balances with turnovers: what stood before the range, what moved in it,
//! and nothing at its ends, so that these stand.
ghost use Rattle.std.specs.Prelude.{◌≡◌, ◌+◌, ◌≤◌, ◌<◌, ◌^◌, [], ◌∷◌, All, length, map, nat_lt};
ghost use Rattle.std.specs.Prelude.{IfOk};
ghost use Rattle.std.specs.List.{flat_map};
ghost use Rattle.reg_base.specs.Records.{booked_by, matches as matches_of};
ghost use Rattle.row_sums.specs.Sums.{booked};
ghost use Rattle.table_sums.specs.Additions.{AreInReach, Adds, rows_over};
ghost use Rattle.virt_tables.specs.Bounds.{HasShortRecords};
ghost use Rattle.virt_tables.specs.Both.{both_width, most_brought, brought, before_at, moved_at};
ghost use Rattle.virt_tables.specs.Both.{ends_at, brings, both_moves, AddsBoth};
ghost use Rattle.virt_tables.specs.Both.{columns_before as before_in, columns_moved as moved_in};
ghost use Rattle.virt_tables.specs.Both.{columns_none as none_in};

use crate::columns::{Column, numbers_of};
use crate::cuts::counted_set;
use crate::moves::{Moves, group_of, is_in_range, unit_of};
use doc_store::Documents;
use reg_base::{Memory, Range, Rec, Unit};
use row_sums::matches;
use std::alloc::Global;
use table_sums::TableSums;

/// The sums of what the records bring.
pub(crate) fn both_sums(
    alloc: Global,
    documents: Documents<'_>,
    moves: &Moves<'_>,
    ends: &[Unit],
) -> Result<TableSums, Memory>
    requires few { length documents < 2 ^ 32 }
    requires short { All HasShortRecords documents }
    requires ends { length ends.now ≤ 2 }
    ensures value { IfOk result (λ sums. sums ≡ rows_over (both_width moves.now.resources)
        (both_moves moves.now ends.now
        (flat_map (booked_by moves.now.ask.now.register) documents.entry))) }
    ensures reach { IfOk result (AreInReach (2 ^ 46)) }
{
    let mut sums = TableSums::new(alloc);
    for document in documents {
        let set = counted_set(document, moves.ask.register);
        add_set(alloc, &mut sums, set, document.doc.number, moves, ends)?;
    }
    Ok(sums)
}

// Adds what the records of a set bring.
fn add_set(
    alloc: Global,
    sums: &mut TableSums,
    set: &[Rec],
    number: u32,
    moves: &Moves<'_>,
    ends: &[Unit],
) -> Result<(), Memory>
    requires reach { AreInReach most_brought sums.old }
    requires short { length set.now ≤ 5_000 }
    requires ends { length ends.now ≤ 2 }
    ensures { IfOk result (λ _.
        AddsBoth moves.now ends.now (map (booked number) set.now) sums.old sums.new) }
{
    for rec in set {
        add_asked(alloc, sums, rec, number, moves, ends)?;
    }
    Ok(())
}

// Adds what a record brings, where it is asked for.
fn add_asked(
    alloc: Global,
    sums: &mut TableSums,
    rec: &Rec,
    number: u32,
    moves: &Moves<'_>,
    ends: &[Unit],
) -> Result<(), Memory>
    requires reach { AreInReach (most_brought + 15_000) sums.old }
    requires ends { length ends.now ≤ 2 }
    ensures { IfOk result (λ _.
        AddsBoth moves.now ends.now (booked number rec.now ∷ []) sums.old sums.new) }
{
    if !is_asked(rec, moves) {
        return Ok(());
    }
    add_brought(alloc, sums, rec, number, moves, ends)
}

// Whether a record is asked for.
fn is_asked(rec: &Rec, moves: &Moves<'_>) -> bool
    ensures { result ≡ matches_of moves.now.ask.now.filter rec.now.values }
{
    matches(&moves.ask.filter, rec.values.as_slice())
}

// Adds what a record brings.
fn add_brought(
    alloc: Global,
    sums: &mut TableSums,
    rec: &Rec,
    number: u32,
    moves: &Moves<'_>,
    ends: &[Unit],
) -> Result<(), Memory>
    requires reach { AreInReach (most_brought + 15_000) sums.old }
    requires ends { length ends.now ≤ 2 }
    ensures { IfOk result (λ _. Adds (both_width moves.now.resources)
        (brings moves.now.resources moves.now.ask.now.group moves.now.range.now ends.now
        (booked number rec.now)) sums.old sums.new) }
{
    add_before(alloc, sums, rec, number, moves)?;
    add_moved(alloc, sums, rec, number, moves)?;
    add_ends(alloc, sums, rec, moves, ends)?;
    Ok(())
}

// Adds a balance, where a record lies before the range.
fn add_before(
    alloc: Global,
    sums: &mut TableSums,
    rec: &Rec,
    number: u32,
    moves: &Moves<'_>,
) -> Result<(), Memory>
    requires { AreInReach (2 ^ 46) sums.old }
    ensures { IfOk result (λ _. Adds (both_width moves.now.resources)
        (before_at moves.now.resources moves.now.ask.now.group moves.now.range.now
        (booked number rec.now)) sums.old sums.new) }
{
    if !is_before(rec, moves.range) {
        return Ok(());
    }
    add_columns(alloc, sums, rec, moves, Unit::Whole, columns_before())
}

// Whether a record lies before the range.
fn is_before(rec: &Rec, range: &Range) -> bool
    ensures { result ≡ nat_lt rec.now.period range.now.from }
{
    rec.period < range.from
}

// Adds what a record moves, where it lies in the range.
fn add_moved(
    alloc: Global,
    sums: &mut TableSums,
    rec: &Rec,
    number: u32,
    moves: &Moves<'_>,
) -> Result<(), Memory>
    requires { AreInReach (2 ^ 46) sums.old }
    ensures { IfOk result (λ _. Adds (both_width moves.now.resources)
        (moved_at moves.now.resources moves.now.ask.now.group moves.now.range.now
        (booked number rec.now)) sums.old sums.new) }
{
    if !is_in_range(rec, moves.range) {
        return Ok(());
    }
    let unit = unit_of(moves.range.by, rec, number);
    add_columns(alloc, sums, rec, moves, unit, columns_moved())
}

// Adds nothing at the ends of the range to the group of a record.
fn add_ends(
    alloc: Global,
    sums: &mut TableSums,
    rec: &Rec,
    moves: &Moves<'_>,
    ends: &[Unit],
) -> Result<(), Memory>
    requires reach { AreInReach (most_brought + 15_002) sums.old }
    requires ends { length ends.now ≤ 2 }
    ensures { IfOk result (λ _. Adds (both_width moves.now.resources)
        (ends_at moves.now.resources moves.now.ask.now.group ends.now rec.now)
        sums.old sums.new) }
{
    for unit in ends {
        add_columns(alloc, sums, rec, moves, *unit, columns_none())?;
    }
    Ok(())
}

// Adds the numbers of a record to its group, at a unit.
fn add_columns(
    alloc: Global,
    sums: &mut TableSums,
    rec: &Rec,
    moves: &Moves<'_>,
    unit: Unit,
    columns: &[Column],
) -> Result<(), Memory>
    requires reach { AreInReach (2 ^ 46) sums.old }
    requires four { length columns.now ≡ 4 }
    ensures { IfOk result (λ _. Adds (both_width moves.now.resources)
        (brought columns.now moves.now.resources moves.now.ask.now.group unit rec.now ∷ [])
        sums.old sums.new) }
{
    let group = group_of(alloc, &moves.ask.group, rec.values.as_slice())?;
    let numbers = numbers_of(alloc, columns, moves.resources, rec)?;
    sums.add(alloc, group, unit, numbers)
}

// The columns of a record before the range.
fn columns_before() -> &'static [Column]
    ensures value { result.now ≡ before_in }
    ensures four { length result.now ≡ 4 }
{
    &[
        Column::Amount,
        Column::Nothing,
        Column::Nothing,
        Column::Nothing,
    ]
}

// The columns of a record in the range.
fn columns_moved() -> &'static [Column]
    ensures value { result.now ≡ moved_in }
    ensures four { length result.now ≡ 4 }
{
    &[
        Column::Nothing,
        Column::Receipt,
        Column::Expense,
        Column::Amount,
    ]
}

// The columns of the ends of the range.
fn columns_none() -> &'static [Column]
    ensures value { result.now ≡ none_in }
    ensures four { length result.now ≡ 4 }
{
    &[
        Column::Nothing,
        Column::Nothing,
        Column::Nothing,
        Column::Nothing,
    ]
}
