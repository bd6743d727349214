//! What the records of a range move: their numbers, added by group and unit.
ghost use Rattle.std.specs.Prelude.{◌≡◌, ◌≤◌, ◌<◌, ◌^◌, ◌&&◌, [], ◌∷◌, All, length};
ghost use Rattle.std.specs.Prelude.{map, nat_le, IfOk};
ghost use Rattle.std.specs.List.{flat_map};
ghost use Rattle.reg_base.specs.Records.{booked_by, matches as matches_of};
ghost use Rattle.reg_base.specs.Balances.{group_values as values_of_group};
ghost use Rattle.reg_base.specs.Turnovers.{unit_of as unit_in};
ghost use Rattle.row_sums.specs.Sums.{booked};
ghost use Rattle.table_sums.specs.Additions.{AreInReach, rows_over};
ghost use Rattle.virt_tables.specs.Bounds.{HasShortRecords};
ghost use Rattle.virt_tables.specs.Columns.{width_of, moves_of, AddsMoves};

use crate::ask::Ask;
use crate::columns::{columns_of, numbers_of};
use crate::cuts::counted_set;
use doc_store::Documents;
use reg_base::{List, Memory, Periodicity, Point, Range, Rec, Unit, Value, unit_start};
use row_sums::{group_values, matches};
use std::alloc::Global;
use table_sums::TableSums;

/// What a table of turnovers asks of the documents.
#[derive(Drop)]
pub struct Moves<'a> {
    pub ask: &'a Ask,
    pub range: &'a Range,
    /// Whether the register keeps balances.
    pub balances: bool,
    /// How many resources it has.
    pub resources: usize,
}

/// The sums of what the records of the range move.
pub(crate) fn moved_sums(
    alloc: Global,
    documents: Documents<'_>,
    moves: &Moves<'_>,
) -> Result<TableSums, Memory>
    requires few { length documents < 2 ^ 32 }
    requires short { All HasShortRecords documents }
    ensures value { IfOk result (λ sums. sums
        ≡ rows_over (width_of moves.now.balances moves.now.resources) (moves_of moves.now
        (flat_map (booked_by moves.now.ask.now.register) documents.entry))) }
    ensures reach { IfOk result (AreInReach (2 ^ 45)) }
{
    let mut sums = TableSums::new(alloc);
    for document in documents {
        let set = counted_set(document, moves.ask.register);
        add_set(alloc, &mut sums, set, document.doc.number, moves)?;
    }
    Ok(sums)
}

// Adds what the records of a set move.
fn add_set(
    alloc: Global,
    sums: &mut TableSums,
    set: &[Rec],
    number: u32,
    moves: &Moves<'_>,
) -> Result<(), Memory>
    requires reach { AreInReach (2 ^ 45) sums.old }
    requires short { length set.now ≤ 5_000 }
    ensures { IfOk result (λ _.
        AddsMoves moves.now (map (booked number) set.now) sums.old sums.new) }
{
    for rec in set {
        add_moved(alloc, sums, rec, number, moves)?;
    }
    Ok(())
}

// Adds what a record moves, where the table counts it.
fn add_moved(
    alloc: Global,
    sums: &mut TableSums,
    rec: &Rec,
    number: u32,
    moves: &Moves<'_>,
) -> Result<(), Memory>
    requires { AreInReach (2 ^ 46) sums.old }
    ensures { IfOk result (λ _.
        AddsMoves moves.now (booked number rec.now ∷ []) sums.old sums.new) }
{
    if !is_moved(rec, moves) {
        return Ok(());
    }
    let group = group_of(alloc, &moves.ask.group, rec.values.as_slice())?;
    let numbers = numbers_of(alloc, columns_of(moves.balances), moves.resources, rec)?;
    sums.add(alloc, group, unit_of(moves.range.by, rec, number), numbers)
}

// Whether a record is asked for and lies in the range.
fn is_moved(rec: &Rec, moves: &Moves<'_>) -> bool
    ensures { result ≡ (matches_of moves.now.ask.now.filter rec.now.values
        && (nat_le moves.now.range.now.from rec.now.period
        && nat_le rec.now.period moves.now.range.now.to)) }
{
    matches(&moves.ask.filter, rec.values.as_slice()) && is_in_range(rec, moves.range)
}

/// Whether a record lies in the range.
pub(crate) fn is_in_range(rec: &Rec, range: &Range) -> bool
    ensures { result ≡ (nat_le range.now.from rec.now.period
        && nat_le rec.now.period range.now.to) }
{
    range.from <= rec.period && rec.period <= range.to
}

/// The values that a record is grouped by.
pub(crate) fn group_of(
    alloc: Global,
    group: &Option<List<u8>>,
    values: &[Value],
) -> Result<Vec<Value>, Memory>
    ensures { IfOk result (λ v. v.items ≡ values_of_group group.now values.now) }
{
    match group {
        None => Ok(Vec::from_slice(alloc, values)?),
        Some(dimensions) => group_values(alloc, dimensions.as_slice(), values),
    }
}

/// The unit of a record.
pub(crate) fn unit_of(by: Periodicity, rec: &Rec, number: u32) -> Unit
    ensures { result ≡ unit_in by (booked number rec.now) }
{
    let point = Point {
        date: rec.period,
        doc: number,
    };
    match by {
        Periodicity::Period => Unit::Whole,
        Periodicity::Record => Unit::Line(point, rec.line),
        Periodicity::Recorder => Unit::At(point),
        Periodicity::Day
        | Periodicity::Week
        | Periodicity::TenDays
        | Periodicity::Month
        | Periodicity::Quarter
        | Periodicity::HalfYear
        | Periodicity::Year => Unit::Start(unit_start(by, rec.period)),
    }
}
