//! The ends of a range, which stand in a table though nothing moved there.
ghost use Rattle.std.specs.Prelude.{◌≡◌, ◌≤◌, [], ◌∷◌, length, IfOk};
ghost use Rattle.reg_base.specs.declared.tables.Method.TheVariants.{MovementsAndPeriodBoundaries};
ghost use Rattle.reg_base.specs.Turnovers.{edge_units, unit_of_date as unit_in_date};

use reg_base::{Date, List, Memory, Method, Periodicity, Range, Unit, unit_start};
use std::alloc::Global;

/// The units that stand though nothing moved in them: those of both ends of the range.
pub(crate) fn ends_of(alloc: Global, method: Method, range: &Range) -> Result<List<Unit>, Memory>
    ensures value { IfOk result (λ ends. ends ≡ edge_units method range.now) }
    ensures few { IfOk result (λ ends. length ends ≤ 2) }
{
    match method {
        Method::Movements => Ok(List::new(alloc)),
        Method::MovementsAndPeriodBoundaries => both_ends(alloc, range),
    }
}

// The units of both ends, where units are not records or documents.
fn both_ends(alloc: Global, range: &Range) -> Result<List<Unit>, Memory>
    ensures value { IfOk result (λ ends. ends
        ≡ edge_units MovementsAndPeriodBoundaries range.now) }
    ensures few { IfOk result (λ ends. length ends ≤ 2) }
{
    match range.by {
        Periodicity::Record | Periodicity::Recorder => Ok(List::new(alloc)),
        Periodicity::Period
        | Periodicity::Day
        | Periodicity::Week
        | Periodicity::TenDays
        | Periodicity::Month
        | Periodicity::Quarter
        | Periodicity::HalfYear
        | Periodicity::Year => ends_by(alloc, range),
    }
}

// The units that both ends lie in.
fn ends_by(alloc: Global, range: &Range) -> Result<List<Unit>, Memory>
    ensures value { IfOk result (λ ends. ends ≡ unit_in_date range.now.by range.now.from
        ∷ unit_in_date range.now.by range.now.to ∷ []) }
    ensures few { IfOk result (λ ends. length ends ≤ 2) }
{
    let mut ends = List::new(alloc);
    ends.push(unit_of_date(range.by, range.from))?;
    ends.push(unit_of_date(range.by, range.to))?;
    Ok(ends)
}

// The unit that a date lies in, where units are periods.
fn unit_of_date(by: Periodicity, date: Date) -> Unit
    ensures { result ≡ unit_in_date by date }
{
    match by {
        Periodicity::Period => Unit::Whole,
        Periodicity::Record
        | Periodicity::Recorder
        | Periodicity::Day
        | Periodicity::Week
        | Periodicity::TenDays
        | Periodicity::Month
        | Periodicity::Quarter
        | Periodicity::HalfYear
        | Periodicity::Year => Unit::Start(unit_start(by, date)),
    }
}
