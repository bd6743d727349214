//! The units of a range.
ghost use Rattle.std.specs.Prelude.{◌≡◌, ◌*◌, ◌≤◌, ◌<◌, ◌∷◌, [], ◌++◌, true, length, map, filter};
ghost use Rattle.std.specs.Prelude.{IfOk, OnOk};
ghost use Rattle.reg_base.specs.Units.{starts_between, starts_unit, are_dates};
ghost use Rattle.reg_base.specs.Units.{midnight as first_second};
ghost use Rattle.ledger_reg.specs.UnitRows.{starts_by, unit_at as unit_from};

use reg_base::{Date, List, Memory, Periodicity, Range, Unit, unit_start};
use std::alloc::Global;

/// The units of a table, by their starts, and whether its rows have nets.
#[derive(Drop)]
pub(crate) struct Units {
    pub by: Periodicity,
    pub nets: bool,
    pub starts: List<Date>,
}

/// The starts of the units of a range, in order. The whole range has the first date.
pub(crate) fn range_starts(alloc: Global, range: &Range) -> Result<List<Date>, Memory>
    ensures value { IfOk result (λ starts. starts
        ≡ starts_by range.now.by range.now.from range.now.to) }
    ensures few { IfOk result (λ starts. length starts ≤ 36_525) }
{
    match range.by {
        Periodicity::Period => one_start(alloc),
        Periodicity::Record | Periodicity::Recorder => Ok(List::new(alloc)),
        _ => date_starts(alloc, range),
    }
}

/// The unit that starts at a date, or the whole range.
pub(crate) fn unit_at(by: Periodicity, start: Date) -> Unit
    ensures { result ≡ unit_from by start }
{
    match by {
        Periodicity::Period => Unit::Whole,
        _ => Unit::Start(start),
    }
}

// The first date alone.
fn one_start(alloc: Global) -> Result<List<Date>, Memory>
    ensures { IfOk result (λ starts. starts ≡ 0 ∷ []) }
{
    let mut starts = List::new(alloc);
    starts.push(Date::first())?;
    Ok(starts)
}

// The starts of the units of a range, where they are dates.
fn date_starts(alloc: Global, range: &Range) -> Result<List<Date>, Memory>
    requires { are_dates range.now.by ≡ true }
    ensures value { IfOk result (λ starts. starts
        ≡ starts_between range.now.by range.now.from range.now.to) }
    ensures few { IfOk result (λ starts. length starts ≤ 36_525) }
{
    let mut starts = List::new(alloc);
    let first = unit_start(range.by, range.from).seconds() / 86_400;
    for day in first..range.to.seconds() / 86_400 + 1 {
        push_start(&mut starts, range.by, day)?;
    }
    Ok(starts)
}

// Puts the first second of a day behind the others, where a unit starts on it.
fn push_start(starts: &mut List<Date>, by: Periodicity, day: u32) -> Result<(), Memory>
    requires dates { are_dates by ≡ true }
    requires within { day < 36_525 }
    ensures { OnOk result (starts.new
        ≡ starts.old ++ map first_second (filter (starts_unit by) (day ∷ []))) }
{
    let date = midnight(day);
    if unit_start(by, date) == date {
        starts.push(date)?;
    }
    Ok(())
}

// The first second of a day.
fn midnight(day: u32) -> Date
    requires { day < 36_525 }
    ensures { result ≡ 86_400 * day }
{
    Date::from_seconds(86_400 * day).unwrap()
}
