//! Units of time: where the unit of a date starts, and the one behind it.
ghost use Rattle.std.specs.Prelude.{◌≡◌, ◌+◌, ◌*◌, ◌<◌, ◌≤◌};
ghost use Rattle.reg_base.specs.Units.{is_first, begins_part, begins_ten, starts_unit, start_day};
ghost use Rattle.reg_base.specs.Units.{unit_start, next_unit, calendar_day};
ghost use Rattle.reg_base.specs.Days.{IsDayNumber, into_ten, part_start};

use crate::Date;
use crate::day::{CENTURY_DAYS, Day, FIRST_DAY, calendar_day, day_number};
use crate::tables::Periodicity;

/// The start of the unit of a date: its day, the Monday of its week (the first week starts on
/// 2000-01-01), the 1st, 11th or 21st, the first of its month, quarter, half year or year. What has
/// no such units starts with the century.
#[tactic(auto, unfolding(crate::specs::Units::unit_start))]
pub fn unit_start(by: Periodicity, date: Date) -> Date
    ensures { result ≡ unit_start by date }
{
    midnight(start_day(by, date.seconds() / 86_400))
}

/// The start of the unit behind that of a date, if it is before 2100.
pub fn next_unit(by: Periodicity, date: Date) -> Option<Date>
    ensures { result ≡ next_unit by date }
{
    for day in date.seconds() / 86_400 + 1..CENTURY_DAYS {
        if starts_unit(by, day) {
            return Some(midnight(day));
        }
    }
    None
}

// The first second of a day.
fn midnight(day: u32) -> Date
    requires { day < 36_525 }
    ensures { result ≡ 86_400 * day }
{
    Date::from_seconds(86_400 * day).unwrap()
}

// The last day up to this one on which a unit starts.
fn start_day(by: Periodicity, day: u32) -> u32
    requires { day < 36_525 }
    ensures { result ≡ start_day by day }
{
    match by {
        Periodicity::Period | Periodicity::Record | Periodicity::Recorder => 0,
        Periodicity::Day => day,
        Periodicity::Week => day.saturating_sub((day + 5) % 7),
        Periodicity::TenDays => day - u32::from(into_ten(calendar_day(day).day)),
        Periodicity::Month => day - u32::from(calendar_day(day).day - 1),
        Periodicity::Quarter => part_start(3, day),
        Periodicity::HalfYear => part_start(6, day),
        Periodicity::Year => part_start(12, day),
    }
}

// The days from the 1st, the 11th or the 21st to a day of the month.
fn into_ten(day: u8) -> u8
    requires { 1 ≤ day }
    ensures { result ≡ into_ten day }
{
    if day < 11 {
        day - 1
    } else if day < 21 {
        day - 11
    } else {
        day - 21
    }
}

// The first day of the part of the year, of so many months, that a day lies in.
fn part_start(months: u8, day: u32) -> u32
    requires some { 0 < months }
    requires within { day < 36_525 }
    ensures { IsDayNumber (part_start months (calendar_day day)) (4_382_544 + result) }
{
    let c = calendar_day(day);
    let first = Day {
        year: c.year,
        month: c.month - (c.month - 1) % months,
        day: 1,
    };
    day_number(first).unwrap() - FIRST_DAY
}

// Whether a unit starts on the day.
#[tactic(auto, unfolding(crate::specs::Units::starts_unit))]
fn starts_unit(by: Periodicity, day: u32) -> bool
    requires { day < 36_525 }
    ensures { result ≡ starts_unit by day }
{
    match by {
        Periodicity::Period | Periodicity::Record | Periodicity::Recorder => false,
        Periodicity::Day => true,
        Periodicity::Week => day == 0 || (day + 5) % 7 == 0,
        Periodicity::TenDays => begins_ten(calendar_day(day)),
        Periodicity::Month => is_first(calendar_day(day)),
        Periodicity::Quarter => begins_part(3, calendar_day(day)),
        Periodicity::HalfYear => begins_part(6, calendar_day(day)),
        Periodicity::Year => begins_part(12, calendar_day(day)),
    }
}

// Whether a day is the first of its month.
fn is_first(day: Day) -> bool
    ensures { result ≡ is_first day }
{
    day.day == 1
}

// Whether a day begins a part of its year of so many months.
fn begins_part(months: u8, day: Day) -> bool
    requires some { 0 < months }
    requires month { 1 ≤ day.month }
    ensures { result ≡ begins_part months day }
{
    is_first(day) && (day.month - 1) % months == 0
}

// Whether a day is the 1st, the 11th or the 21st.
fn begins_ten(day: Day) -> bool
    ensures { result ≡ begins_ten day }
{
    day.day == 1 || day.day == 11 || day.day == 21
}
