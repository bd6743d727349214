//! Days of the calendar, as dates are spelt and printed.
ghost use Rattle.std.specs.Prelude.{◌≡◌, ◌+◌, ◌-◌, ◌<◌, ◌≤◌, ◌^◌, ◌++◌, length, string_bytes, IfOk};
ghost use Rattle.std.specs.Prelude.{OnOk, IfNone, IfSome, true, false};
ghost use Rattle.std.specs.Int.{IsInRange};
ghost use Rattle.reg_base.specs.Days.{IsDayNumber, IsInCentury};
ghost use Rattle.reg_base.specs.Dates.{has_day, number_between, day_spelt, second_spelt, day_text};
ghost use Rattle.reg_base.specs.Dates.{second_text};
ghost use Rattle.reg_base.specs.Units.{calendar_day};

use crate::DateFault;
use crate::sums::push_digits;
use jiff_core::civil;
use std::alloc::AllocError;

/// How many days the years 2000 to 2099 have.
pub const CENTURY_DAYS: u32 = 36_525;

/// The first day of 2000, counted as the calendar counts, from -9999-01-01.
pub const FIRST_DAY: u32 = 4_382_544;

/// A year, a month and a day, in the calendar or not.
#[derive(Clone, Copy)]
pub struct Day {
    pub year: u16,
    pub month: u8,
    pub day: u8,
}

// The number that the digits from one place to another spell, which are four at most.
#[tactic(auto, unfolding(crate::specs::Dates::number_between))]
fn number_between(text: &[u8], from: usize, to: usize) -> Result<u16, DateFault>
    requires ordered { from ≤ to }
    requires within { to ≤ length text.now }
    requires few { to ≤ from + 4 }
    ensures value { result ≡ number_between text.now from to }
    ensures range { IfOk result (λ n. n < 10 ^ (to - from)) }
{
    let digits = &text[from..to];
    let mut number = 0;
    for digit in digits {
        if !digit.is_ascii_digit() {
            return Err(DateFault::NotADate);
        }
        number = number * 10 + u16::from(*digit - b'0');
    }
    Ok(number)
}

/// The day that the text begins with, spelt `YYYY-MM-DD`.
#[tactic(auto, unfolding(crate::specs::Dates::day_spelt))]
pub fn day_spelt(text: &[u8]) -> Result<Day, DateFault>
    requires { 10 ≤ length text.now }
    ensures value { result ≡ day_spelt text.now }
    ensures year { IfOk result (λ d. d.year < 10000) }
    ensures month { IfOk result (λ d. d.month < 100) }
    ensures day { IfOk result (λ d. d.day < 100) }
{
    if text[4] != b'-' || text[7] != b'-' {
        return Err(DateFault::NotADate);
    }
    let year = number_between(text, 0, 4)?;
    let month = number_between(text, 5, 7)? as u8;
    let day = number_between(text, 8, 10)? as u8;
    Ok(Day { year, month, day })
}

/// The second of the day that stands behind the day, spelt `Thh:mm:ss`.
#[tactic(auto, unfolding(crate::specs::Dates::second_spelt))]
pub fn second_spelt(text: &[u8]) -> Result<u32, DateFault>
    requires { 19 ≤ length text.now }
    ensures value { result ≡ second_spelt text.now }
    ensures range { IfOk result (λ second. second < 86400) }
{
    if text[10] != b'T' || text[13] != b':' || text[16] != b':' {
        return Err(DateFault::NotADate);
    }
    let hour = number_between(text, 11, 13)?;
    let minute = number_between(text, 14, 16)?;
    let second = number_between(text, 17, 19)?;
    if hour >= 24 || minute >= 60 || second >= 60 {
        return Err(DateFault::NotADate);
    }
    Ok(3600 * u32::from(hour) + 60 * u32::from(minute) + u32::from(second))
}

/// Appends a day as `YYYY-MM-DD`.
#[tactic(auto, unfolding(crate::specs::Dates::day_text))]
pub fn push_day(text: &mut String, day: Day) -> Result<(), AllocError>
    ensures { OnOk result (string_bytes text.new ≡ string_bytes text.old ++ day_text day) }
{
    push_digits(text, 4, u128::from(day.year))?;
    text.push('-')?;
    push_digits(text, 2, u128::from(day.month))?;
    text.push('-')?;
    push_digits(text, 2, u128::from(day.day))
}

/// Appends a second of a day as `Thh:mm:ss`.
#[tactic(auto, unfolding(crate::specs::Dates::second_text))]
pub fn push_second(text: &mut String, second: u32) -> Result<(), AllocError>
    ensures { OnOk result (string_bytes text.new ≡ string_bytes text.old ++ second_text second) }
{
    text.push('T')?;
    push_digits(text, 2, u128::from(second / 3600))?;
    text.push(':')?;
    push_digits(text, 2, u128::from(second / 60 % 60))?;
    text.push(':')?;
    push_digits(text, 2, u128::from(second % 60))
}

/// The days from -9999-01-01 to the day, where the calendar has it.
pub fn day_number(day: Day) -> Option<u32>
    requires year { day.year < 10000 }
    requires month { day.month < 100 }
    requires day { day.day < 100 }
    ensures none { IfNone result (has_day day ≡ false) }
    ensures some { IfSome result (IsDayNumber day) }
{
    match civil::Date::new(day.year as i16, day.month as i8, day.day as i8) {
        Ok(date) => Some(date.days_since_min()),
        Err(_) => None,
    }
}

/// The day of the years 2000 to 2099 to which so many days come from -9999-01-01.
pub fn day_at(number: u32) -> Day
    requires first { 4_382_544 ≤ number }
    requires last { number < 4_419_069 }
    ensures number { IsDayNumber result number }
    ensures century { IsInCentury result }
{
    let date = civil::Date::from_days_since_min(number);
    Day {
        year: date.year.unsigned_abs(),
        month: date.month,
        day: date.day,
    }
}

/// The day of the calendar so many days after 2000-01-01.
pub fn calendar_day(day: u32) -> Day
    requires { day < 36_525 }
    ensures value { result ≡ calendar_day day }
    ensures number { IsDayNumber result (4_382_544 + day) }
    ensures century { IsInCentury result }
    ensures month { IsInRange 1 12 result.month }
    ensures day { IsInRange 1 31 result.day }
{
    day_at(FIRST_DAY + day)
}
