//! Dates to the second, from 2000 to 2099: how they are read and printed.
ghost use Rattle.std.specs.Prelude.{◌≡◌, ◌++◌, ◌<◌, ◌≤◌, SomeIff, IfOk, OnOk, OnErr, IsTrue};
ghost use Rattle.std.specs.Prelude.{string_bytes, length};
ghost use Rattle.reg_base.specs.Dates.{date_of, day_of, parse_long_date, parse_date};
ghost use Rattle.reg_base.specs.Dates.{parse_date_end};
ghost use Rattle.reg_base.specs.Dates.{date_text};

use crate::Memory;
use crate::day::{
    Day, FIRST_DAY, calendar_day, day_number, day_spelt, push_day, push_second, second_spelt,
};
use std::alloc::Global;
use std::marker::Model;

/// How many seconds the years 2000 to 2099 have.
pub const CENTURY_SECONDS: u32 = 3_155_760_000;

/// A second of the years 2000 to 2099, seen as the seconds since 2000-01-01T00:00:00.
#[derive(Clone, Copy, Debug, PartialEq, Eq, PartialOrd, Ord)]
pub struct Date {
    seconds: u32,
}

impl Model for Date {
    ghost use Rattle.std.specs.Prelude.{ℕ, ◌<◌};

    ghost Value = { ℕ };

    ghost view = { λ d. d.seconds };

    ghost invariant = { λ d. d.seconds < 3_155_760_000 };

    ghost inverse = { λ n. record { seconds = n } };
}

/// Why a text is no date, point or cut.
#[derive(Clone, Copy, Debug, PartialEq, Eq)]
pub enum DateFault {
    /// It does not spell a second of the calendar.
    NotADate,
    /// It spells one before 2000 or after 2099.
    OutOfYears,
}

impl Date {
    /// The first date, 2000-01-01T00:00:00.
    pub fn first() -> Date
        ensures { result ≡ 0 }
    {
        Date { seconds: 0 }
    }

    /// The last date, 2099-12-31T23:59:59.
    pub fn last() -> Date
        ensures { result ≡ 3_155_759_999 }
    {
        Date {
            seconds: CENTURY_SECONDS - 1,
        }
    }

    /// The date so many seconds after the first one, where it lies in the century.
    pub fn from_seconds(seconds: u32) -> Option<Date>
        ensures { SomeIff result (seconds < 3_155_760_000) seconds }
    {
        if seconds >= CENTURY_SECONDS {
            return None;
        }
        Some(Date { seconds })
    }

    /// The seconds since 2000-01-01T00:00:00.
    pub fn seconds(self) -> u32
        ensures value { result ≡ self }
        ensures range { result < 3_155_760_000 }
    {
        self.seconds
    }

    /// Reads `YYYY-MM-DD`, which is the day's first second, or `YYYY-MM-DDThh:mm:ss`.
    #[tactic(auto, unfolding(crate::specs::Dates::parse_date))]
    pub fn parse(text: &str) -> Result<Date, DateFault>
        ensures { result ≡ parse_date text.now }
    {
        let text = text.as_bytes();
        if text.len() == 10 {
            date_of(day_spelt(text)?, 0)
        } else {
            parse_long_date(text)
        }
    }

    /// Reads a date as the end of a range: `YYYY-MM-DD` is the day's last second, and the long
    /// form is its second.
    #[tactic(auto, unfolding(crate::specs::Dates::parse_date_end))]
    pub fn parse_end(text: &str) -> Result<Date, DateFault>
        ensures { result ≡ parse_date_end text.now }
    {
        let text = text.as_bytes();
        if text.len() == 10 {
            date_of(day_spelt(text)?, 86_399)
        } else {
            parse_long_date(text)
        }
    }

    /// Appends the long form, `YYYY-MM-DDThh:mm:ss`.
    pub fn print(self, alloc: Global, out: &mut Vec<u8>) -> Result<(), Memory>
        ensures ok { OnOk result (out.new.items ≡ out.old.items ++ date_text self) }
        ensures err { OnErr result (out.new.items ≡ out.old.items) }
    {
        // The text is made first: where memory is refused, nothing is appended.
        let text = self.to_text(alloc)?;
        out.extend_from_slice(text.as_bytes())?;
        Ok(())
    }

    /// The long form, `YYYY-MM-DDThh:mm:ss`.
    #[tactic(auto, unfolding(crate::specs::Dates::date_text))]
    pub fn to_text(self, alloc: Global) -> Result<String, Memory>
        ensures { IfOk result (λ text. string_bytes text ≡ date_text self) }
    {
        let mut text = String::new(alloc);
        push_day(&mut text, day_of(self))?;
        push_second(&mut text, self.seconds() % 86_400)?;
        Ok(text)
    }
}

// Reads `YYYY-MM-DDThh:mm:ss`.
#[tactic(auto, unfolding(crate::specs::Dates::parse_long_date))]
pub(crate) fn parse_long_date(text: &[u8]) -> Result<Date, DateFault>
    ensures { result ≡ parse_long_date text.now }
{
    if text.len() != 19 {
        return Err(DateFault::NotADate);
    }
    let day = day_spelt(text)?;
    let second = second_spelt(text)?;
    date_of(day, second)
}

// The date of a second of a day, where the calendar has the day.
#[tactic(auto, unfolding(crate::specs::Dates::date_of))]
fn date_of(day: Day, second: u32) -> Result<Date, DateFault>
    requires year { day.year < 10000 }
    requires month { day.month < 100 }
    requires day { day.day < 100 }
    requires second { second < 86400 }
    ensures { result ≡ date_of day second }
{
    // The calendar comes first: 30 February is no date in any year.
    let number = day_number(day).ok_or(DateFault::NotADate)?;
    if day.year < 2000 || day.year > 2099 {
        return Err(DateFault::OutOfYears);
    }
    let days = number - FIRST_DAY;
    Ok(Date {
        seconds: 86_400 * days + second,
    })
}

// The day of the calendar that the date lies in.
#[tactic(auto, unfolding(crate::specs::Dates::day_of))]
fn day_of(date: Date) -> Day
    ensures { result ≡ day_of date }
{
    calendar_day(date.seconds() / 86_400)
}
