//! Cuts: which points a balance takes, and how one is read.
ghost use Rattle.std.specs.Prelude.{◌≡◌, ◌++◌, IfOk, string_bytes};
ghost use Rattle.reg_base.specs.Dates.{date_text};
ghost use Rattle.reg_base.specs.Points.{point_text};
ghost use Rattle.reg_base.specs.Cuts.{inside, has_byte, parse_cut, cut_alone, cut_by_word};
ghost use Rattle.reg_base.specs.Cuts.{cut_before, cut_through, cut_text};

use crate::{Date, DateFault, Memory, Point};
use std::alloc::Global;

/// The points up to a date or a point.
#[derive(Clone, Copy, Debug, PartialEq, Eq)]
pub enum Cut {
    /// Every point.
    Now,
    BeforeDate(Date),
    ThroughDate(Date),
    BeforePoint(Point),
    ThroughPoint(Point),
}

impl Cut {
    /// Reads `now`, `before X`, `through X`, or a date alone, which means before it. `X` is a point
    /// where it has `#`, and else a date; a day alone is its first second, behind `through` too.
    #[tactic(auto, unfolding(crate::specs::Cuts::parse_cut))]
    pub fn parse(text: &str) -> Result<Cut, DateFault>
        ensures { result ≡ parse_cut text.now }
    {
        match text.split_once(' ') {
            Some((word, place)) => cut_by_word(word, place),
            None => cut_alone(text),
        }
    }

    /// The text of the cut, with dates in the long form.
    #[tactic(auto, unfolding(crate::specs::Cuts::cut_text))]
    pub fn to_text(self, alloc: Global) -> Result<String, Memory>
        ensures { IfOk result (λ text. string_bytes text ≡ cut_text self) }
    {
        match self {
            Cut::Now => Ok(String::from_str(alloc, "now")?),
            Cut::BeforeDate(date) => date_behind(alloc, "before ", date),
            Cut::ThroughDate(date) => date_behind(alloc, "through ", date),
            Cut::BeforePoint(point) => point_behind(alloc, "before ", point),
            Cut::ThroughPoint(point) => point_behind(alloc, "through ", point),
        }
    }
}

fn date_behind(alloc: Global, word: &str, date: Date) -> Result<String, Memory>
    ensures { IfOk result (λ text. string_bytes text ≡ word.now ++ date_text date) }
{
    let date = date.to_text(alloc)?;
    let mut text = String::from_str(alloc, word)?;
    text.push_str(date.as_str())?;
    Ok(text)
}

fn point_behind(alloc: Global, word: &str, point: Point) -> Result<String, Memory>
    ensures { IfOk result (λ text. string_bytes text ≡ word.now ++ point_text point) }
{
    let point = point.to_text(alloc)?;
    let mut text = String::from_str(alloc, word)?;
    text.push_str(point.as_str())?;
    Ok(text)
}

#[tactic(auto, unfolding(crate::specs::Cuts::cut_alone))]
fn cut_alone(text: &str) -> Result<Cut, DateFault>
    ensures { result ≡ cut_alone text.now }
{
    if text == "now" {
        return Ok(Cut::Now);
    }
    Ok(Cut::BeforeDate(Date::parse(text)?))
}

#[tactic(auto, unfolding(crate::specs::Cuts::cut_by_word))]
fn cut_by_word(word: &str, place: &str) -> Result<Cut, DateFault>
    ensures { result ≡ cut_by_word word.now place.now }
{
    match word {
        "before" => cut_before(place),
        "through" => cut_through(place),
        _ => Err(DateFault::NotADate),
    }
}

#[tactic(auto, unfolding(crate::specs::Cuts::cut_before))]
fn cut_before(place: &str) -> Result<Cut, DateFault>
    ensures { result ≡ cut_before place.now }
{
    if has_byte(place, b'#') {
        return Ok(Cut::BeforePoint(Point::parse(place)?));
    }
    Ok(Cut::BeforeDate(Date::parse(place)?))
}

#[tactic(auto, unfolding(crate::specs::Cuts::cut_through))]
fn cut_through(place: &str) -> Result<Cut, DateFault>
    ensures { result ≡ cut_through place.now }
{
    if has_byte(place, b'#') {
        return Ok(Cut::ThroughPoint(Point::parse(place)?));
    }
    Ok(Cut::ThroughDate(Date::parse(place)?))
}

fn has_byte(text: &str, byte: u8) -> bool
    ensures { result ≡ has_byte byte text.now }
{
    text.as_bytes().iter().any(|b| *b == byte)
}

/// Whether the point lies inside the cut.
pub fn inside(cut: Cut, point: Point) -> bool
    ensures { result ≡ inside cut point }
{
    match cut {
        Cut::Now => true,
        Cut::BeforeDate(date) => point.date < date,
        Cut::ThroughDate(date) => point.date <= date,
        Cut::BeforePoint(before) => point < before,
        Cut::ThroughPoint(through) => point <= through,
    }
}
