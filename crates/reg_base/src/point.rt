//! Points in time: a date with a document, how one is read and printed.
ghost use Rattle.std.specs.Prelude.{◌≡◌, ◌++◌, IfOk, OnOk, OnErr, string_bytes};
ghost use Rattle.std.specs.List.{list_all};
ghost use Rattle.std.specs.Char.{is_ascii_digit};
ghost use Rattle.reg_base.specs.Points.{has_leading_zero, is_whole_number, doc_number, parse_point};
ghost use Rattle.reg_base.specs.Points.{point_text};

use crate::Memory;
use crate::date::{Date, DateFault, parse_long_date};
use crate::num::read_on;
use crate::sums::number_string;
use std::alloc::Global;

/// A date with the number of a document; ordered by date, then number. Number 0 stands before
/// every document of that second.
#[derive(Clone, Copy, Debug, PartialEq, Eq, PartialOrd, Ord)]
pub struct Point {
    pub date: Date,
    pub doc: u32,
}

impl Point {
    /// Reads a date in the long form, `#`, and a document number without leading zeros. A wrong
    /// number is reported before a year outside 2000 to 2099.
    pub fn parse(text: &str) -> Result<Point, DateFault>
        ensures { result ≡ parse_point text.now }
    {
        parse_point(text.as_bytes())
    }

    /// Appends the text of the point, `2024-01-10T09:00:00#1`.
    pub fn print(self, alloc: Global, out: &mut Vec<u8>) -> Result<(), Memory>
        ensures ok { OnOk result (out.new.items ≡ out.old.items ++ point_text self) }
        ensures err { OnErr result (out.new.items ≡ out.old.items) }
    {
        // The text is made first: where memory is refused, nothing is appended.
        let text = self.to_text(alloc)?;
        out.extend_from_slice(text.as_bytes())?;
        Ok(())
    }

    /// The text of the point, `2024-01-10T09:00:00#1`.
    #[tactic(auto, unfolding(crate::specs::Points::point_text))]
    pub fn to_text(self, alloc: Global) -> Result<String, Memory>
        ensures { IfOk result (λ text. string_bytes text ≡ point_text self) }
    {
        let mut front = self.date.to_text(alloc)?;
        front.push('#')?;
        Ok(number_string(alloc, front.as_str(), u128::from(self.doc))?)
    }
}

#[tactic(auto, unfolding(crate::specs::Points::parse_point))]
pub(crate) fn parse_point(text: &[u8]) -> Result<Point, DateFault>
    ensures { result ≡ parse_point text.now }
{
    let Some(b'#') = text.get(19) else {
        return Err(DateFault::NotADate);
    };
    // The number is read before the date: a point that is misspelt is no point in any year.
    let doc = doc_number(&text[20..])?;
    let date = parse_long_date(&text[..19])?;
    Ok(Point { date, doc })
}

fn all_digits(text: &[u8]) -> bool
    ensures { result ≡ list_all is_ascii_digit text.now }
{
    text.iter().all(|byte| byte.is_ascii_digit())
}

fn has_leading_zero(digits: &[u8]) -> bool
    ensures { result ≡ has_leading_zero digits.now }
{
    digits.len() > 1 && digits[0] == b'0'
}

#[tactic(auto, unfolding(crate::specs::Points::is_whole_number))]
fn is_whole_number(digits: &[u8]) -> bool
    ensures { result ≡ is_whole_number digits.now }
{
    if has_leading_zero(digits) {
        return false;
    }
    !digits.is_empty() && all_digits(digits)
}

#[tactic(auto, unfolding(crate::specs::Points::doc_number))]
fn doc_number(digits: &[u8]) -> Result<u32, DateFault>
    ensures { result ≡ doc_number digits.now }
{
    if !is_whole_number(digits) {
        return Err(DateFault::NotADate);
    }
    let number = read_on(0, digits);
    if number > u64::from(u32::MAX) {
        return Err(DateFault::NotADate);
    }
    Ok(number as u32)
}
