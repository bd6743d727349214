//! What a statement sees of its document.
ghost use Rattle.std.specs.Prelude.{◌≡◌, ◌*◌, ◌^◌, ◌≤◌, ◌<◌, unsigned_abs, length, slice_get, None};
ghost use Rattle.post_model.specs.Scenes.{own_point as own_point_of, number_in as number_of};
ghost use Rattle.post_model.specs.Scenes.{code_in as code_of, total_at as total_of};
ghost use Rattle.post_model.specs.Scenes.{compares as compares_as, overflow as overflow_of};
ghost use Rattle.post_rules.specs.SceneViews.{scene_view};
ghost use Rattle.reg_base.specs.declared.tried.Fault.TheVariants.{Refused};

use crate::fault::YieldFault;
use reg_base::{Cell, Code, Doc, List, Point, PostFault};
use rule_lang::Test;

/// Where a statement runs.
#[derive(Drop)]
pub(crate) struct Scene<'a> {
    pub(crate) doc: &'a Doc,
    /// The number of the statement, from 1.
    pub(crate) rule: u32,
    /// The number of the document's line, and 0 for what is done once.
    pub(crate) line: u32,
    /// The values of that line.
    pub(crate) cells: &'a [Cell],
    /// What the latest write-off of the round cost.
    pub(crate) cost: i128,
}

impl<'a> Scene<'a> {
    // The fault of a number past the largest one.
    pub(crate) fn overflow(&self) -> YieldFault
        ensures { result ≡ Refused (overflow_of (scene_view self.now)) }
    {
        YieldFault::Refused(PostFault::Overflow {
            rule: self.rule,
            line: self.line,
        })
    }
}

// The document's own point.
pub(crate) fn own_point(doc: &Doc) -> Point
    ensures { result ≡ own_point_of doc.now }
{
    Point {
        date: doc.date,
        doc: doc.number,
    }
}

// The number in a field, and 0 where the field has none.
pub(crate) fn number_in(cells: &[Cell], place: u8) -> i64
    ensures { result ≡ number_of (slice_get cells.now place) }
{
    match cells.get(usize::from(place)) {
        Some(Cell::Num(n)) => *n,
        _ => 0,
    }
}

// The code in a field, and `-` where the field has none.
pub(crate) fn code_in(cells: &[Cell], place: u8) -> Code
    ensures { result ≡ code_of (slice_get cells.now place) }
{
    match cells.get(usize::from(place)) {
        Some(Cell::Code(code)) => *code,
        _ => dash(),
    }
}

// The code `-`.
#[tactic(auto, unfolding(reg_base::specs::Codes::is_code))]
fn dash() -> Code
    ensures { result ≡ code_of None }
{
    Code::parse("-").unwrap()
}

// The sum of a field over all lines.
#[tactic(auto, unfolding(post_model::specs::Scenes::total_at))]
pub(crate) fn total_at(lines: &[List<Cell>], place: u8) -> i128
    requires { length lines.now < 2 ^ 32 }
    ensures value { result ≡ total_of lines.now place }
    ensures small { unsigned_abs result ≤ 2 ^ 95 }
{
    let mut total = 0;
    'lines: for line in lines {
        total += i128::from(number_in(line.as_slice(), place));
    }
    total
}

// Whether two numbers pass a test.
pub(crate) fn compares(test: Test, a: i64, b: i64) -> bool
    ensures { result ≡ compares_as test a b }
{
    match test {
        Test::Less => a < b,
        Test::AtMost => a <= b,
        Test::Equal => a == b,
        Test::AtLeast => a >= b,
        Test::Greater => a > b,
        Test::Differs => a != b,
    }
}
