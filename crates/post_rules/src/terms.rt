//! What the sums of a statement come to.
ghost use Rattle.std.specs.Prelude.{◌≡◌, ◌*◌, ◌^◌, ◌≤◌, ◌<◌, unsigned_abs, length, OnOk, IfOk};
ghost use Rattle.reg_base.specs.Numbers.{largest_units};
ghost use Rattle.post_model.specs.Scenes.{opposite_if as opposite_of, part_value, term_value};
ghost use Rattle.post_model.specs.Scenes.{terms_value, sum_value, is_number as is_number_of};
ghost use Rattle.post_rules.specs.Bounds.{IsSmallScene, largest_part};
ghost use Rattle.post_rules.specs.SceneViews.{scene_view};
ghost use Rattle.reg_base.specs.Tries.{Tries};

use crate::fault::{Tried, YieldFault};
use crate::scene::{Scene, number_in, total_at};
use reg_base::LARGEST_UNITS;
use rule_lang::{Part, Sum, Term};

// A sum of more terms than this is want of memory: no memory holds so many, and no rule limits
// them. With fewer terms no sum passes an `i128`.
const MOST_TERMS: usize = 2_147_483_647;

impl<'a> Scene<'a> {
    // The number that a part is.
    fn part(&self, part: &Part) -> i128
        requires { IsSmallScene (scene_view self.now) }
        ensures value { result ≡ part_value (scene_view self.now) part.now }
        ensures small { unsigned_abs result ≤ largest_part }
    {
        match part {
            Part::Number(n) => i128::from(*n),
            Part::Head(place) => i128::from(number_in(self.doc.head.as_slice(), *place)),
            Part::Line(place) => i128::from(number_in(self.cells, *place)),
            Part::Total(place) => total_at(self.doc.lines.as_slice(), *place),
            Part::Cost => self.cost,
        }
    }

    // The number that a term adds.
    fn term(&self, term: &Term) -> i128
        requires { IsSmallScene (scene_view self.now) }
        ensures value { result ≡ term_value (scene_view self.now) term.now }
        ensures small { unsigned_abs result ≤ largest_part }
    {
        let value = self.part(&term.part);
        opposite_if(term.minus, opposite_if(term.negative, value))
    }

    // The sum of the terms, exactly.
    #[tactic(auto, unfolding(post_model::specs::Scenes::terms_value))]
    fn terms(&self, terms: &[Term]) -> i128
        requires scene { IsSmallScene (scene_view self.now) }
        requires few { length terms.now < 2 ^ 31 }
        ensures { result ≡ terms_value (scene_view self.now) terms.now }
    {
        let mut sum = 0;
        'terms: for term in terms {
            sum += self.term(term);
        }
        sum
    }

    // The number that a sum is, where it is one.
    #[tactic(auto, unfolding(post_model::specs::Scenes::sum_value))]
    pub(crate) fn sum(&self, sum: &Sum) -> Tried<i64>
        requires { IsSmallScene (scene_view self.now) }
        ensures value { Tries result (sum_value (scene_view self.now) sum.now) }
        ensures small { IfOk result (λ n. unsigned_abs n ≤ largest_units) }
    {
        if sum.terms.len() > MOST_TERMS {
            return Err(YieldFault::Memory);
        }
        let value = self.terms(sum.terms.as_slice());
        if !is_number(value) {
            return Err(self.overflow());
        }
        Ok(value as i64)
    }
}

// The opposite number behind a minus sign.
fn opposite_if(minus: bool, n: i128) -> i128
    requires { unsigned_abs n ≤ largest_part }
    ensures value { result ≡ opposite_of minus n }
    ensures small { unsigned_abs result ≤ largest_part }
{
    if minus { -n } else { n }
}

// Whether a number is not past the largest one, either side of zero.
pub(crate) fn is_number(n: i128) -> bool
    ensures { result ≡ is_number_of n }
{
    n.unsigned_abs() <= LARGEST_UNITS as u128
}
