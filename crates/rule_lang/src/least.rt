//! Checks of which the reason of the least number is told.
ghost use Rattle.std.specs.Prelude.{◌≡◌, Ok};
ghost use Rattle.rule_lang.specs.Least.{Checked, both as both_of, beside as beside_of};
ghost use Rattle.rule_lang.specs.Least.{each_or_least as each_of, with_one as with_one_of};
ghost use Rattle.rule_lang.specs.Resolves.{Resolves};

use crate::RuleWhy;
use crate::tried::{StatementFault, Tried};
use reg_base::List;
use std::alloc::Global;

// Both, or the lesser of the reasons against them.
#[tactic(auto, unfolding(crate::specs::Least::both))]
pub(crate) fn both<X: Drop, Y: Drop>(first: Tried<X>, second: Tried<Y>) -> Tried<(X, Y)>
    ensures { (a : Checked X) → (b : Checked Y) → Resolves first a → Resolves second b
        → Resolves result (both_of a b) }
{
    match (first, second) {
        (Ok(x), Ok(y)) => Ok((x, y)),
        (Ok(_), Err(fault)) => Err(fault),
        (Err(fault), Ok(_)) => Err(fault),
        (Err(StatementFault::Wrong(a)), Err(StatementFault::Wrong(b))) => {
            Err(StatementFault::Wrong(a.lesser(b)))
        }
        _ => Err(StatementFault::Memory),
    }
}

// A value that is checked beside, or the lesser of the reasons.
#[tactic(auto, unfolding(crate::specs::Least::beside))]
pub(crate) fn beside<X: Drop>(fits: Result<(), RuleWhy>, value: Tried<X>) -> Tried<X>
    ensures { (found : Checked X) → Resolves value found → Resolves result (beside_of fits found) }
{
    match (fits, value) {
        (Ok(()), value) => value,
        (Err(why), Ok(_)) => Err(StatementFault::Wrong(why)),
        (Err(a), Err(StatementFault::Wrong(b))) => Err(StatementFault::Wrong(a.lesser(b))),
        (Err(_), Err(StatementFault::Memory)) => Err(StatementFault::Memory),
    }
}

// What is checked within a context, and what it means there.
pub(crate) trait Check<C, Y: Drop> {
    ghost checks: { C → Self → Checked Y };

    fn check(&self, alloc: Global, context: &C) -> Tried<Y>
        ensures { Resolves result (checks context.now self.now) };
}

// Each of them, or the least of the reasons against them.
#[tactic(auto, using(crate::proofs::LeastLemmas::steps))]
pub(crate) fn each_or_least<C, Y: Drop, K: Check<C, Y>>(
    alloc: Global,
    context: &C,
    items: &[K],
) -> Tried<List<Y>>
    ensures { Resolves result (each_of (K.checks context.now) items.now) }
{
    let mut found = Vec::new(alloc);
    let mut against = None;
    'items: for item in items {
        let y = match item.check(alloc, context) {
            Ok(y) => y,
            Err(StatementFault::Wrong(why)) => {
                against = Some(with_one(against, why));
                continue;
            }
            Err(StatementFault::Memory) => return Err(StatementFault::Memory),
        };
        found.push(y)?;
    }
    match against {
        Some(why) => Err(StatementFault::Wrong(why)),
        None => Ok(List::from_vec(found)),
    }
}

// The lesser of the reason that was there, if one was, and of this one.
fn with_one(against: Option<RuleWhy>, why: RuleWhy) -> RuleWhy
    ensures { result ≡ with_one_of against why }
{
    match against {
        Some(other) => other.lesser(why),
        None => why,
    }
}
