//! Entries of a ledger.
ghost use Rattle.std.specs.Prelude.{◌≡◌};
ghost use Rattle.rule_lang.specs.Least.{each_or_least as each_of};
ghost use Rattle.rule_lang.specs.Terms.{resolved_code as code_in};
ghost use Rattle.rule_lang.specs.Entries.{resolved_account as account_in, resolved_side as side_in};
ghost use Rattle.rule_lang.specs.Entries.{resolved_entry as entry_in};
ghost use Rattle.rule_lang.specs.Resolves.{Resolves};

use crate::fields::place_of;
use crate::least::{Check, both, each_or_least};
use crate::terms::{Round, resolved_code, resolved_sum};
use crate::tried::Tried;
use crate::{Act, CodeTerm, Place, RuleWhy};
use cfg_model::{Config, Kind};
use reg_base::List;
use rule_text::{PlainCode, PlainSide, PlainSides, PlainTerm, Spelling};
use std::alloc::Global;

// Where a code stands: a document type and a round.
#[derive(Drop)]
pub(crate) struct CodeScene<'a> {
    kind: &'a Kind,
    round: &'a Round,
}

impl<'a> Check<CodeScene<'a>, CodeTerm> for PlainCode {
    ghost checks = { λ scene plain. code_in scene.kind.now scene.round.now plain };

    fn check(&self, _alloc: Global, scene: &CodeScene<'a>) -> Tried<CodeTerm> {
        resolved_code(scene.kind, scene.round, self)
    }
}

fn extras_of(
    alloc: Global,
    kind: &Kind,
    round: &Round,
    extras: &[PlainCode],
) -> Tried<List<CodeTerm>>
    ensures { Resolves result (each_of (code_in kind.now round.now) extras.now) }
{
    let scene = CodeScene { kind, round };
    each_or_least(alloc, &scene, extras)
}

// An account with its extras.
#[tactic(auto, unfolding(crate::specs::Entries::resolved_account))]
fn resolved_account(alloc: Global, kind: &Kind, round: &Round, side: &PlainSide) -> Tried<Place>
    ensures { Resolves result (account_in kind.now round.now side.now) }
{
    let account = resolved_code(kind, round, &side.account);
    let extras = extras_of(alloc, kind, round, side.extras.as_slice());
    let (account, extras) = both(account, extras)?;
    Ok(Place { account, extras })
}

// A side, which may be absent.
#[tactic(auto, unfolding(crate::specs::Entries::resolved_side))]
fn resolved_side(
    alloc: Global,
    kind: &Kind,
    round: &Round,
    side: &Option<PlainSide>,
) -> Tried<Option<Place>>
    ensures { Resolves result (side_in kind.now round.now side.now) }
{
    match side {
        None => Ok(None),
        Some(side) => Ok(Some(resolved_account(alloc, kind, round, side)?)),
    }
}

// Entry.
#[tactic(auto, unfolding(crate::specs::Entries::resolved_entry, crate::specs::Entries::entry_act))]
pub(crate) fn resolved_entry(
    alloc: Global,
    config: &Config,
    kind: &Kind,
    round: &Round,
    ledger: &Spelling,
    sides: &PlainSides,
    amount: &[PlainTerm],
) -> Tried<Act>
    ensures { Resolves result (entry_in config.now kind.now round.now ledger.now
        sides.now amount.now) }
{
    let place = place_of(config.ledgers.as_slice(), ledger)?;
    let chart = config
        .ledgers
        .get(usize::from(place))
        .ok_or(RuleWhy::UnknownName)?;
    let debit = resolved_side(alloc, kind, round, &sides.debit);
    let credit = resolved_side(alloc, kind, round, &sides.credit);
    let amount = resolved_sum(alloc, kind, round, Some(chart.scale), amount);
    let ((debit, credit), amount) = both(both(debit, credit), amount)?;
    Ok(Act::Entry {
        ledger: place,
        debit,
        credit,
        amount,
    })
}
