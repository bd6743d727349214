//! Receipts, expenses and turns.
ghost use Rattle.std.specs.Prelude.{◌≡◌};
ghost use Rattle.rule_lang.specs.Makes.{suits as suits_register, make_fits as make_fits_in};
ghost use Rattle.rule_lang.specs.Makes.{resolved_record as made_in, resolved_make as make_in};
ghost use Rattle.rule_lang.specs.Resolves.{Resolves};

use crate::binds::{amounts_of, binds_each_dimension, binds_of, none_twice};
use crate::fields::place_of;
use crate::least::{beside, both};
use crate::terms::Round;
use crate::tried::Tried;
use crate::{Act, RuleWhy};
use cfg_model::{Config, Kind, Register};
use rule_text::{PlainAmount, PlainBind, Target, Verb};
use std::alloc::Global;

fn suits(verb: Verb, balance: bool) -> bool
    ensures { result ≡ suits_register verb balance }
{
    match verb {
        Verb::Receipt | Verb::Expense => balance,
        Verb::Turn => !balance,
    }
}

#[tactic(auto, unfolding(crate::specs::Makes::make_fits))]
fn make_fits(
    verb: Verb,
    register: &Register,
    binds: &[PlainBind],
    sums: &[PlainAmount],
) -> Result<(), RuleWhy>
    ensures { result ≡ make_fits_in verb register.now binds.now sums.now }
{
    if !binds_each_dimension(false, register, binds) {
        return Err(RuleWhy::Unbound);
    }
    if !none_twice(binds) {
        return Err(RuleWhy::TwiceBound);
    }
    if !none_twice(sums) {
        return Err(RuleWhy::TwiceBound);
    }
    if !suits(verb, register.balance) {
        return Err(RuleWhy::WrongRegister);
    }
    Ok(())
}

// Receipt, expense, turn.
#[tactic(auto, unfolding(crate::specs::Makes::resolved_make))]
pub(crate) fn resolved_make(
    alloc: Global,
    config: &Config,
    kind: &Kind,
    round: &Round,
    verb: Verb,
    target: &Target,
    sums: &[PlainAmount],
) -> Tried<Act>
    ensures { Resolves result (make_in config.now kind.now round.now verb target.now
        sums.now) }
{
    let place = place_of(config.registers.as_slice(), &target.register)?;
    let register = config
        .registers
        .get(usize::from(place))
        .ok_or(RuleWhy::UnknownName)?;
    resolved_record(
        alloc,
        kind,
        round,
        place,
        register,
        verb,
        target.binds.as_slice(),
        sums,
    )
}

// A record of the register at the place.
#[tactic(auto, unfolding(crate::specs::Makes::resolved_record, crate::specs::Makes::make_act))]
fn resolved_record(
    alloc: Global,
    kind: &Kind,
    round: &Round,
    place: u8,
    register: &Register,
    verb: Verb,
    binds: &[PlainBind],
    sums: &[PlainAmount],
) -> Tried<Act>
    ensures { Resolves result (made_in kind.now round.now place register.now verb
        binds.now sums.now) }
{
    let fits = make_fits(verb, register, binds, sums);
    let bound = binds_of(alloc, kind, round, register, binds);
    let amounts = amounts_of(alloc, kind, round, register, sums);
    let (binds, sums) = beside(fits, both(bound, amounts))?;
    Ok(Act::Make {
        verb,
        register: place,
        binds,
        sums,
    })
}
