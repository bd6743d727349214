//! What is required of a register, and what is controlled.
ghost use Rattle.std.specs.Prelude.{◌≡◌};
ghost use Rattle.rule_lang.specs.Requirements.{require_fits as require_fits_in};
ghost use Rattle.rule_lang.specs.Requirements.{resolved_requirement as required_in};
ghost use Rattle.rule_lang.specs.Requirements.{resolved_require as require_in};
ghost use Rattle.rule_lang.specs.Requirements.{resolved_control as control_in};
ghost use Rattle.rule_lang.specs.Resolves.{Resolves};

use crate::binds::{binds_of, none_twice};
use crate::fields::place_of;
use crate::least::{beside, both};
use crate::terms::{Round, resolved_sum};
use crate::tried::Tried;
use crate::{Act, RuleWhy};
use cfg_model::{Config, Kind, Register};
use reg_base::{Code, Scale};
use rule_text::{PlainBind, PlainTerm, Spelling, Target};
use std::alloc::Global;

#[tactic(auto, unfolding(crate::specs::Requirements::require_fits))]
fn require_fits(register: &Register, binds: &[PlainBind]) -> Result<(), RuleWhy>
    ensures { result ≡ require_fits_in register.now binds.now }
{
    if !none_twice(binds) {
        return Err(RuleWhy::TwiceBound);
    }
    if !register.balance {
        return Err(RuleWhy::WrongRegister);
    }
    Ok(())
}

// Require.
#[tactic(auto, unfolding(crate::specs::Requirements::resolved_require))]
pub(crate) fn resolved_require(
    alloc: Global,
    config: &Config,
    kind: &Kind,
    round: &Round,
    target: &Target,
    word: &Spelling,
    least: &[PlainTerm],
    code: &Code,
) -> Tried<Act>
    ensures { Resolves result (require_in config.now kind.now round.now target.now
        word.now least.now code.now) }
{
    let place = place_of(config.registers.as_slice(), &target.register)?;
    let register = config
        .registers
        .get(usize::from(place))
        .ok_or(RuleWhy::UnknownName)?;
    let at = place_of(register.resources.as_slice(), word)?;
    let resource = register
        .resources
        .get(usize::from(at))
        .ok_or(RuleWhy::UnknownName)?;
    let binds = target.binds.as_slice();
    resolved_requirement(
        alloc,
        kind,
        round,
        place,
        register,
        binds,
        at,
        resource.scale,
        least,
        code,
    )
}

// What is required of the register at the place.
#[tactic(auto, unfolding(crate::specs::Requirements::resolved_requirement, crate::specs::Requirements::require_act))]
fn resolved_requirement(
    alloc: Global,
    kind: &Kind,
    round: &Round,
    place: u8,
    register: &Register,
    binds: &[PlainBind],
    at: u8,
    scale: Scale,
    least: &[PlainTerm],
    code: &Code,
) -> Tried<Act>
    ensures { Resolves result (required_in kind.now round.now place register.now
        binds.now at scale least.now code.now) }
{
    let fits = require_fits(register, binds);
    let bound = binds_of(alloc, kind, round, register, binds);
    let least = resolved_sum(alloc, kind, round, Some(scale), least);
    let (binds, least) = beside(fits, both(bound, least))?;
    Ok(Act::Require {
        register: place,
        binds,
        resource: at,
        least,
        code: *code,
    })
}

// Control.
#[tactic(auto, unfolding(crate::specs::Requirements::resolved_control))]
pub(crate) fn resolved_control(
    config: &Config,
    register: &Spelling,
    resource: &Spelling,
) -> Result<Act, RuleWhy>
    ensures { result ≡ control_in config.now register.now resource.now }
{
    let place = place_of(config.registers.as_slice(), register)?;
    let of = config
        .registers
        .get(usize::from(place))
        .ok_or(RuleWhy::UnknownName)?;
    let at = place_of(of.resources.as_slice(), resource)?;
    if !of.balance {
        return Err(RuleWhy::WrongRegister);
    }
    Ok(Act::Control {
        register: place,
        resource: at,
    })
}
