//! Write-offs, by the order of lots or by the average.
ghost use Rattle.std.specs.Prelude.{◌≡◌};
ghost use Rattle.std.specs.List.{list_any};
ghost use Rattle.rule_lang.specs.WriteOffs.{lot_bound as lot_bound_in, order_fits as order_fits_in};
ghost use Rattle.rule_lang.specs.WriteOffs.{write_off_fits as write_off_fits_in};
ghost use Rattle.rule_lang.specs.WriteOffs.{resolved_write_off_from as written_off_in};
ghost use Rattle.rule_lang.specs.WriteOffs.{resolved_write_off as write_off_in};
ghost use Rattle.rule_lang.specs.Resolves.{Resolves};

use crate::binds::{
    binds_each_dimension, binds_of, is_bound, none_twice, resolved_amount, same_name,
};
use crate::fields::place_of;
use crate::least::{beside, both};
use crate::terms::Round;
use crate::tried::Tried;
use crate::{Act, RuleWhy};
use cfg_model::{Config, Kind, Register};
use reg_base::List;
use rule_text::{PlainAmount, PlainBind, Spelling, Target};
use std::alloc::Global;

// Whether a lot has a value.
fn lot_bound(register: &Register, binds: &[PlainBind]) -> bool
    ensures { result ≡ lot_bound_in register.now binds.now }
{
    register
        .dimensions
        .as_slice()
        .iter()
        .any(|d| d.lot && is_bound(binds, d))
}

fn has_lot(register: &Register) -> bool
    ensures { result ≡ list_any (λ d. d.lot) register.now.dimensions }
{
    register.dimensions.as_slice().iter().any(|d| d.lot)
}

// By the order of lots there is a lot, and it has no value.
fn order_fits(fifo: bool, register: &Register, binds: &[PlainBind]) -> bool
    ensures { result ≡ order_fits_in fifo register.now binds.now }
{
    if !fifo {
        return true;
    }
    has_lot(register) && !lot_bound(register, binds)
}

#[tactic(auto, unfolding(crate::specs::WriteOffs::write_off_fits))]
fn write_off_fits(
    fifo: bool,
    register: &Register,
    binds: &[PlainBind],
    quantity: &Spelling,
    cost: &Spelling,
) -> Result<(), RuleWhy>
    ensures { result ≡ write_off_fits_in fifo register.now binds.now quantity.now cost.now }
{
    if !binds_each_dimension(fifo, register, binds) {
        return Err(RuleWhy::Unbound);
    }
    if !none_twice(binds) {
        return Err(RuleWhy::TwiceBound);
    }
    if same_name(quantity, cost) {
        return Err(RuleWhy::TwiceBound);
    }
    if !register.balance {
        return Err(RuleWhy::WrongRegister);
    }
    if !order_fits(fifo, register, binds) {
        return Err(RuleWhy::WrongRegister);
    }
    Ok(())
}

// Fifo, average.
#[tactic(auto, unfolding(crate::specs::WriteOffs::resolved_write_off))]
pub(crate) fn resolved_write_off(
    alloc: Global,
    config: &Config,
    kind: &Kind,
    round: &Round,
    fifo: bool,
    target: &Target,
    wanted: &PlainAmount,
    cost: &Spelling,
) -> Tried<Act>
    ensures { Resolves result (write_off_in config.now kind.now round.now fifo
        target.now wanted.now cost.now) }
{
    let place = place_of(config.registers.as_slice(), &target.register)?;
    let register = config
        .registers
        .get(usize::from(place))
        .ok_or(RuleWhy::UnknownName)?;
    resolved_write_off_from(
        alloc,
        kind,
        round,
        place,
        register,
        fifo,
        target.binds.as_slice(),
        wanted,
        cost,
    )
}

// A write-off from the register at the place.
#[tactic(auto, unfolding(crate::specs::WriteOffs::resolved_write_off_from, crate::specs::WriteOffs::write_off_act))]
fn resolved_write_off_from(
    alloc: Global,
    kind: &Kind,
    round: &Round,
    place: u8,
    register: &Register,
    fifo: bool,
    binds: &[PlainBind],
    wanted: &PlainAmount,
    cost: &Spelling,
) -> Tried<Act>
    ensures { Resolves result (written_off_in kind.now round.now place register.now
        fifo binds.now wanted.now cost.now) }
{
    let amount = place_of(register.resources.as_slice(), cost)?;
    let fits = write_off_fits(fifo, register, binds, &wanted.resource, cost);
    let bound = binds_of(alloc, kind, round, register, binds);
    let wanted = resolved_amount(alloc, kind, round, register, wanted);
    let (binds, (quantity, wanted)) = beside(fits, both(bound, wanted))?;
    Ok(Act::WriteOff {
        fifo,
        register: place,
        binds,
        quantity,
        wanted,
        amount,
    })
}
