//! The scales of the latest write-offs, by scope.
ghost use Rattle.std.specs.Prelude.{◌≡◌};
ghost use Rattle.rule_lang.specs.Costs.{is_each as is_each_scope, round_of as round_in};
ghost use Rattle.rule_lang.specs.Costs.{resource_scale as resource_scale_of, scale_at as scale_in};
ghost use Rattle.rule_lang.specs.Costs.{costs_after as costs_in, with_scale as with_scale_in};

use crate::Act;
use crate::terms::Round;
use cfg_model::{Config, Register};
use reg_base::Scale;
use rule_text::Scope;

// The scale of the amount of the latest write-off of each scope, where there was one.
#[derive(Drop)]
pub(crate) struct Costs {
    pub(crate) once: Option<Scale>,
    pub(crate) each: Option<Scale>,
}

// Whether a statement of this scope runs for each line.
pub(crate) fn is_each(scope: &Option<Scope>) -> bool
    ensures { result ≡ is_each_scope scope.now }
{
    match scope {
        Some(Scope::EachLine) => true,
        _ => false,
    }
}

// The round that a statement runs in.
#[tactic(auto, unfolding(crate::specs::Costs::round_of))]
pub(crate) fn round_of(costs: &Costs, scope: &Option<Scope>) -> Round
    ensures { result ≡ round_in costs.now scope.now }
{
    if is_each(scope) {
        Round {
            each: true,
            cost: costs.each,
        }
    } else {
        Round {
            each: false,
            cost: costs.once,
        }
    }
}

// The scale of the resource at the place.
pub(crate) fn resource_scale(register: &Register, place: u8) -> Option<Scale>
    ensures { result ≡ resource_scale_of register.now place }
{
    let resource = register.resources.get(usize::from(place))?;
    Some(resource.scale)
}

// The scale of a resource of a register, each at its place.
#[tactic(auto, unfolding(crate::specs::Costs::scale_at))]
fn scale_at(config: &Config, register: u8, resource: u8) -> Option<Scale>
    ensures { result ≡ scale_in config.now register resource }
{
    let register = config.registers.get(usize::from(register))?;
    resource_scale(register, resource)
}

// The scales of the latest write-offs behind a statement.
#[tactic(auto, unfolding(crate::specs::Costs::costs_after))]
pub(crate) fn costs_after(config: &Config, costs: &Costs, each: bool, act: &Act) -> Costs
    ensures { result ≡ costs_in config.now costs.now each act.now }
{
    match act {
        Act::WriteOff {
            register,
            amount,
            ..
        } => with_scale(costs, each, scale_at(config, *register, *amount)),
        _ => Costs {
            once: costs.once,
            each: costs.each,
        },
    }
}

fn with_scale(costs: &Costs, each: bool, scale: Option<Scale>) -> Costs
    ensures { result ≡ with_scale_in costs.now each scale }
{
    if each {
        Costs {
            once: costs.once,
            each: scale,
        }
    } else {
        Costs {
            once: scale,
            each: costs.each,
        }
    }
}
