//! The dimensions and resources of a register with what is given them.
ghost use Rattle.std.specs.Prelude.{◌≡◌, not};
ghost use Rattle.std.specs.List.{list_any};
ghost use Rattle.rule_text.specs.declared.token.Spelling.{Spelling as Word};
ghost use Rattle.reg_base.specs.Results.{unless};
ghost use Rattle.rule_lang.specs.declared.fault.RuleWhy.TheVariants.{WrongType};
ghost use Rattle.rule_lang.specs.Least.{each_or_least as each_of};
ghost use Rattle.rule_lang.specs.Binds.{resolved_bind_to as bind_to_in, resolved_bind as bind_in};
ghost use Rattle.rule_lang.specs.Binds.{resolved_amount as amount_in, is_bound as is_bound_in};
ghost use Rattle.rule_lang.specs.Binds.{binds_each_dimension as all_bound_in};
ghost use Rattle.rule_lang.specs.Binds.{same_name as is_same_name, none_twice as none_twice_in};
ghost use Rattle.rule_lang.specs.Resolves.{Resolves};

use crate::fields::place_of;
use crate::least::{Check, beside, each_or_least};
use crate::terms::{Round, resolved_code, resolved_sum};
use crate::tried::{StatementFault, Tried};
use crate::{Bind, BindTo, RuleWhy, Sum};
use cfg_model::{Dimension, Kind, Register};
use reg_base::{Code, List};
use rule_text::{PlainAmount, PlainBind, PlainTo, Spelling};
use std::alloc::Global;

// Where binds and amounts stand: a document type, a round and a register.
#[derive(Drop)]
pub(crate) struct RegisterScene<'a> {
    kind: &'a Kind,
    round: &'a Round,
    register: &'a Register,
}

// `point` for a lot, and a code for every other dimension.
#[tactic(auto, unfolding(crate::specs::Binds::resolved_bind_to))]
fn resolved_bind_to(kind: &Kind, round: &Round, lot: bool, plain: &PlainTo) -> Tried<BindTo>
    ensures { Resolves result (bind_to_in kind.now round.now lot plain.now) }
{
    match plain {
        PlainTo::Point => {
            if !lot {
                return Err(StatementFault::Wrong(RuleWhy::WrongType));
            }
            Ok(BindTo::Point)
        }
        PlainTo::Code(code) => {
            let code = beside(code_fits(lot), resolved_code(kind, round, code))?;
            Ok(BindTo::Code(code))
        }
    }
}

fn code_fits(lot: bool) -> Result<(), RuleWhy>
    ensures { result ≡ unless (not lot) WrongType }
{
    if lot {
        return Err(RuleWhy::WrongType);
    }
    Ok(())
}

// A dimension of the register with its value.
#[tactic(auto, unfolding(crate::specs::Binds::resolved_bind))]
fn resolved_bind(scene: &RegisterScene, plain: &PlainBind) -> Tried<Bind>
    ensures { Resolves result (bind_in scene.now.kind.now scene.now.round.now
        scene.now.register.now plain.now) }
{
    let place = place_of(scene.register.dimensions.as_slice(), &plain.dimension)?;
    let dimension = scene
        .register
        .dimensions
        .get(usize::from(place))
        .ok_or(RuleWhy::UnknownName)?;
    let to = resolved_bind_to(scene.kind, scene.round, dimension.lot, &plain.to)?;
    Ok(Bind {
        dimension: place,
        to,
    })
}

impl<'a> Check<RegisterScene<'a>, Bind> for PlainBind {
    ghost checks = { λ scene plain. bind_in scene.kind.now scene.round.now scene.register.now
        plain };

    fn check(&self, _alloc: Global, scene: &RegisterScene<'a>) -> Tried<Bind> {
        resolved_bind(scene, self)
    }
}

// A resource of the register with its number.
#[tactic(auto, unfolding(crate::specs::Binds::resolved_amount))]
pub(crate) fn resolved_amount(
    alloc: Global,
    kind: &Kind,
    round: &Round,
    register: &Register,
    plain: &PlainAmount,
) -> Tried<(u8, Sum)>
    ensures { Resolves result (amount_in kind.now round.now register.now plain.now) }
{
    let place = place_of(register.resources.as_slice(), &plain.resource)?;
    let resource = register
        .resources
        .get(usize::from(place))
        .ok_or(RuleWhy::UnknownName)?;
    let sum = resolved_sum(
        alloc,
        kind,
        round,
        Some(resource.scale),
        plain.sum.as_slice(),
    )?;
    Ok((place, sum))
}

impl<'a> Check<RegisterScene<'a>, (u8, Sum)> for PlainAmount {
    ghost checks = { λ scene plain. amount_in scene.kind.now scene.round.now scene.register.now
        plain };

    fn check(&self, alloc: Global, scene: &RegisterScene<'a>) -> Tried<(u8, Sum)> {
        resolved_amount(alloc, scene.kind, scene.round, scene.register, self)
    }
}

// The binds of a target in a register.
pub(crate) fn binds_of(
    alloc: Global,
    kind: &Kind,
    round: &Round,
    register: &Register,
    binds: &[PlainBind],
) -> Tried<List<Bind>>
    ensures { Resolves result (each_of (bind_in kind.now round.now register.now)
        binds.now) }
{
    let scene = RegisterScene {
        kind,
        round,
        register,
    };
    each_or_least(alloc, &scene, binds)
}

// Whether the dimension has a value.
pub(crate) fn is_bound(binds: &[PlainBind], dimension: &Dimension) -> bool
    ensures { result ≡ is_bound_in binds.now dimension.now }
{
    let name = dimension.name.as_str();
    binds.iter().any(|b| b.dimension.is(name))
}

// Whether each dimension has a value, or is a lot where lots need none.
pub(crate) fn binds_each_dimension(
    lots_free: bool,
    register: &Register,
    binds: &[PlainBind],
) -> bool
    ensures { result ≡ all_bound_in lots_free register.now binds.now }
{
    register
        .dimensions
        .as_slice()
        .iter()
        .all(|d| lots_free && d.lot || is_bound(binds, d))
}

// Whether two words are one name.
pub(crate) fn same_name(word: &Spelling, other: &Spelling) -> bool
    ensures { result ≡ is_same_name word.now other.now }
{
    match word {
        Spelling::Named(name) => other.is(name.as_str()),
        Spelling::Other => false,
    }
}

// What is told apart by a word.
pub(crate) trait HasWord {
    ghost word_of: { Self → Word };

    fn word(&self) -> &Spelling
        ensures { result.now ≡ word_of self.now };
}

impl HasWord for PlainBind {
    ghost word_of = { λ b. b.dimension };

    fn word(&self) -> &Spelling {
        &self.dimension
    }
}

impl HasWord for PlainAmount {
    ghost word_of = { λ a. a.resource };

    fn word(&self) -> &Spelling {
        &self.resource
    }
}

// Whether no name stands twice.
#[tactic(auto, unfolding(crate::specs::Binds::none_twice))]
pub(crate) fn none_twice<H: HasWord>(items: &[H]) -> bool
    ensures { result ≡ none_twice_in H.word_of items.now }
{
    'items: for (index, item) in items.iter().enumerate() {
        if stands_in(item.word(), &items[index + 1..]) {
            return false;
        }
    }
    true
}

fn stands_in<H: HasWord>(word: &Spelling, items: &[H]) -> bool
    ensures { result ≡ list_any (λ y. is_same_name word.now (H.word_of y)) items.now }
{
    items.iter().any(|item| same_name(word, item.word()))
}

// The amounts of a register.
pub(crate) fn amounts_of(
    alloc: Global,
    kind: &Kind,
    round: &Round,
    register: &Register,
    sums: &[PlainAmount],
) -> Tried<List<(u8, Sum)>>
    ensures { Resolves result (each_of (amount_in kind.now round.now register.now)
        sums.now) }
{
    let scene = RegisterScene {
        kind,
        round,
        register,
    };
    each_or_least(alloc, &scene, sums)
}
