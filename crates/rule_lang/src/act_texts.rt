//! The canonical text of acts.
ghost use Rattle.std.specs.Prelude.{◌≡◌, ◌++◌, IfOk, codes, string_bytes};
ghost use Rattle.rule_lang.specs.TermTexts.{list_text as list_text_of, code_text as code_text_of};
ghost use Rattle.rule_lang.specs.RuleTexts.{to_text as to_text_of, bind_text as bind_text_of};
ghost use Rattle.rule_lang.specs.RuleTexts.{binds_text as binds_text_of};
ghost use Rattle.rule_lang.specs.RuleTexts.{amount_text as amount_text_of};
ghost use Rattle.rule_lang.specs.RuleTexts.{amounts_text as amounts_text_of};
ghost use Rattle.rule_lang.specs.RuleTexts.{verb_text as verb_text_of, order_text as order_text_of};
ghost use Rattle.rule_lang.specs.RuleTexts.{make_text as make_text_of};
ghost use Rattle.rule_lang.specs.RuleTexts.{write_off_text as write_off_text_of};
ghost use Rattle.rule_lang.specs.RuleTexts.{require_text as require_text_of};
ghost use Rattle.rule_lang.specs.RuleTexts.{control_text as control_text_of};
ghost use Rattle.rule_lang.specs.RuleTexts.{side_text as side_text_of, entry_text as entry_text_of};
ghost use Rattle.rule_lang.specs.RuleTexts.{act_text as act_text_of};

use crate::costs::resource_scale;
use crate::spelt::{Spelt, list_text, name_of_place};
use crate::term_texts::{code_text, terms_text};
use crate::{Act, Bind, BindTo, CodeTerm, Place, Sum, Term, Verb};
use cfg_model::{Chart, Config, Kind, Register};
use reg_base::{Code, Memory, string_of};
use std::alloc::Global;

// Where binds and amounts are written: a document type and a register.
#[derive(Drop)]
pub(crate) struct WrittenScene<'a> {
    kind: &'a Kind,
    register: &'a Register,
}

// `point`, or a code.
#[tactic(auto, unfolding(crate::specs::RuleTexts::to_text))]
fn to_text(alloc: Global, kind: &Kind, to: &BindTo) -> Result<String, Memory>
    ensures { IfOk result (λ t. string_bytes t ≡ to_text_of kind.now to.now) }
{
    match to {
        BindTo::Point => string_of(alloc, "point"),
        BindTo::Code(code) => code_text(alloc, kind, code),
    }
}

// A dimension with its value.
#[tactic(auto, unfolding(crate::specs::RuleTexts::bind_text))]
fn bind_text(alloc: Global, kind: &Kind, register: &Register, bind: &Bind) -> Result<String, Memory>
    ensures { IfOk result
        (λ t. string_bytes t ≡ bind_text_of kind.now register.now bind.now) }
{
    let name = name_of_place(register.dimensions.as_slice(), bind.dimension);
    let to = to_text(alloc, kind, &bind.to)?;
    Ok(format!(in alloc; "{name} = {to}")?)
}

impl<'a> Spelt<WrittenScene<'a>> for Bind {
    ghost text_of = { λ scene bind. bind_text_of scene.kind.now scene.register.now bind };

    ghost joint_of = { λ _. codes ", " };

    fn text(&self, alloc: Global, context: &WrittenScene<'a>) -> Result<String, Memory> {
        bind_text(alloc, context.kind, context.register, self)
    }

    fn joint(&self) -> &str
        ensures { result.now ≡ codes ", " }
    {
        ", "
    }
}

// Dimensions with their values, behind commas.
#[tactic(auto, unfolding(crate::specs::RuleTexts::binds_text))]
fn binds_text(
    alloc: Global,
    kind: &Kind,
    register: &Register,
    binds: &[Bind],
) -> Result<String, Memory>
    ensures { IfOk result
        (λ t. string_bytes t ≡ binds_text_of kind.now register.now binds.now) }
{
    let scene = WrittenScene { kind, register };
    list_text(alloc, &scene, binds)
}

// A resource with its number.
#[tactic(auto, unfolding(crate::specs::RuleTexts::amount_text))]
fn amount_text(
    alloc: Global,
    kind: &Kind,
    register: &Register,
    place: u8,
    terms: &[Term],
) -> Result<String, Memory>
    ensures { IfOk result
        (λ t. string_bytes t ≡ amount_text_of kind.now register.now place terms.now) }
{
    let name = name_of_place(register.resources.as_slice(), place);
    let sum = terms_text(alloc, kind, resource_scale(register, place), terms)?;
    Ok(format!(in alloc; "{name} = {sum}")?)
}

impl<'a> Spelt<WrittenScene<'a>> for (u8, Sum) {
    ghost text_of = { λ scene s. amount_text_of scene.kind.now scene.register.now s.0 s.1.terms };

    ghost joint_of = { λ _. codes ", " };

    fn text(&self, alloc: Global, context: &WrittenScene<'a>) -> Result<String, Memory> {
        amount_text(
            alloc,
            context.kind,
            context.register,
            self.0,
            self.1.terms.as_slice(),
        )
    }

    fn joint(&self) -> &str
        ensures { result.now ≡ codes ", " }
    {
        ", "
    }
}

// Resources with their numbers, behind commas.
#[tactic(auto, unfolding(crate::specs::RuleTexts::amounts_text))]
fn amounts_text(
    alloc: Global,
    kind: &Kind,
    register: &Register,
    sums: &[(u8, Sum)],
) -> Result<String, Memory>
    ensures { IfOk result
        (λ t. string_bytes t ≡ amounts_text_of kind.now register.now sums.now) }
{
    let scene = WrittenScene { kind, register };
    list_text(alloc, &scene, sums)
}

fn verb_text(verb: Verb) -> &'static str
    ensures { result.now ≡ verb_text_of verb }
{
    match verb {
        Verb::Receipt => "receipt",
        Verb::Expense => "expense",
        Verb::Turn => "turn",
    }
}

fn order_text(fifo: bool) -> &'static str
    ensures { result.now ≡ order_text_of fifo }
{
    if fifo { "fifo" } else { "average" }
}

// Receipt, expense, turn.
#[tactic(auto, unfolding(crate::specs::RuleTexts::make_text))]
fn make_text(
    alloc: Global,
    kind: &Kind,
    verb: Verb,
    binds: &[Bind],
    sums: &[(u8, Sum)],
    register: &Register,
) -> Result<String, Memory>
    ensures { IfOk result (λ t. string_bytes t
        ≡ make_text_of kind.now verb binds.now sums.now register.now) }
{
    let word = verb_text(verb);
    let name = register.name.as_str();
    let bound = binds_text(alloc, kind, register, binds)?;
    let amounts = amounts_text(alloc, kind, register, sums)?;
    Ok(format!(in alloc; "{word} {name}({bound}; {amounts})")?)
}

// Fifo, average.
#[tactic(auto, unfolding(crate::specs::RuleTexts::write_off_text))]
fn write_off_text(
    alloc: Global,
    kind: &Kind,
    fifo: bool,
    binds: &[Bind],
    quantity: u8,
    wanted: &Sum,
    amount: u8,
    register: &Register,
) -> Result<String, Memory>
    ensures { IfOk result (λ t. string_bytes t ≡ write_off_text_of kind.now fifo binds.now
        quantity wanted.now amount register.now) }
{
    let word = order_text(fifo);
    let name = register.name.as_str();
    let bound = binds_text(alloc, kind, register, binds)?;
    let taken = amount_text(alloc, kind, register, quantity, wanted.terms.as_slice())?;
    let cost = name_of_place(register.resources.as_slice(), amount);
    Ok(format!(in alloc; "{word} {name}({bound}; {taken}, {cost})")?)
}

// Require.
#[tactic(auto, unfolding(crate::specs::RuleTexts::require_text))]
fn require_text(
    alloc: Global,
    kind: &Kind,
    binds: &[Bind],
    resource: u8,
    least: &Sum,
    code: &Code,
    register: &Register,
) -> Result<String, Memory>
    ensures { IfOk result (λ t. string_bytes t ≡ require_text_of kind.now binds.now resource
        least.now code.now register.now) }
{
    let name = register.name.as_str();
    let bound = binds_text(alloc, kind, register, binds)?;
    let of = name_of_place(register.resources.as_slice(), resource);
    let scale = resource_scale(register, resource);
    let sum = terms_text(alloc, kind, scale, least.terms.as_slice())?;
    let code = code.as_str();
    Ok(format!(in alloc; "require {name}({bound}; {of}) >= {sum} code \"{code}\"")?)
}

// Control.
#[tactic(auto, unfolding(crate::specs::RuleTexts::control_text))]
fn control_text(alloc: Global, resource: u8, register: &Register) -> Result<String, Memory>
    ensures { IfOk result (λ t. string_bytes t ≡ control_text_of resource register.now) }
{
    let name = register.name.as_str();
    let of = name_of_place(register.resources.as_slice(), resource);
    Ok(format!(in alloc; "control {name} {of}")?)
}

// `none`, or an account with its extras.
#[tactic(auto, unfolding(crate::specs::RuleTexts::side_text))]
fn side_text(alloc: Global, kind: &Kind, side: &Option<Place>) -> Result<String, Memory>
    ensures { IfOk result (λ t. string_bytes t ≡ side_text_of kind.now side.now) }
{
    match side {
        None => string_of(alloc, "none"),
        Some(side) => account_text(alloc, kind, &side.account, side.extras.as_slice()),
    }
}

fn account_text(
    alloc: Global,
    kind: &Kind,
    account: &CodeTerm,
    extras: &[CodeTerm],
) -> Result<String, Memory>
    ensures { IfOk result (λ t. string_bytes t ≡ code_text_of kind.now account.now
        ++ (codes "(" ++ (list_text_of (λ _. codes ", ") (code_text_of kind.now) extras.now
        ++ codes ")"))) }
{
    let account = code_text(alloc, kind, account)?;
    let extras = list_text(alloc, kind, extras)?;
    Ok(format!(in alloc; "{account}({extras})")?)
}

// Entry.
#[tactic(auto, unfolding(crate::specs::RuleTexts::entry_text))]
fn entry_text(
    alloc: Global,
    kind: &Kind,
    debit: &Option<Place>,
    credit: &Option<Place>,
    amount: &Sum,
    chart: &Chart,
) -> Result<String, Memory>
    ensures { IfOk result (λ t. string_bytes t ≡ entry_text_of kind.now debit.now credit.now
        amount.now chart.now) }
{
    let name = chart.name.as_str();
    let debit = side_text(alloc, kind, debit)?;
    let credit = side_text(alloc, kind, credit)?;
    let sum = terms_text(alloc, kind, Some(chart.scale), amount.terms.as_slice())?;
    Ok(format!(in alloc; "entry {name}(debit {debit}, credit {credit}; {sum})")?)
}

// An act; empty where it stands on nothing.
#[tactic(auto, unfolding(crate::specs::RuleTexts::act_text))]
pub(crate) fn act_text(
    alloc: Global,
    config: &Config,
    kind: &Kind,
    act: &Act,
) -> Result<String, Memory>
    ensures { IfOk result (λ t. string_bytes t ≡ act_text_of config.now kind.now act.now) }
{
    match act {
        Act::Make {
            verb,
            register,
            binds,
            sums,
        } => match config.registers.get(usize::from(*register)) {
            Some(register) => {
                let sums = sums.as_slice();
                make_text(alloc, kind, *verb, binds.as_slice(), sums, register)
            }
            None => Ok(String::new(alloc)),
        },
        Act::WriteOff {
            fifo,
            register,
            binds,
            quantity,
            wanted,
            amount,
        } => match config.registers.get(usize::from(*register)) {
            Some(register) => {
                let binds = binds.as_slice();
                write_off_text(
                    alloc, kind, *fifo, binds, *quantity, wanted, *amount, register,
                )
            }
            None => Ok(String::new(alloc)),
        },
        Act::Require {
            register,
            binds,
            resource,
            least,
            code,
        } => match config.registers.get(usize::from(*register)) {
            Some(register) => {
                let binds = binds.as_slice();
                require_text(alloc, kind, binds, *resource, least, code, register)
            }
            None => Ok(String::new(alloc)),
        },
        Act::Control { register, resource } => {
            match config.registers.get(usize::from(*register)) {
                Some(register) => control_text(alloc, *resource, register),
                None => Ok(String::new(alloc)),
            }
        }
        Act::Entry {
            ledger,
            debit,
            credit,
            amount,
        } => match config.ledgers.get(usize::from(*ledger)) {
            Some(chart) => entry_text(alloc, kind, debit, credit, amount, chart),
            None => Ok(String::new(alloc)),
        },
    }
}
