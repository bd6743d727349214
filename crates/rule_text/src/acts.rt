//! The acts of statements as they are written.
ghost use Rattle.std.specs.Prelude.{◌≡◌};
ghost use Rattle.rule_text.specs.Readers.{ReadsTokens, rest};
ghost use Rattle.rule_text.specs.Sums.{code as code_read};
ghost use Rattle.rule_text.specs.Binds.{bind_to as bind_to_of, bind as bind_of, next_bind};
ghost use Rattle.rule_text.specs.Binds.{binds as binds_of, target as target_of};
ghost use Rattle.rule_text.specs.Binds.{amount as amount_of, next_amount, amounts as amounts_of};
ghost use Rattle.rule_text.specs.Acts.{make as make_of, write_off as write_off_of};
ghost use Rattle.rule_text.specs.Acts.{require as require_of, control as control_of, next_code};
ghost use Rattle.rule_text.specs.Acts.{extra_codes as extra_codes_of};
ghost use Rattle.rule_text.specs.Acts.{account_side as account_side_of, side as side_of};
ghost use Rattle.rule_text.specs.Acts.{sides as sides_of, entry as entry_of};
ghost use Rattle.rule_text.specs.Acts.{opening_of as opening_of_word};
ghost use Rattle.rule_text.specs.Acts.{front_opening as front_opening_of, act_of, verb as verb_of};
ghost use Rattle.rule_text.specs.Acts.{act as any_act};

use crate::cursor::{Cursor, Follows, Listed, list_reader};
use crate::fault::ReadFault;
use crate::sums::{code, sum};
use crate::{
    Mark, PlainAct, PlainAmount, PlainBind, PlainCode, PlainSide, PlainSides, PlainTo, Spelling,
    Target, Verb,
};
use reg_base::List;
use std::alloc::Global;

// What a verb opens.
#[derive(Clone, Copy)]
pub(crate) enum Opening {
    Makes(Verb),
    /// Whether by the order of lots, and not by the average.
    WritesOff(bool),
    Requires,
    Controls,
    Enters,
}

// `point`, or a code.
#[tactic(auto, unfolding(crate::specs::Binds::bind_to))]
fn bind_to(cursor: &mut Cursor) -> Result<PlainTo, ReadFault>
    ensures { ReadsTokens result (rest cursor.new) (bind_to_of (rest cursor.old)) }
{
    if cursor.takes_word("point") {
        return Ok(PlainTo::Point);
    }
    let code = code(cursor)?;
    Ok(PlainTo::Code(code))
}

// A dimension, `=` and its value.
#[tactic(auto, unfolding(crate::specs::Binds::bind))]
fn bind(cursor: &mut Cursor) -> Result<PlainBind, ReadFault>
    ensures { ReadsTokens result (rest cursor.new) (bind_of (rest cursor.old)) }
{
    let dimension = cursor.name()?;
    cursor.mark(Mark::Equal)?;
    let to = bind_to(cursor)?;
    Ok(PlainBind { dimension, to })
}

impl Listed for PlainBind {
    ghost reads = { bind_of };

    fn read(_alloc: Global, cursor: &mut Cursor) -> Result<PlainBind, ReadFault> {
        bind(cursor)
    }
}

impl Follows for PlainBind {
    ghost follows = { next_bind };

    #[tactic(auto, unfolding(crate::specs::Binds::next_bind))]
    fn follow(_alloc: Global, cursor: &mut Cursor) -> Result<Option<PlainBind>, ReadFault> {
        if !cursor.takes_mark(Mark::Comma) {
            return Ok(None);
        }
        let bind = bind(cursor)?;
        Ok(Some(bind))
    }
}

// None before a semicolon, or one and more behind commas.
#[tactic(auto, unfolding(crate::specs::Binds::binds))]
fn binds(alloc: Global, cursor: &mut Cursor) -> Result<List<PlainBind>, ReadFault>
    ensures { ReadsTokens result (rest cursor.new) (binds_of (rest cursor.old)) }
{
    if cursor.is_mark(Mark::Semicolon) {
        return Ok(List::new(alloc));
    }
    list_reader(alloc, cursor)
}

// A register, then `(`, its binds and `;`.
#[tactic(auto, unfolding(crate::specs::Binds::target))]
fn target(alloc: Global, cursor: &mut Cursor) -> Result<Target, ReadFault>
    ensures { ReadsTokens result (rest cursor.new) (target_of (rest cursor.old)) }
{
    let register = cursor.name()?;
    cursor.mark(Mark::Open)?;
    let binds = binds(alloc, cursor)?;
    cursor.mark(Mark::Semicolon)?;
    Ok(Target { register, binds })
}

// A resource, `=` and a sum.
#[tactic(auto, unfolding(crate::specs::Binds::amount))]
fn amount(alloc: Global, cursor: &mut Cursor) -> Result<PlainAmount, ReadFault>
    ensures { ReadsTokens result (rest cursor.new) (amount_of (rest cursor.old)) }
{
    let resource = cursor.name()?;
    cursor.mark(Mark::Equal)?;
    let sum = sum(alloc, cursor)?;
    Ok(PlainAmount { resource, sum })
}

impl Listed for PlainAmount {
    ghost reads = { amount_of };

    fn read(alloc: Global, cursor: &mut Cursor) -> Result<PlainAmount, ReadFault> {
        amount(alloc, cursor)
    }
}

impl Follows for PlainAmount {
    ghost follows = { next_amount };

    #[tactic(auto, unfolding(crate::specs::Binds::next_amount))]
    fn follow(alloc: Global, cursor: &mut Cursor) -> Result<Option<PlainAmount>, ReadFault> {
        if !cursor.takes_mark(Mark::Comma) {
            return Ok(None);
        }
        let amount = amount(alloc, cursor)?;
        Ok(Some(amount))
    }
}

// One amount, and more behind commas.
#[tactic(auto, unfolding(crate::specs::Binds::amounts))]
fn amounts(alloc: Global, cursor: &mut Cursor) -> Result<List<PlainAmount>, ReadFault>
    ensures { ReadsTokens result (rest cursor.new) (amounts_of (rest cursor.old)) }
{
    list_reader(alloc, cursor)
}

// Receipt, expense, turn: a target, amounts and `)`.
#[tactic(auto, unfolding(crate::specs::Acts::make))]
fn make(alloc: Global, cursor: &mut Cursor, verb: Verb) -> Result<PlainAct, ReadFault>
    ensures { ReadsTokens result (rest cursor.new) (make_of verb (rest cursor.old)) }
{
    let target = target(alloc, cursor)?;
    let sums = amounts(alloc, cursor)?;
    cursor.mark(Mark::Close)?;
    Ok(PlainAct::Make { verb, target, sums })
}

// Fifo, average: a target, the amount wanted, the resource of the cost and `)`.
#[tactic(auto, unfolding(crate::specs::Acts::write_off))]
fn write_off(alloc: Global, cursor: &mut Cursor, fifo: bool) -> Result<PlainAct, ReadFault>
    ensures { ReadsTokens result (rest cursor.new) (write_off_of fifo (rest cursor.old)) }
{
    let target = target(alloc, cursor)?;
    let wanted = amount(alloc, cursor)?;
    cursor.mark(Mark::Comma)?;
    let cost = cursor.name()?;
    cursor.mark(Mark::Close)?;
    Ok(PlainAct::WriteOff {
        fifo,
        target,
        wanted,
        cost,
    })
}

// Require: a target, a resource and `)`, then `>=`, a sum, `code` and a code.
#[tactic(auto, unfolding(crate::specs::Acts::require))]
fn require(alloc: Global, cursor: &mut Cursor) -> Result<PlainAct, ReadFault>
    ensures { ReadsTokens result (rest cursor.new) (require_of (rest cursor.old)) }
{
    let target = target(alloc, cursor)?;
    let resource = cursor.name()?;
    cursor.mark(Mark::Close)?;
    cursor.mark(Mark::AtLeast)?;
    let least = sum(alloc, cursor)?;
    cursor.word("code")?;
    let code = cursor.quoted()?;
    Ok(PlainAct::Require {
        target,
        resource,
        least,
        code,
    })
}

// Control: a register and a resource.
#[tactic(auto, unfolding(crate::specs::Acts::control))]
fn control(cursor: &mut Cursor) -> Result<PlainAct, ReadFault>
    ensures { ReadsTokens result (rest cursor.new) (control_of (rest cursor.old)) }
{
    let register = cursor.name()?;
    let resource = cursor.name()?;
    Ok(PlainAct::Control { register, resource })
}

impl Listed for PlainCode {
    ghost reads = { code_read };

    fn read(_alloc: Global, cursor: &mut Cursor) -> Result<PlainCode, ReadFault> {
        code(cursor)
    }
}

impl Follows for PlainCode {
    ghost follows = { next_code };

    #[tactic(auto, unfolding(crate::specs::Acts::next_code))]
    fn follow(_alloc: Global, cursor: &mut Cursor) -> Result<Option<PlainCode>, ReadFault> {
        if !cursor.takes_mark(Mark::Comma) {
            return Ok(None);
        }
        let code = code(cursor)?;
        Ok(Some(code))
    }
}

// None before `)`, or one and more behind commas.
#[tactic(auto, unfolding(crate::specs::Acts::extra_codes))]
fn extra_codes(alloc: Global, cursor: &mut Cursor) -> Result<List<PlainCode>, ReadFault>
    ensures { ReadsTokens result (rest cursor.new) (extra_codes_of (rest cursor.old)) }
{
    if cursor.is_mark(Mark::Close) {
        return Ok(List::new(alloc));
    }
    list_reader(alloc, cursor)
}

// An account, then its extras between `(` and `)`.
#[tactic(auto, unfolding(crate::specs::Acts::account_side))]
fn account_side(alloc: Global, cursor: &mut Cursor) -> Result<Option<PlainSide>, ReadFault>
    ensures { ReadsTokens result (rest cursor.new) (account_side_of (rest cursor.old)) }
{
    let account = code(cursor)?;
    cursor.mark(Mark::Open)?;
    let extras = extra_codes(alloc, cursor)?;
    cursor.mark(Mark::Close)?;
    Ok(Some(PlainSide { account, extras }))
}

// `none`, or an account.
#[tactic(auto, unfolding(crate::specs::Acts::side))]
fn side(alloc: Global, cursor: &mut Cursor) -> Result<Option<PlainSide>, ReadFault>
    ensures { ReadsTokens result (rest cursor.new) (side_of (rest cursor.old)) }
{
    if cursor.takes_word("none") {
        return Ok(None);
    }
    account_side(alloc, cursor)
}

// `debit` and a side, a comma, `credit` and a side.
#[tactic(auto, unfolding(crate::specs::Acts::sides))]
fn sides(alloc: Global, cursor: &mut Cursor) -> Result<PlainSides, ReadFault>
    ensures { ReadsTokens result (rest cursor.new) (sides_of (rest cursor.old)) }
{
    cursor.word("debit")?;
    let debit = side(alloc, cursor)?;
    cursor.mark(Mark::Comma)?;
    cursor.word("credit")?;
    let credit = side(alloc, cursor)?;
    Ok(PlainSides { debit, credit })
}

// Entry: a ledger, then between `(` and `)` the sides, `;` and a sum.
#[tactic(auto, unfolding(crate::specs::Acts::entry))]
fn entry(alloc: Global, cursor: &mut Cursor) -> Result<PlainAct, ReadFault>
    ensures { ReadsTokens result (rest cursor.new) (entry_of (rest cursor.old)) }
{
    let ledger = cursor.name()?;
    cursor.mark(Mark::Open)?;
    let sides = sides(alloc, cursor)?;
    cursor.mark(Mark::Semicolon)?;
    let amount = sum(alloc, cursor)?;
    cursor.mark(Mark::Close)?;
    Ok(PlainAct::Entry {
        ledger,
        sides,
        amount,
    })
}

// What a verb opens.
#[tactic(auto, unfolding(crate::specs::Acts::opening_of))]
fn opening_of(spelling: &Spelling) -> Option<Opening>
    ensures { result ≡ opening_of_word spelling.now }
{
    if spelling.is("receipt") {
        Some(Opening::Makes(Verb::Receipt))
    } else if spelling.is("expense") {
        Some(Opening::Makes(Verb::Expense))
    } else if spelling.is("turn") {
        Some(Opening::Makes(Verb::Turn))
    } else if spelling.is("fifo") {
        Some(Opening::WritesOff(true))
    } else if spelling.is("average") {
        Some(Opening::WritesOff(false))
    } else if spelling.is("require") {
        Some(Opening::Requires)
    } else if spelling.is("control") {
        Some(Opening::Controls)
    } else if spelling.is("entry") {
        Some(Opening::Enters)
    } else {
        None
    }
}

fn front_opening(cursor: &Cursor) -> Option<Opening>
    ensures { result ≡ front_opening_of (rest cursor.now) }
{
    let spelling = cursor.front_word()?;
    opening_of(&spelling)
}

// The verb.
#[tactic(auto, unfolding(crate::specs::Acts::verb))]
fn verb(cursor: &mut Cursor) -> Result<Opening, ReadFault>
    ensures { ReadsTokens result (rest cursor.new) (verb_of (rest cursor.old)) }
{
    match front_opening(cursor) {
        Some(opening) => {
            cursor.skip();
            Ok(opening)
        }
        None => Err(cursor.stuck()),
    }
}

// What stands behind the verb.
#[tactic(auto, unfolding(crate::specs::Acts::act_of))]
fn opened(alloc: Global, cursor: &mut Cursor, opening: Opening) -> Result<PlainAct, ReadFault>
    ensures { ReadsTokens result (rest cursor.new) (act_of opening (rest cursor.old)) }
{
    match opening {
        Opening::Makes(verb) => make(alloc, cursor, verb),
        Opening::WritesOff(fifo) => write_off(alloc, cursor, fifo),
        Opening::Requires => require(alloc, cursor),
        Opening::Controls => control(cursor),
        Opening::Enters => entry(alloc, cursor),
    }
}

// A verb and what stands behind it.
#[tactic(auto, unfolding(crate::specs::Acts::act))]
pub(crate) fn act(alloc: Global, cursor: &mut Cursor) -> Result<PlainAct, ReadFault>
    ensures { ReadsTokens result (rest cursor.new) (any_act (rest cursor.old)) }
{
    let opening = verb(cursor)?;
    opened(alloc, cursor, opening)
}
