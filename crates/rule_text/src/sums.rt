//! Codes, terms and sums as they are written.
ghost use Rattle.std.specs.Prelude.{◌≡◌, false};
ghost use Rattle.rule_text.specs.Readers.{ReadsTokens, rest};
ghost use Rattle.rule_text.specs.Sums.{field as field_of, owner as owner_of};
ghost use Rattle.rule_text.specs.Sums.{code_field as code_field_of, field_code as field_code_of};
ghost use Rattle.rule_text.specs.Sums.{code as code_read, field_part as field_part_of};
ghost use Rattle.rule_text.specs.Sums.{part as part_of, term as term_of, joint as joint_of};
ghost use Rattle.rule_text.specs.Sums.{next_term, sum as sum_of};

use crate::cursor::{Cursor, Follows, Listed, list_reader};
use crate::fault::ReadFault;
use crate::{Mark, PlainCode, PlainPart, PlainTerm, Spelling};
use reg_base::List;
use std::alloc::Global;

// What has fields.
#[derive(Clone, Copy)]
pub(crate) enum Owner {
    OfHead,
    OfLine,
}

// A point and the name of a field.
#[tactic(auto, unfolding(crate::specs::Sums::field))]
fn field(cursor: &mut Cursor) -> Result<Spelling, ReadFault>
    ensures { ReadsTokens result (rest cursor.new) (field_of (rest cursor.old)) }
{
    cursor.mark(Mark::Point)?;
    cursor.name()
}

// The word of head or of line.
#[tactic(auto, unfolding(crate::specs::Sums::owner))]
fn owner_word(cursor: &mut Cursor) -> Result<Owner, ReadFault>
    ensures { ReadsTokens result (rest cursor.new) (owner_of (rest cursor.old)) }
{
    if cursor.takes_word("head") {
        return Ok(Owner::OfHead);
    }
    if cursor.takes_word("line") {
        return Ok(Owner::OfLine);
    }
    Err(cursor.stuck())
}

fn code_field(owner: Owner, spelling: Spelling) -> PlainCode
    ensures { result ≡ code_field_of owner spelling }
{
    match owner {
        Owner::OfHead => PlainCode::Head(spelling),
        Owner::OfLine => PlainCode::Line(spelling),
    }
}

// A field of head or line.
#[tactic(auto, unfolding(crate::specs::Sums::field_code))]
fn field_code(cursor: &mut Cursor) -> Result<PlainCode, ReadFault>
    ensures { ReadsTokens result (rest cursor.new) (field_code_of (rest cursor.old)) }
{
    let owner = owner_word(cursor)?;
    let spelling = field(cursor)?;
    Ok(code_field(owner, spelling))
}

// A code: a text between quotes, or a field of head or line.
#[tactic(auto, unfolding(crate::specs::Sums::code))]
pub(crate) fn code(cursor: &mut Cursor) -> Result<PlainCode, ReadFault>
    ensures { ReadsTokens result (rest cursor.new) (code_read (rest cursor.old)) }
{
    match cursor.code_if()? {
        Some(code) => Ok(PlainCode::Text(code)),
        None => field_code(cursor),
    }
}

// A part with a field: of head, of line, or the total of a line's field.
#[tactic(auto, unfolding(crate::specs::Sums::field_part))]
fn field_part(cursor: &mut Cursor) -> Result<PlainPart, ReadFault>
    ensures { ReadsTokens result (rest cursor.new) (field_part_of (rest cursor.old)) }
{
    if cursor.takes_word("total") {
        let spelling = field(cursor)?;
        return Ok(PlainPart::Total(spelling));
    }
    let owner = owner_word(cursor)?;
    let spelling = field(cursor)?;
    match owner {
        Owner::OfHead => Ok(PlainPart::Head(spelling)),
        Owner::OfLine => Ok(PlainPart::Line(spelling)),
    }
}

// A part: a number, `cost`, or a field.
#[tactic(auto, unfolding(crate::specs::Sums::part))]
fn part(cursor: &mut Cursor) -> Result<PlainPart, ReadFault>
    ensures { ReadsTokens result (rest cursor.new) (part_of (rest cursor.old)) }
{
    if let Some(literal) = cursor.pick_number() {
        return Ok(PlainPart::Number(literal));
    }
    if cursor.takes_word("cost") {
        return Ok(PlainPart::Cost);
    }
    field_part(cursor)
}

// A term, which a minus joins to those before it or not.
#[tactic(auto, unfolding(crate::specs::Sums::term))]
fn term(cursor: &mut Cursor, minus: bool) -> Result<PlainTerm, ReadFault>
    ensures { ReadsTokens result (rest cursor.new) (term_of minus (rest cursor.old)) }
{
    let negative = cursor.takes_mark(Mark::Minus);
    let part = part(cursor)?;
    Ok(PlainTerm {
        minus,
        negative,
        part,
    })
}

// The mark that joins one more term, if one follows: whether it is a minus.
#[tactic(auto, unfolding(crate::specs::Sums::joint))]
fn joint(cursor: &mut Cursor) -> Result<Option<bool>, ReadFault>
    ensures { ReadsTokens result (rest cursor.new) (joint_of (rest cursor.old)) }
{
    if cursor.takes_mark(Mark::Plus) {
        return Ok(Some(false));
    }
    if cursor.takes_mark(Mark::Minus) {
        return Ok(Some(true));
    }
    Ok(None)
}

impl Follows for PlainTerm {
    ghost follows = { next_term };

    #[tactic(auto, unfolding(crate::specs::Sums::next_term))]
    fn follow(_alloc: Global, cursor: &mut Cursor) -> Result<Option<PlainTerm>, ReadFault> {
        let Some(minus) = joint(cursor)? else {
            return Ok(None);
        };
        let term = term(cursor, minus)?;
        Ok(Some(term))
    }
}

impl Listed for PlainTerm {
    ghost reads = { term_of false };

    fn read(_alloc: Global, cursor: &mut Cursor) -> Result<PlainTerm, ReadFault> {
        term(cursor, false)
    }
}

// A sum: a term, and more with a plus or a minus before each.
#[tactic(auto, unfolding(crate::specs::Sums::sum))]
pub(crate) fn sum(alloc: Global, cursor: &mut Cursor) -> Result<List<PlainTerm>, ReadFault>
    ensures { ReadsTokens result (rest cursor.new) (sum_of (rest cursor.old)) }
{
    list_reader(alloc, cursor)
}
