//! The condition of a statement in a document type.
ghost use Rattle.std.specs.Prelude.{◌≡◌, Option};
ghost use Rattle.rule_lang.specs.Conditions.{scale_of_field as scale_of_field_in};
ghost use Rattle.rule_lang.specs.Conditions.{scale_of_part as scale_of_part_in};
ghost use Rattle.rule_lang.specs.Conditions.{first_scale as first_scale_in};
ghost use Rattle.rule_lang.specs.Conditions.{asked_scale as asked_scale_in};
ghost use Rattle.rule_lang.specs.Conditions.{resolved_sums as sums_in, resolved_codes as codes_in};
ghost use Rattle.rule_lang.specs.Conditions.{has_code as has_code_in, lone_code as lone_code_in};
ghost use Rattle.rule_lang.specs.Conditions.{resolved_cond as cond_in};
ghost use Rattle.rule_lang.specs.Conditions.{codes_or_sums as compared_in};
ghost use Rattle.rule_text.specs.Plain.{equality_of};
ghost use Rattle.rule_lang.specs.Resolves.{Resolves};

use crate::Cond;
use crate::fields::{resolved_code_field, resolved_field};
use crate::least::both;
use crate::terms::{Round, resolved_code, resolved_sum};
use crate::tried::Tried;
use cfg_model::{Field, Kind};
use reg_base::Scale;
use rule_text::{PlainCode, PlainCond, PlainPart, PlainTerm, Spelling, Test, lone_field};
use std::alloc::Global;

// The scale of a field, if there is the field and it has numbers.
#[tactic(auto, unfolding(crate::specs::Conditions::scale_of_field))]
fn scale_of_field(fields: &[Field], spelling: &Spelling) -> Option<Scale>
    ensures { result ≡ scale_of_field_in fields.now spelling.now }
{
    match resolved_field(fields, spelling) {
        Ok(found) => found.scale,
        Err(_) => None,
    }
}

// The scale that a part brings to a condition.
#[tactic(auto, unfolding(crate::specs::Conditions::scale_of_part))]
fn scale_of_part(kind: &Kind, round: &Round, plain: &PlainPart) -> Option<Option<Scale>>
    ensures { result ≡ scale_of_part_in kind.now round.now plain.now }
{
    match plain {
        PlainPart::Number(_) => None,
        PlainPart::Head(spelling) => Some(scale_of_field(kind.head.as_slice(), spelling)),
        PlainPart::Line(spelling) => Some(scale_of_field(kind.lines.as_slice(), spelling)),
        PlainPart::Total(spelling) => Some(scale_of_field(kind.lines.as_slice(), spelling)),
        PlainPart::Cost => Some(round.cost),
    }
}

// The scale of the first of these terms that brings one, else the other.
#[tactic(auto, unfolding(crate::specs::Conditions::first_scale))]
fn first_scale(
    kind: &Kind,
    round: &Round,
    other: Option<Scale>,
    terms: &[PlainTerm],
) -> Option<Scale>
    ensures { result ≡ first_scale_in kind.now round.now other terms.now }
{
    'terms: for term in terms {
        if let Some(scale) = scale_of_part(kind, round, &term.part) {
            return scale;
        }
    }
    other
}

// The scale of the first field or `cost` in a condition, or else six decimals.
#[tactic(auto, unfolding(crate::specs::Conditions::asked_scale))]
fn asked_scale(kind: &Kind, round: &Round, left: &[PlainTerm], right: &[PlainTerm]) -> Option<Scale>
    ensures { result ≡ asked_scale_in kind.now round.now left.now right.now }
{
    let right_scale = first_scale(kind, round, Scale::new(6), right);
    first_scale(kind, round, right_scale, left)
}

// Two sums at the scale of the first field or `cost` in them, or with six decimals.
#[tactic(auto, unfolding(crate::specs::Conditions::resolved_sums))]
fn resolved_sums(
    alloc: Global,
    kind: &Kind,
    round: &Round,
    left: &[PlainTerm],
    test: Test,
    right: &[PlainTerm],
) -> Tried<Cond>
    ensures { Resolves result (sums_in kind.now round.now left.now test right.now) }
{
    let left_sum = resolved_sum(
        alloc,
        kind,
        round,
        asked_scale(kind, round, left, right),
        left,
    );
    let right_sum = resolved_sum(
        alloc,
        kind,
        round,
        asked_scale(kind, round, left, right),
        right,
    );
    let (left, right) = both(left_sum, right_sum)?;
    Ok(Cond::Sums { left, test, right })
}

// Two codes.
#[tactic(auto, unfolding(crate::specs::Conditions::resolved_codes))]
fn resolved_codes(
    kind: &Kind,
    round: &Round,
    left: &PlainCode,
    equal: bool,
    right: &PlainCode,
) -> Tried<Cond>
    ensures { Resolves result (codes_in kind.now round.now left.now equal right.now) }
{
    let (left, right) = both(
        resolved_code(kind, round, left),
        resolved_code(kind, round, right),
    )?;
    Ok(Cond::Codes { left, equal, right })
}

fn has_code(kind: &Kind, code: &PlainCode) -> bool
    ensures { result ≡ has_code_in kind.now code.now }
{
    match code {
        PlainCode::Text(_) => true,
        PlainCode::Head(spelling) => resolved_code_field(kind.head.as_slice(), spelling).is_ok(),
        PlainCode::Line(spelling) => resolved_code_field(kind.lines.as_slice(), spelling).is_ok(),
    }
}

// The field with codes that a sum is.
#[tactic(auto, unfolding(crate::specs::Conditions::lone_code))]
fn lone_code(kind: &Kind, terms: &[PlainTerm]) -> Option<PlainCode>
    ensures { result ≡ lone_code_in kind.now terms.now }
{
    let code = lone_field(terms)?;
    if !has_code(kind, &code) {
        return None;
    }
    Some(code)
}

// A condition.
#[tactic(auto, unfolding(crate::specs::Conditions::resolved_cond))]
pub(crate) fn resolved_cond(
    alloc: Global,
    kind: &Kind,
    round: &Round,
    plain: &PlainCond,
) -> Tried<Cond>
    ensures { Resolves result (cond_in kind.now round.now plain.now) }
{
    match plain {
        PlainCond::Codes { left, equal, right } => {
            resolved_codes(kind, round, left, *equal, right)
        }
        PlainCond::Sums { left, test, right } => {
            codes_or_sums(alloc, kind, round, left.as_slice(), *test, right.as_slice())
        }
    }
}

fn codes_or_sums(
    alloc: Global,
    kind: &Kind,
    round: &Round,
    left: &[PlainTerm],
    test: Test,
    right: &[PlainTerm],
) -> Tried<Cond>
    ensures { Resolves result (compared_in (lone_code_in kind.now left.now)
        (equality_of test) (lone_code_in kind.now right.now) kind.now round.now
        (sums_in kind.now round.now left.now test right.now)) }
{
    match (
        lone_code(kind, left),
        test.equality(),
        lone_code(kind, right),
    ) {
        (Some(left), Some(equal), Some(right)) => {
            resolved_codes(kind, round, &left, equal, &right)
        }
        _ => resolved_sums(alloc, kind, round, left, test, right),
    }
}
