//! Terms, sums and codes of a statement in a document type.
ghost use Rattle.std.specs.Prelude.{◌≡◌, Option};
ghost use Rattle.rule_lang.specs.Terms.{literal_at as literal_in, line_part as line_part_in};
ghost use Rattle.rule_lang.specs.Terms.{cost_part as cost_part_in, resolved_part as part_in};
ghost use Rattle.rule_lang.specs.Terms.{resolved_term as term_in, resolved_sum as sum_in};
ghost use Rattle.rule_lang.specs.Terms.{line_code as line_code_in, resolved_code as code_in};
ghost use Rattle.rule_lang.specs.Resolves.{Resolves};

use crate::fields::{fits, resolved_code_field, resolved_number_field, units_at};
use crate::least::{Check, each_or_least};
use crate::tried::Tried;
use crate::{CodeTerm, Part, RuleWhy, Sum, Term};
use cfg_model::Kind;
use reg_base::Scale;
use rule_text::{Literal, PlainCode, PlainPart, PlainTerm, Spelling};
use std::alloc::Global;

// How often a statement runs, and the scale of the latest write-off of that scope.
#[derive(Clone, Copy)]
pub(crate) struct Round {
    pub(crate) each: bool,
    pub(crate) cost: Option<Scale>,
}

// Where a term stands: a document type, a round, and the scale that is asked for, if one is.
#[derive(Drop)]
pub(crate) struct TermScene<'a> {
    pub(crate) kind: &'a Kind,
    pub(crate) round: &'a Round,
    pub(crate) asked: Option<Scale>,
}

// A number at the scale of its place.
#[tactic(auto, unfolding(crate::specs::Terms::literal_at))]
fn literal_at(asked: Option<Scale>, literal: &Literal) -> Result<Part, RuleWhy>
    ensures { result ≡ literal_in asked literal.now }
{
    let Some(scale) = asked else {
        return Err(RuleWhy::WrongScope);
    };
    match units_at(literal, scale) {
        Some(units) => Ok(Part::Number(units)),
        None => Err(RuleWhy::WrongType),
    }
}

#[tactic(auto, unfolding(crate::specs::Terms::line_part))]
fn line_part(
    kind: &Kind,
    round: &Round,
    asked: Option<Scale>,
    spelling: &Spelling,
) -> Result<Part, RuleWhy>
    ensures { result ≡ line_part_in kind.now round.now asked spelling.now }
{
    let place = resolved_number_field(kind.lines.as_slice(), asked, spelling)?;
    if !round.each {
        return Err(RuleWhy::WrongScope);
    }
    Ok(Part::Line(place))
}

#[tactic(auto, unfolding(crate::specs::Terms::cost_part))]
fn cost_part(round: &Round, asked: Option<Scale>) -> Result<Part, RuleWhy>
    ensures { result ≡ cost_part_in round.now asked }
{
    let Some(scale) = round.cost else {
        return Err(RuleWhy::WrongScope);
    };
    if !fits(asked, Some(scale)) {
        return Err(RuleWhy::WrongType);
    }
    Ok(Part::Cost)
}

// A part where a number of the scale that is asked for stands.
#[tactic(auto, unfolding(crate::specs::Terms::resolved_part))]
fn resolved_part(
    kind: &Kind,
    round: &Round,
    asked: Option<Scale>,
    plain: &PlainPart,
) -> Result<Part, RuleWhy>
    ensures { result ≡ part_in kind.now round.now asked plain.now }
{
    match plain {
        PlainPart::Number(literal) => literal_at(asked, literal),
        PlainPart::Head(spelling) => {
            let place = resolved_number_field(kind.head.as_slice(), asked, spelling)?;
            Ok(Part::Head(place))
        }
        PlainPart::Line(spelling) => line_part(kind, round, asked, spelling),
        PlainPart::Total(spelling) => {
            let place = resolved_number_field(kind.lines.as_slice(), asked, spelling)?;
            Ok(Part::Total(place))
        }
        PlainPart::Cost => cost_part(round, asked),
    }
}

#[tactic(auto, unfolding(crate::specs::Terms::resolved_term))]
fn resolved_term(scene: &TermScene, plain: &PlainTerm) -> Result<Term, RuleWhy>
    ensures { result ≡ term_in scene.now.kind.now scene.now.round.now scene.now.asked plain.now }
{
    let part = resolved_part(scene.kind, scene.round, scene.asked, &plain.part)?;
    Ok(Term {
        minus: plain.minus,
        negative: plain.negative,
        part,
    })
}

impl<'a> Check<TermScene<'a>, Term> for PlainTerm {
    ghost checks = { λ scene plain. term_in scene.kind.now scene.round.now scene.asked plain };

    fn check(&self, _alloc: Global, scene: &TermScene<'a>) -> Tried<Term> {
        Ok(resolved_term(scene, self)?)
    }
}

// A sum, all of whose terms have one scale.
#[tactic(auto, unfolding(crate::specs::Terms::resolved_sum))]
pub(crate) fn resolved_sum(
    alloc: Global,
    kind: &Kind,
    round: &Round,
    asked: Option<Scale>,
    plain: &[PlainTerm],
) -> Tried<Sum>
    ensures { Resolves result (sum_in kind.now round.now asked plain.now) }
{
    let scene = TermScene { kind, round, asked };
    let terms = each_or_least(alloc, &scene, plain)?;
    Ok(Sum { terms })
}

#[tactic(auto, unfolding(crate::specs::Terms::line_code))]
fn line_code(kind: &Kind, round: &Round, spelling: &Spelling) -> Result<CodeTerm, RuleWhy>
    ensures { result ≡ line_code_in kind.now round.now spelling.now }
{
    let place = resolved_code_field(kind.lines.as_slice(), spelling)?;
    if !round.each {
        return Err(RuleWhy::WrongScope);
    }
    Ok(CodeTerm::Line(place))
}

// A code, or a field that has one.
#[tactic(auto, unfolding(crate::specs::Terms::resolved_code))]
pub(crate) fn resolved_code(kind: &Kind, round: &Round, plain: &PlainCode) -> Tried<CodeTerm>
    ensures { Resolves result (code_in kind.now round.now plain.now) }
{
    match plain {
        PlainCode::Text(code) => Ok(CodeTerm::Text(*code)),
        PlainCode::Head(spelling) => {
            let place = resolved_code_field(kind.head.as_slice(), spelling)?;
            Ok(CodeTerm::Head(place))
        }
        PlainCode::Line(spelling) => Ok(line_code(kind, round, spelling)?),
    }
}
