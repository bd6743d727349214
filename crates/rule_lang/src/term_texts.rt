//! The canonical text of codes, sums and conditions.
ghost use Rattle.std.specs.Prelude.{◌≡◌, ◌++◌, IfOk, Some, codes, string_bytes};
ghost use Rattle.rule_lang.specs.TermTexts.{code_text as code_text_of};
ghost use Rattle.rule_lang.specs.TermTexts.{units_at_scale_text as units_text_of};
ghost use Rattle.rule_lang.specs.TermTexts.{part_text as part_text_of, term_text as term_text_of};
ghost use Rattle.rule_lang.specs.TermTexts.{terms_text as terms_text_of};
ghost use Rattle.rule_lang.specs.TermTexts.{joint_text as joint_text_of, test_text as test_text_of};
ghost use Rattle.rule_lang.specs.TermTexts.{equal_text as equal_text_of};
ghost use Rattle.rule_lang.specs.TermTexts.{field_scale as field_scale_of};
ghost use Rattle.rule_lang.specs.TermTexts.{part_scale as part_scale_of};
ghost use Rattle.rule_lang.specs.TermTexts.{terms_scale as terms_scale_of};
ghost use Rattle.rule_lang.specs.TermTexts.{cond_text as cond_text_of, when_text as when_text_of};

use crate::spelt::{Spelt, list_text, name_of_place};
use crate::{CodeTerm, Cond, Part, Sum, Term};
use cfg_model::{Field, Kind};
use reg_base::{Memory, Scale, join_texts, string_of, sum_string};
use rule_text::Test;
use std::alloc::Global;

// Where a sum is written: a document type, and the scale of its numbers.
#[derive(Drop)]
pub(crate) struct SumScene<'a> {
    kind: &'a Kind,
    scale: Option<Scale>,
}

// A code between quotes, or a field.
#[tactic(auto, unfolding(crate::specs::TermTexts::code_text))]
pub(crate) fn code_text(alloc: Global, kind: &Kind, code: &CodeTerm) -> Result<String, Memory>
    ensures { IfOk result (λ t. string_bytes t ≡ code_text_of kind.now code.now) }
{
    match code {
        CodeTerm::Text(code) => quote(alloc, code.as_str()),
        CodeTerm::Head(place) => join_texts(
            alloc,
            "head.",
            name_of_place(kind.head.as_slice(), *place),
        ),
        CodeTerm::Line(place) => join_texts(
            alloc,
            "line.",
            name_of_place(kind.lines.as_slice(), *place),
        ),
    }
}

fn quote(alloc: Global, code: &str) -> Result<String, Memory>
    ensures { IfOk result (λ t. string_bytes t ≡ codes "\"" ++ (code.now ++ codes "\"")) }
{
    Ok(format!(in alloc; "\"{code}\"")?)
}

impl Spelt<Kind> for CodeTerm {
    ghost text_of = { λ kind code. code_text_of kind code };

    ghost joint_of = { λ _. codes ", " };

    fn text(&self, alloc: Global, context: &Kind) -> Result<String, Memory> {
        code_text(alloc, context, self)
    }

    fn joint(&self) -> &str {
        ", "
    }
}

// Units with the decimals of their scale.
fn units_at_scale_text(alloc: Global, scale: Option<Scale>, units: i64) -> Result<String, Memory>
    ensures { IfOk result (λ t. string_bytes t ≡ units_text_of scale units) }
{
    match scale {
        Some(scale) => sum_string(alloc, i128::from(units), scale.get()),
        None => Ok(String::new(alloc)),
    }
}

// A number of the scale, a field or `cost`.
#[tactic(auto, unfolding(crate::specs::TermTexts::part_text))]
fn part_text(
    alloc: Global,
    kind: &Kind,
    scale: Option<Scale>,
    part: &Part,
) -> Result<String, Memory>
    ensures { IfOk result (λ t. string_bytes t ≡ part_text_of kind.now scale part.now) }
{
    match part {
        Part::Number(units) => units_at_scale_text(alloc, scale, *units),
        Part::Head(place) => join_texts(
            alloc,
            "head.",
            name_of_place(kind.head.as_slice(), *place),
        ),
        Part::Line(place) => join_texts(
            alloc,
            "line.",
            name_of_place(kind.lines.as_slice(), *place),
        ),
        Part::Total(place) => join_texts(
            alloc,
            "total.",
            name_of_place(kind.lines.as_slice(), *place),
        ),
        Part::Cost => string_of(alloc, "cost"),
    }
}

// A part behind its own sign.
#[tactic(auto, unfolding(crate::specs::TermTexts::term_text))]
fn term_text(
    alloc: Global,
    kind: &Kind,
    scale: Option<Scale>,
    term: &Term,
) -> Result<String, Memory>
    ensures { IfOk result (λ t. string_bytes t ≡ term_text_of kind.now scale term.now) }
{
    let sign = if term.negative { "-" } else { "" };
    let part = part_text(alloc, kind, scale, &term.part)?;
    join_texts(alloc, sign, part.as_str())
}

fn joint_text(minus: bool) -> &'static str
    ensures { result.now ≡ joint_text_of minus }
{
    if minus { " - " } else { " + " }
}

impl<'a> Spelt<SumScene<'a>> for Term {
    ghost text_of = { λ scene term. term_text_of scene.kind.now scene.scale term };

    ghost joint_of = { λ term. joint_text_of term.minus };

    fn text(&self, alloc: Global, context: &SumScene<'a>) -> Result<String, Memory> {
        term_text(alloc, context.kind, context.scale, self)
    }

    fn joint(&self) -> &str
        ensures { result.now ≡ joint_text_of self.now.minus }
    {
        joint_text(self.minus)
    }
}

// A sum with the mark before each of its terms but the first.
#[tactic(auto, unfolding(crate::specs::TermTexts::terms_text))]
pub(crate) fn terms_text(
    alloc: Global,
    kind: &Kind,
    scale: Option<Scale>,
    terms: &[Term],
) -> Result<String, Memory>
    ensures { IfOk result (λ t. string_bytes t ≡ terms_text_of kind.now scale terms.now) }
{
    let scene = SumScene { kind, scale };
    list_text(alloc, &scene, terms)
}

#[tactic(auto, unfolding(crate::specs::TermTexts::test_text))]
fn test_text(test: Test) -> &'static str
    ensures { result.now ≡ test_text_of test }
{
    match test {
        Test::Less => "<",
        Test::AtMost => "<=",
        Test::Equal => "=",
        Test::AtLeast => ">=",
        Test::Greater => ">",
        Test::Differs => "<>",
    }
}

fn equal_text(equal: bool) -> &'static str
    ensures { result.now ≡ equal_text_of equal }
{
    if equal { "=" } else { "<>" }
}

// The scale of the field at the place.
fn field_scale(fields: &[Field], place: u8) -> Option<Scale>
    ensures { result ≡ field_scale_of fields.now place }
{
    let field = fields.get(usize::from(place))?;
    field.scale
}

// The scale that a part brings, where the latest write-off has this one.
#[tactic(auto, unfolding(crate::specs::TermTexts::part_scale))]
fn part_scale(kind: &Kind, cost: &Option<Scale>, part: &Part) -> Option<Scale>
    ensures { result ≡ part_scale_of kind.now cost.now part.now }
{
    match part {
        Part::Number(_) => None,
        Part::Head(place) => field_scale(kind.head.as_slice(), *place),
        Part::Line(place) => field_scale(kind.lines.as_slice(), *place),
        Part::Total(place) => field_scale(kind.lines.as_slice(), *place),
        Part::Cost => *cost,
    }
}

// The scale of the first of these terms that brings one, else the other.
#[tactic(auto, unfolding(crate::specs::TermTexts::terms_scale))]
fn terms_scale(
    kind: &Kind,
    cost: &Option<Scale>,
    other: Option<Scale>,
    terms: &[Term],
) -> Option<Scale>
    ensures { result ≡ terms_scale_of kind.now cost.now other terms.now }
{
    'terms: for term in terms {
        if let Some(scale) = part_scale(kind, cost, &term.part) {
            return Some(scale);
        }
    }
    other
}

// Two codes with the mark between them.
fn codes_text(
    alloc: Global,
    kind: &Kind,
    left: &CodeTerm,
    equal: bool,
    right: &CodeTerm,
) -> Result<String, Memory>
    ensures { IfOk result (λ t. string_bytes t ≡ code_text_of kind.now left.now
        ++ (codes " " ++ (equal_text_of equal
        ++ (codes " " ++ code_text_of kind.now right.now)))) }
{
    let left = code_text(alloc, kind, left)?;
    let mark = equal_text(equal);
    let right = code_text(alloc, kind, right)?;
    Ok(format!(in alloc; "{left} {mark} {right}")?)
}

// Two sums of a scale with the mark between them.
fn sums_text(
    alloc: Global,
    kind: &Kind,
    scale: Option<Scale>,
    left: &Sum,
    test: Test,
    right: &Sum,
) -> Result<String, Memory>
    ensures { IfOk result (λ t. string_bytes t ≡ terms_text_of kind.now scale left.now.terms
        ++ (codes " " ++ (test_text_of test
        ++ (codes " " ++ terms_text_of kind.now scale right.now.terms)))) }
{
    let left = terms_text(alloc, kind, scale, left.terms.as_slice())?;
    let mark = test_text(test);
    let right = terms_text(alloc, kind, scale, right.terms.as_slice())?;
    Ok(format!(in alloc; "{left} {mark} {right}")?)
}

// The scale of the first field or `cost` in two sums, or six decimals.
fn sums_scale(kind: &Kind, cost: &Option<Scale>, left: &[Term], right: &[Term]) -> Option<Scale>
    ensures { result ≡ terms_scale_of kind.now cost.now
        (terms_scale_of kind.now cost.now (Some 6) right.now) left.now }
{
    let other = terms_scale(kind, cost, Scale::new(6), right);
    terms_scale(kind, cost, other, left)
}

// Two sums, or two codes.
#[tactic(auto, unfolding(crate::specs::TermTexts::cond_text))]
fn cond_text(
    alloc: Global,
    kind: &Kind,
    cost: &Option<Scale>,
    cond: &Cond,
) -> Result<String, Memory>
    ensures { IfOk result (λ t. string_bytes t ≡ cond_text_of kind.now cost.now cond.now) }
{
    match cond {
        Cond::Codes { left, equal, right } => codes_text(alloc, kind, left, *equal, right),
        Cond::Sums { left, test, right } => {
            let scale = sums_scale(kind, cost, left.terms.as_slice(), right.terms.as_slice());
            sums_text(alloc, kind, scale, left, *test, right)
        }
    }
}

// A condition, where there is one.
#[tactic(auto, unfolding(crate::specs::TermTexts::when_text))]
pub(crate) fn when_text(
    alloc: Global,
    kind: &Kind,
    cost: &Option<Scale>,
    when: &Option<Cond>,
) -> Result<String, Memory>
    ensures { IfOk result (λ t. string_bytes t ≡ when_text_of kind.now cost.now when.now) }
{
    match when {
        None => Ok(String::new(alloc)),
        Some(cond) => {
            let cond = cond_text(alloc, kind, cost, cond)?;
            join_texts(alloc, " when ", cond.as_str())
        }
    }
}
