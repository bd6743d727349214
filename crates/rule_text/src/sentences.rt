//! Conditions and whole statements as they are written.
ghost use Rattle.std.specs.Prelude.{◌≡◌, option_and_then};
ghost use Rattle.reg_base.specs.Results.{Gives};
ghost use Rattle.rule_text.specs.Plain.{lone_field as lone_field_of, equality_of};
ghost use Rattle.rule_text.specs.Readers.{ReadsTokens, rest};
ghost use Rattle.rule_text.specs.Conditions.{test_of as test_of_mark, front_test as front_test_of};
ghost use Rattle.rule_text.specs.Conditions.{comparison as test_read, equality as equality_read};
ghost use Rattle.rule_text.specs.Conditions.{text_cond as text_cond_of, sums_cond as sums_cond_of};
ghost use Rattle.rule_text.specs.Conditions.{field_cond as field_cond_of};
ghost use Rattle.rule_text.specs.Conditions.{code_or_sum_cond as code_or_sum_cond_of};
ghost use Rattle.rule_text.specs.Conditions.{sum_cond as sum_cond_of, cond as cond_of};
ghost use Rattle.rule_text.specs.Conditions.{when as when_of};
ghost use Rattle.rule_text.specs.Sentences.{scope as scope_of, statement as statement_of};
ghost use Rattle.rule_text.specs.Sentences.{next_statement, statements as statements_read};
ghost use Rattle.rule_text.specs.Sentences.{statements_of};
ghost use Rattle.rule_text.specs.declared.fault.TextFault.TheVariants.{Memory as WantOfMemory};

use crate::acts::act;
use crate::cursor::{Cursor, Follows, list_on};
use crate::fault::ReadFault;
use crate::piece::tokens_of;
use crate::sums::{code, sum};
use crate::{
    Mark, PlainCode, PlainCond, PlainStatement, PlainTerm, Scope, Test, TextFault, lone_field,
};
use reg_base::{Code, List};
use std::alloc::Global;

#[tactic(auto, unfolding(crate::specs::Conditions::test_of))]
fn test_of(mark: Mark) -> Option<Test>
    ensures { result ≡ test_of_mark mark }
{
    match mark {
        Mark::Less => Some(Test::Less),
        Mark::AtMost => Some(Test::AtMost),
        Mark::Equal => Some(Test::Equal),
        Mark::AtLeast => Some(Test::AtLeast),
        Mark::Greater => Some(Test::Greater),
        Mark::Differs => Some(Test::Differs),
        _ => None,
    }
}

fn front_test(cursor: &Cursor) -> Option<Test>
    ensures { result ≡ front_test_of (rest cursor.now) }
{
    let mark = cursor.sign()?;
    test_of(mark)
}

// A mark between sums.
#[tactic(auto, unfolding(crate::specs::Conditions::comparison))]
fn test(cursor: &mut Cursor) -> Result<Test, ReadFault>
    ensures { ReadsTokens result (rest cursor.new) (test_read (rest cursor.old)) }
{
    match front_test(cursor) {
        Some(test) => {
            cursor.skip();
            Ok(test)
        }
        None => Err(cursor.stuck()),
    }
}

// The test for equality that the mark in front asks for.
fn front_equality(cursor: &Cursor) -> Option<bool>
    ensures { result ≡ option_and_then equality_of (front_test_of (rest cursor.now)) }
{
    let test = front_test(cursor)?;
    test.equality()
}

// A mark between codes, `=` or `<>`: whether they have to be equal.
#[tactic(auto, unfolding(crate::specs::Conditions::equality))]
fn equality(cursor: &mut Cursor) -> Result<bool, ReadFault>
    ensures { ReadsTokens result (rest cursor.new) (equality_read (rest cursor.old)) }
{
    match front_equality(cursor) {
        Some(equal) => {
            cursor.skip();
            Ok(equal)
        }
        None => Err(cursor.stuck()),
    }
}

// A text is compared with a code.
#[tactic(auto, unfolding(crate::specs::Conditions::text_cond))]
fn text_cond(cursor: &mut Cursor, text: Code) -> Result<PlainCond, ReadFault>
    ensures { ReadsTokens result (rest cursor.new) (text_cond_of text (rest cursor.old)) }
{
    let equal = equality(cursor)?;
    let right = code(cursor)?;
    Ok(PlainCond::Codes {
        left: PlainCode::Text(text),
        equal,
        right,
    })
}

// A sum is compared with a sum.
#[tactic(auto, unfolding(crate::specs::Conditions::sums_cond))]
fn sums_cond(
    alloc: Global,
    cursor: &mut Cursor,
    left: List<PlainTerm>,
    test: Test,
) -> Result<PlainCond, ReadFault>
    ensures { ReadsTokens result (rest cursor.new) (sums_cond_of left test (rest cursor.old)) }
{
    let right = sum(alloc, cursor)?;
    Ok(PlainCond::Sums { left, test, right })
}

// A field that may have a code is compared with a text, where one follows, and else as a sum.
#[tactic(auto, unfolding(crate::specs::Conditions::field_cond))]
fn field_cond(
    alloc: Global,
    cursor: &mut Cursor,
    field: PlainCode,
    equal: bool,
    left: List<PlainTerm>,
    test: Test,
) -> Result<PlainCond, ReadFault>
    ensures { ReadsTokens result (rest cursor.new)
        (field_cond_of field equal left test (rest cursor.old)) }
{
    match cursor.code_if()? {
        Some(text) => Ok(PlainCond::Codes {
            left: field,
            equal,
            right: PlainCode::Text(text),
        }),
        None => sums_cond(alloc, cursor, left, test),
    }
}

fn code_or_sum_cond(
    alloc: Global,
    cursor: &mut Cursor,
    left: List<PlainTerm>,
    test: Test,
) -> Result<PlainCond, ReadFault>
    ensures { ReadsTokens result (rest cursor.new)
        (code_or_sum_cond_of (lone_field_of left) (equality_of test) left test (rest cursor.old)) }
{
    match (lone_field(left.as_slice()), test.equality()) {
        (Some(field), Some(equal)) => field_cond(alloc, cursor, field, equal, left, test),
        _ => sums_cond(alloc, cursor, left, test),
    }
}

// A condition that begins with a sum.
#[tactic(auto, unfolding(crate::specs::Conditions::sum_cond))]
fn sum_cond(alloc: Global, cursor: &mut Cursor) -> Result<PlainCond, ReadFault>
    ensures { ReadsTokens result (rest cursor.new) (sum_cond_of (rest cursor.old)) }
{
    let left = sum(alloc, cursor)?;
    let test = test(cursor)?;
    code_or_sum_cond(alloc, cursor, left, test)
}

// A condition: a text with a code, or a sum with what it can be compared with.
#[tactic(auto, unfolding(crate::specs::Conditions::cond))]
fn cond(alloc: Global, cursor: &mut Cursor) -> Result<PlainCond, ReadFault>
    ensures { ReadsTokens result (rest cursor.new) (cond_of (rest cursor.old)) }
{
    match cursor.code_if()? {
        Some(text) => text_cond(cursor, text),
        None => sum_cond(alloc, cursor),
    }
}

// `when` and a condition, if one follows.
#[tactic(auto, unfolding(crate::specs::Conditions::when))]
fn when(alloc: Global, cursor: &mut Cursor) -> Result<Option<PlainCond>, ReadFault>
    ensures { ReadsTokens result (rest cursor.new) (when_of (rest cursor.old)) }
{
    if !cursor.takes_word("when") {
        return Ok(None);
    }
    let condition = cond(alloc, cursor)?;
    Ok(Some(condition))
}

// `once` or `each line`, if one stands in front.
#[tactic(auto, unfolding(crate::specs::Sentences::scope))]
fn scope(cursor: &mut Cursor) -> Result<Option<Scope>, ReadFault>
    ensures { ReadsTokens result (rest cursor.new) (scope_of (rest cursor.old)) }
{
    if cursor.takes_word("once") {
        return Ok(Some(Scope::Once));
    }
    if !cursor.takes_word("each") {
        return Ok(None);
    }
    cursor.word("line")?;
    Ok(Some(Scope::EachLine))
}

// A statement whose first byte stands at the place.
#[tactic(auto, unfolding(crate::specs::Sentences::statement))]
fn statement(alloc: Global, cursor: &mut Cursor, place: usize) -> Result<PlainStatement, ReadFault>
    ensures { ReadsTokens result (rest cursor.new) (statement_of place (rest cursor.old)) }
{
    let scope = scope(cursor)?;
    let act = act(alloc, cursor)?;
    let when = when(alloc, cursor)?;
    cursor.mark(Mark::Semicolon)?;
    Ok(PlainStatement {
        place,
        scope,
        act,
        when,
    })
}

impl Follows for PlainStatement {
    ghost follows = { next_statement };

    #[tactic(auto, unfolding(crate::specs::Sentences::next_statement))]
    fn follow(alloc: Global, cursor: &mut Cursor) -> Result<Option<PlainStatement>, ReadFault> {
        let Some(place) = cursor.place() else {
            return Ok(None);
        };
        let statement = statement(alloc, cursor, place)?;
        Ok(Some(statement))
    }
}

// One statement after another to the end of the text: a token that begins none is refused where
// the next statement is read.
#[tactic(auto, unfolding(crate::specs::Sentences::statements))]
fn statements(alloc: Global, cursor: &mut Cursor) -> Result<List<PlainStatement>, ReadFault>
    ensures { ReadsTokens result (rest cursor.new) (statements_read (rest cursor.old)) }
{
    list_on(alloc, Vec::new(alloc), cursor)
}

/// The statements that a text says, or the place of the first token or byte that can't follow.
#[tactic(auto, unfolding(crate::specs::Sentences::statements_of))]
pub fn parse(alloc: Global, text: &str) -> Result<List<PlainStatement>, TextFault>
    ensures { Gives WantOfMemory result (statements_of text.now) }
{
    let tokens = tokens_of(alloc, text)?;
    let mut cursor = Cursor::new(tokens);
    match statements(alloc, &mut cursor) {
        Ok(statements) => Ok(statements),
        Err(ReadFault::Stuck(Some(place))) => Err(TextFault::Syntax(place)),
        Err(ReadFault::Stuck(None)) => Err(TextFault::Syntax(text.len())),
        Err(ReadFault::Memory) => Err(TextFault::Memory),
    }
}
