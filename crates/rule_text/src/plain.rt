//! Statements as they are written: names as words, numbers as digits, no name looked up.
ghost use Rattle.std.specs.Prelude.{◌≡◌};
ghost use Rattle.rule_text.specs.Plain.{code_of_part as code_of_plain_part};
ghost use Rattle.rule_text.specs.Plain.{lone_field as lone_field_of, equality_of};

use crate::{Literal, Spelling};
use reg_base::{Code, List};

/// A statement.
#[derive(Drop)]
pub struct PlainStatement {
    /// The place of its first byte, counted from 0.
    pub place: usize,
    pub scope: Option<Scope>,
    pub act: PlainAct,
    pub when: Option<PlainCond>,
}

/// How often a statement runs.
#[derive(Clone, Copy, Debug)]
pub enum Scope {
    Once,
    EachLine,
}

/// What a statement does.
#[derive(Drop)]
pub enum PlainAct {
    Make {
        verb: Verb,
        target: Target,
        sums: List<PlainAmount>,
    },
    WriteOff {
        fifo: bool,
        target: Target,
        wanted: PlainAmount,
        cost: Spelling,
    },
    Require {
        target: Target,
        resource: Spelling,
        least: List<PlainTerm>,
        code: Code,
    },
    Control {
        register: Spelling,
        resource: Spelling,
    },
    Entry {
        ledger: Spelling,
        sides: PlainSides,
        amount: List<PlainTerm>,
    },
}

/// How a record changes its register.
#[derive(Clone, Copy, PartialEq, Eq, Debug)]
pub enum Verb {
    Receipt,
    Expense,
    Turn,
}

/// A register with values of its dimensions.
#[derive(Drop)]
pub struct Target {
    pub register: Spelling,
    pub binds: List<PlainBind>,
}

/// A dimension with its value.
#[derive(Drop)]
pub struct PlainBind {
    pub dimension: Spelling,
    pub to: PlainTo,
}

/// The value of a dimension.
#[derive(Drop)]
pub enum PlainTo {
    Code(PlainCode),
    /// The document's own point.
    Point,
}

/// A code, or a field that has one.
#[derive(Drop)]
pub enum PlainCode {
    Text(Code),
    Head(Spelling),
    Line(Spelling),
}

/// A resource with its number.
#[derive(Drop)]
pub struct PlainAmount {
    pub resource: Spelling,
    pub sum: List<PlainTerm>,
}

/// The sides of an entry.
#[derive(Drop)]
pub struct PlainSides {
    pub debit: Option<PlainSide>,
    pub credit: Option<PlainSide>,
}

/// An account with its extras.
#[derive(Drop)]
pub struct PlainSide {
    pub account: PlainCode,
    pub extras: List<PlainCode>,
}

/// A part of a sum.
#[derive(Drop)]
pub struct PlainTerm {
    /// Whether a minus joins it to the terms before it.
    pub minus: bool,
    /// Whether it has a minus sign of its own.
    pub negative: bool,
    pub part: PlainPart,
}

/// What a term counts.
#[derive(Drop)]
pub enum PlainPart {
    Number(Literal),
    Head(Spelling),
    Line(Spelling),
    Total(Spelling),
    Cost,
}

/// A condition.
#[derive(Drop)]
pub enum PlainCond {
    /// Two sums, or two fields that may have codes.
    Sums {
        left: List<PlainTerm>,
        test: Test,
        right: List<PlainTerm>,
    },
    /// Two codes, of which at least one is a text.
    Codes {
        left: PlainCode,
        equal: bool,
        right: PlainCode,
    },
}

/// How two numbers are compared.
#[derive(Clone, Copy, PartialEq, Eq, Debug)]
pub enum Test {
    Less,
    AtMost,
    Equal,
    AtLeast,
    Greater,
    Differs,
}

// The field of head or line that a part is, which may be a code's.
fn code_of_part(part: &PlainPart) -> Option<PlainCode>
    ensures { result ≡ code_of_plain_part part.now }
{
    match part {
        PlainPart::Head(field) => Some(PlainCode::Head(field.copied())),
        PlainPart::Line(field) => Some(PlainCode::Line(field.copied())),
        _ => None,
    }
}

/// The field that a sum of one term without a sign is, which may be a code's.
#[tactic(auto, unfolding(crate::specs::Plain::lone_field))]
pub fn lone_field(terms: &[PlainTerm]) -> Option<PlainCode>
    ensures { result ≡ lone_field_of terms.now }
{
    match terms {
        [term] if !term.negative => code_of_part(&term.part),
        _ => None,
    }
}

impl Test {
    /// Whether it asks that both are equal or that they differ, as codes can be compared.
    #[tactic(auto, unfolding(crate::specs::Plain::equality_of))]
    pub fn equality(self) -> Option<bool>
        ensures { result ≡ equality_of self }
    {
        match self {
            Test::Equal => Some(true),
            Test::Differs => Some(false),
            _ => None,
        }
    }
}
