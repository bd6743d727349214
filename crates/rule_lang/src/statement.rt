//! Statements of posting rules, with names as places in the configuration and numbers as units.
use reg_base::{Code, List};
use rule_text::{Test, Verb};

/// A statement.
#[derive(Drop)]
pub struct Statement {
    /// Whether it runs for each line, and not once.
    pub each: bool,
    pub act: Act,
    pub when: Option<Cond>,
}

/// What a statement does. Registers, ledgers, dimensions and resources are places from 0.
#[derive(Drop)]
pub enum Act {
    /// Makes a record.
    Make {
        verb: Verb,
        register: u8,
        binds: List<Bind>,
        /// The numbers of resources; those of the others are 0.
        sums: List<(u8, Sum)>,
    },
    /// Writes an amount off, by the order of lots or by the average.
    WriteOff {
        fifo: bool,
        register: u8,
        binds: List<Bind>,
        quantity: u8,
        wanted: Sum,
        amount: u8,
    },
    /// Asks that so much of a resource is left; else the code is told.
    Require {
        register: u8,
        binds: List<Bind>,
        resource: u8,
        least: Sum,
        code: Code,
    },
    /// Asks that a resource is not below zero after the post.
    Control {
        register: u8,
        resource: u8,
    },
    /// Makes an entry; a side may be absent.
    Entry {
        ledger: u8,
        debit: Option<Place>,
        credit: Option<Place>,
        amount: Sum,
    },
}

/// A dimension with its value.
#[derive(Drop)]
pub struct Bind {
    pub dimension: u8,
    pub to: BindTo,
}

/// The value of a dimension.
#[derive(Drop)]
pub enum BindTo {
    Code(CodeTerm),
    /// The document's own point.
    Point,
}

/// An account with its extras.
#[derive(Drop)]
pub struct Place {
    pub account: CodeTerm,
    pub extras: List<CodeTerm>,
}

/// A code, or the place of a field that has one.
#[derive(Drop)]
pub enum CodeTerm {
    Text(Code),
    Head(u8),
    Line(u8),
}

/// A sum of terms.
#[derive(Drop)]
pub struct Sum {
    pub terms: List<Term>,
}

/// A part of a sum.
#[derive(Drop)]
pub struct Term {
    /// Whether a minus joins it to the terms before it; false for the first.
    pub minus: bool,
    /// Whether it has a minus sign of its own.
    pub negative: bool,
    pub part: Part,
}

/// What a term counts: units, or the place of a field.
#[derive(Drop)]
pub enum Part {
    Number(i64),
    Head(u8),
    Line(u8),
    /// A field of lines, summed over all of them.
    Total(u8),
    /// The amount of the latest write-off of the same scope.
    Cost,
}

/// A condition.
#[derive(Drop)]
pub enum Cond {
    Sums {
        left: Sum,
        test: Test,
        right: Sum,
    },
    Codes {
        left: CodeTerm,
        equal: bool,
        right: CodeTerm,
    },
}
