//! Documents with the records that they made, and the shapes in which records are asked for.
use crate::code::Code;
use crate::comment::Comment;
use crate::date::Date;
use crate::list::List;
use crate::name::Name;
use crate::point::Point;
use crate::value::{Cell, Value};

/// What a record does to its register. A record of a turnover register is a turn.
#[derive(Clone, Copy, Debug, PartialEq, Eq)]
pub enum Mark {
    Receipt,
    Expense,
    Turn,
}

/// One record of an accumulation register.
#[derive(Drop)]
pub struct Rec {
    /// Its number in the set, from 1.
    pub line: u16,
    /// The date at which it counts.
    pub period: Date,
    pub mark: Mark,
    /// One value per dimension of the register.
    pub values: List<Value>,
    /// One number per resource, in units at the resource's scale.
    pub sums: List<i64>,
}

/// An account with its extra dimensions.
#[derive(Drop)]
pub struct Side {
    pub account: Code,
    pub extras: List<Code>,
}

/// One entry of a ledger: a debit side, a credit side, and an amount in units at its scale.
#[derive(Drop)]
pub struct Posting {
    /// Its number in the set, from 1.
    pub line: u16,
    /// The date at which it counts.
    pub period: Date,
    pub debit: Option<Side>,
    pub credit: Option<Side>,
    pub amount: i64,
}

/// The records and entries of one document: a list per register and per ledger of the
/// configuration, in its order.
#[derive(Drop)]
pub struct Sets {
    pub registers: List<List<Rec>>,
    pub ledgers: List<List<Posting>>,
}

/// How far a document has come.
#[derive(Clone, Copy, Debug, PartialEq, Eq)]
pub enum DocState {
    Written,
    Posted,
    Marked,
}

/// The head of a document. A document without a kind is a manual one.
#[derive(Drop)]
pub struct Doc {
    pub number: u32,
    /// The place of its type in the configuration.
    pub kind: Option<u8>,
    pub date: Date,
    pub head: List<Cell>,
    pub lines: List<List<Cell>>,
    pub comment: Comment,
    pub key: Option<Code>,
    pub state: DocState,
    /// Whether its records count.
    pub active: bool,
}

/// A document with what it made.
#[derive(Drop)]
pub struct Document {
    pub doc: Doc,
    pub sets: Sets,
}

/// A record or an entry at its point.
#[derive(Drop)]
pub enum Found {
    Reg { point: Point, rec: Rec },
    Ledger { point: Point, posting: Posting },
}

/// Which values are asked for: per dimension all, or those of a list.
#[derive(Drop)]
pub struct Filter {
    pub lists: List<Option<List<Value>>>,
}

/// One row of a balance: grouped values with a sum per resource.
#[derive(Drop)]
pub struct SumRow {
    pub group: List<Value>,
    /// In units at the resource's scale.
    pub sums: List<i128>,
}

/// One row of a list of documents. Without a kind it is a manual document.
#[derive(Drop)]
pub struct DocRow {
    pub number: u32,
    pub date: Date,
    pub kind: Option<Name>,
    pub key: Option<Code>,
    pub state: DocState,
}

/// How an item is locked.
#[derive(Clone, Copy, Debug, PartialEq, Eq)]
pub enum Mode {
    Shared,
    Exclusive,
    Write,
}

/// What is locked: a space with a value per field, an absent field standing for all values.
#[derive(Drop)]
pub struct Item {
    /// The place of the register or ledger; behind these come documents, keys, the closed date.
    pub space: u8,
    pub fields: List<Option<Value>>,
    pub mode: Mode,
}
