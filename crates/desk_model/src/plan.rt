//! What a change makes of a document, before its records are made.
use reg_base::{Doc, List, Mark, Side, Value};

/// A record that was read from a request, before it has a line.
#[derive(Drop)]
pub struct Given {
    pub mark: Mark,
    /// One value per dimension of its register.
    pub values: List<Value>,
    /// One number per resource, in units at the resource's scale.
    pub sums: List<i64>,
}

/// A ledger's entry that was read from a request, before it has a line.
#[derive(Drop)]
pub struct GivenEntry {
    pub debit: Option<Side>,
    pub credit: Option<Side>,
    /// In units at the ledger's scale.
    pub amount: i64,
}

/// What is given by hand for one register or ledger of the configuration, named by its place.
#[derive(Drop)]
pub enum GivenSet {
    Records {
        place: usize,
        records: List<Given>,
    },
    Entries {
        place: usize,
        entries: List<GivenEntry>,
    },
}

/// Where the records of a document come from.
#[derive(Drop)]
pub enum Source {
    /// They are given by hand, set by set.
    ByHand(List<GivenSet>),
    /// The rules of the document's type make them.
    ByRules,
    /// The document keeps those that it had.
    Kept,
    /// The document has none.
    Nothing,
    /// The document is removed with its records.
    Removed,
}

/// A document that a change makes: its head, and where its records come from.
#[derive(Drop)]
pub struct Plan {
    pub doc: Doc,
    pub source: Source,
}

/// A register or a ledger of the configuration, named by its place.
#[derive(Drop)]
pub enum Space {
    Register(usize),
    Ledger(usize),
}
