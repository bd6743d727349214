//! Why an entry is refused, why a document is not posted, and why a table is not made.
use crate::code::Code;
use crate::date::Date;
use crate::name::Name;

/// Why an entry of a ledger is refused, the debit being asked before the credit.
#[derive(Clone, Copy, Debug, PartialEq, Eq)]
pub enum EntryFault {
    /// The chart has no account of this code.
    UnknownAccount,
    /// The account is the parent of another one.
    GroupAccount,
    /// The extras are not as many as the account has.
    ExtraCount,
    /// No side is given, or one side alone whose account is not off-balance, or one of two accounts
    /// is off-balance.
    Sides,
}

/// Why the records and entries of a document are refused. `rule` is the number of a statement of
/// the document type, `line` that of the document's line, both from 1; `line` is 0 for what is
/// done once.
#[derive(Clone, Copy, Debug, PartialEq, Eq)]
pub enum PostFault {
    /// What a rule requires does not hold; `code` is the one that the rule gives.
    Broken {
        rule: u32,
        line: u32,
        code: Code,
    },
    /// There is less to write off than is wanted: `missing` units of the quantity.
    Shortage {
        rule: u32,
        line: u32,
        missing: i64,
    },
    /// A number passes the largest one.
    Overflow {
        rule: u32,
        line: u32,
    },
    /// The chart of accounts refuses the entry.
    Entry {
        rule: u32,
        line: u32,
        fault: EntryFault,
    },
    /// A set would have more than 5,000 records.
    TooManyRecords,
    /// A wanted quantity is below 0.
    Negative {
        rule: u32,
        line: u32,
    },
}

/// Why a table is refused: the names that it asks by are looked at first, then its dates, then its
/// rows.
#[derive(Clone, Copy, Debug, PartialEq, Eq)]
pub enum TableFault {
    /// It would begin behind its end.
    BadRange { from: Date, to: Date },
    /// It has more rows than a table may have: more than `limit`.
    TooManyRows { limit: u32 },
    /// The register has no dimension of this name, or the name is given twice.
    UnknownField { name: Name },
}
