//! What the desk answers to a request.
ghost use Rattle.std.specs.Prelude.{◌≡◌, OnOk, OnErr, ◌++◌};
ghost use Rattle.desk_words.specs.ReplyTexts.{HasScales, reply_text};
ghost use Rattle.desk_words.specs.ReplyWords.{state_name, field_name, limit_name};
ghost use Rattle.desk_words.specs.ReplyWords.{post_fault_number, entry_fault_number};
ghost use Rattle.desk_words.specs.ReplyWords.{table_fault_number};
ghost use Rattle.desk_words.specs.ReplyWords.{refusal_number, refusal_name};

use crate::fault::WordFault;
use crate::json_values::print_value;
use crate::reply_values::reply_value;
use crate::request::{FieldText, SetText};
use reg_base::{
    AccountRow, Code, Comment, Date, DocRow, DocState, EntryFault, List, Memory, Name, PairRow,
    PostFault, Right, Row, Scale, SumRow, TableFault, Value,
};
use std::alloc::Global;

/// The one reply to a line.
#[derive(Drop)]
pub enum Reply {
    Done(Answer),
    /// Nothing has changed.
    Refused(Refusal),
}

/// What an accepted change is acknowledged with; a repeated request is given it again.
#[derive(Clone, Copy)]
pub enum Acknowledgement {
    /// A document was written, posted or marked.
    Document {
        active: bool,
        /// The document's number.
        doc: u32,
        state: DocState,
    },
    /// The books were closed.
    Closed {
        /// Documents before this date can't change any more.
        date: Date,
    },
    /// A marked document was removed.
    Swept {
        /// The number that the document had.
        doc: u32,
    },
}

/// What an accepted request gives.
#[derive(Drop)]
pub enum Answer {
    Acknowledged(Acknowledgement),
    Balance {
        rows: List<SumRow>,
        /// How many decimals each resource has: a scale for each of a row's sums, in order.
        scales: List<Scale>,
    },
    Shown(ShownDocument),
    Turnovers {
        /// Whether the register has balances: its rows tell receipts and expenses apart.
        balances: bool,
        rows: List<Row>,
        /// How many decimals each resource has: a scale for each number of a list, in order.
        scales: List<Scale>,
    },
    Both {
        rows: List<Row>,
        /// How many decimals each resource has: a scale for each number of a list, in order.
        scales: List<Scale>,
    },
    AccountBalance {
        rows: List<AccountRow>,
        /// How many decimals the ledger has.
        scale: Scale,
    },
    AccountTurnovers {
        rows: List<AccountRow>,
        /// How many decimals the ledger has.
        scale: Scale,
    },
    AccountBoth {
        rows: List<AccountRow>,
        /// How many decimals the ledger has.
        scale: Scale,
    },
    DrCr {
        rows: List<PairRow>,
        /// How many decimals the ledger has.
        scale: Scale,
    },
    Documents {
        rows: List<DocRow>,
    },
}

/// A document as it is shown: what it says, and the records that it has made.
#[derive(Drop)]
pub struct ShownDocument {
    pub active: bool,
    /// Empty where the document was given none.
    pub comment: Comment,
    pub date: Date,
    /// The document's number.
    pub doc: u32,
    pub head: List<FieldText>,
    pub key: Option<Code>,
    /// The document's type; a manual document has none.
    pub kind: Option<Name>,
    pub lines: List<List<FieldText>>,
    /// The spaces that have records of the document.
    pub sets: List<SetText>,
    pub state: DocState,
}

/// Why a request is refused.
#[derive(Drop)]
pub enum Refusal {
    /// The line is no request.
    BadLine(WordFault),
    /// The configuration has no such clerk.
    UnknownClerk,
    /// The clerk lacks the right that the operation asks for.
    NotAllowed {
        right: Right,
    },
    /// The request's number is below the last one that was accepted of its clerk.
    Stale {
        last: u32,
    },
    /// The number is the last one that was accepted of its clerk, of another request.
    NumberReused,
    /// The clerk sees no document of this number.
    UnknownDoc,
    /// The operation does not take a document of its state or sort.
    WrongState {
        state: DocState,
    },
    /// A field that the configuration does not take.
    BadField {
        field: Field,
    },
    /// The key of the new document is that of another one.
    KeyTaken {
        /// The number of the other document.
        doc: u32,
    },
    /// The document's old or new date is before the date to which the books are closed.
    Closed {
        /// The date to which the books are closed.
        date: Date,
    },
    /// One more would pass a limit.
    Limit {
        which: Limit,
        /// The limit itself: how many there may be.
        number: u64,
    },
    /// The document's records can't be made.
    Rule {
        fault: PostFault,
        /// The decimals of the quantity that is missing; a shortage has them.
        scale: Option<Scale>,
    },
    /// A resource that is watched would fall below zero.
    Control {
        register: Name,
        /// The values whose resource it is, one of each dimension.
        values: List<Value>,
        /// What the resource would come to.
        balance: i128,
        /// The decimals of the resource.
        scale: Scale,
    },
    /// The table can't be made.
    Table {
        fault: TableFault,
    },
}

/// A field of a request, as a refusal names it.
#[derive(Clone, Copy)]
pub enum Field {
    Space,
    Register,
    Ledger,
    Values,
    Sums,
    Kind,
    Amount,
    Account,
    /// A field of a document type of the configuration, or a dimension of a register.
    Named(Name),
}

/// What is limited.
#[derive(Clone, Copy)]
pub enum Limit {
    /// Documents that are kept.
    Documents,
    /// Document numbers.
    Numbers,
    /// Records that are kept.
    Records,
    /// Lines of a document.
    Lines,
    /// Bytes of the journal, or of an entry of it.
    Journal,
}

impl Reply {
    /// Appends the line that the reply is printed as, without a line feed.
    #[tactic(auto, unfolding(crate::specs::ReplyTexts::reply_text))]
    pub fn print(&self, alloc: Global, out: &mut Vec<u8>) -> Result<(), Memory>
        requires scales { HasScales self.now }
        ensures ok { OnOk result (out.new.items ≡ out.old.items ++ reply_text self.now) }
        ensures err { OnErr result (out.new.items ≡ out.old.items) }
    {
        let value = reply_value(alloc, self)?;
        print_value(alloc, &value, out)
    }
}

impl Refusal {
    /// The number of the refusal.
    pub fn number(&self) -> u64
        ensures { result ≡ refusal_number self.now }
    {
        match self {
            Refusal::BadLine(_) => 1,
            Refusal::UnknownClerk => 2,
            Refusal::NotAllowed { .. } => 3,
            Refusal::Stale { .. } => 4,
            Refusal::NumberReused => 5,
            Refusal::UnknownDoc => 9,
            Refusal::WrongState { .. } => 10,
            Refusal::BadField { .. } => 11,
            Refusal::KeyTaken { .. } => 12,
            Refusal::Closed { .. } => 13,
            Refusal::Limit { .. } => 14,
            Refusal::Rule { .. } => 15,
            Refusal::Control { .. } => 18,
            Refusal::Table { .. } => 19,
        }
    }

    /// The word of the refusal.
    pub fn name(&self) -> &'static str
        ensures { result.now ≡ refusal_name self.now }
    {
        match self {
            Refusal::BadLine(_) => "BadLine",
            Refusal::UnknownClerk => "UnknownClerk",
            Refusal::NotAllowed { .. } => "NotAllowed",
            Refusal::Stale { .. } => "Stale",
            Refusal::NumberReused => "NumberReused",
            Refusal::UnknownDoc => "UnknownDoc",
            Refusal::WrongState { .. } => "WrongState",
            Refusal::BadField { .. } => "BadField",
            Refusal::KeyTaken { .. } => "KeyTaken",
            Refusal::Closed { .. } => "Closed",
            Refusal::Limit { .. } => "Limit",
            Refusal::Rule { .. } => "Rule",
            Refusal::Control { .. } => "Control",
            Refusal::Table { .. } => "Table",
        }
    }
}

impl Field {
    /// The field's word in a request, or its name in the configuration.
    pub fn name(&self) -> &str
        ensures { result.now ≡ field_name self.now }
    {
        match self {
            Field::Space => "space",
            Field::Register => "register",
            Field::Ledger => "ledger",
            Field::Values => "values",
            Field::Sums => "sums",
            Field::Kind => "kind",
            Field::Amount => "amount",
            Field::Account => "account",
            Field::Named(name) => name.as_str(),
        }
    }
}

impl Limit {
    /// The word of what is limited.
    pub fn name(self) -> &'static str
        ensures { result.now ≡ limit_name self }
    {
        match self {
            Limit::Documents => "documents",
            Limit::Numbers => "numbers",
            Limit::Records => "records",
            Limit::Lines => "lines",
            Limit::Journal => "journal",
        }
    }
}

// The word of a document's state.
pub(crate) fn state_name(state: DocState) -> &'static str
    ensures { result.now ≡ state_name state }
{
    match state {
        DocState::Written => "written",
        DocState::Posted => "posted",
        DocState::Marked => "marked",
    }
}

// The number of a fault of posting.
pub(crate) fn post_fault_number(fault: &PostFault) -> u64
    ensures { result ≡ post_fault_number fault.now }
{
    match fault {
        PostFault::Broken { .. } => 1,
        PostFault::Shortage { .. } => 2,
        PostFault::Overflow { .. } => 3,
        PostFault::Entry { .. } => 4,
        PostFault::TooManyRecords => 5,
        PostFault::Negative { .. } => 6,
    }
}

// The number of a fault of an entry.
pub(crate) fn entry_fault_number(fault: EntryFault) -> u64
    ensures { result ≡ entry_fault_number fault }
{
    match fault {
        EntryFault::UnknownAccount => 1,
        EntryFault::GroupAccount => 2,
        EntryFault::ExtraCount => 3,
        EntryFault::Sides => 4,
    }
}

// The number of a fault of a table.
pub(crate) fn table_fault_number(fault: &TableFault) -> u64
    ensures { result ≡ table_fault_number fault.now }
{
    match fault {
        TableFault::BadRange { .. } => 1,
        TableFault::TooManyRows { .. } => 2,
        TableFault::UnknownField { .. } => 3,
    }
}
