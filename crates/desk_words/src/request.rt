//! A request, with its members as fields. Texts stay texts: the configuration says what they mean.
use crate::tables::{
    AccountBalance, AccountTurnovers, AskedRegister, Both, DocumentsQuestion, DrCr, Turnovers,
};
use reg_base::{Code, Comment, Cut, Date, List, Mark, Name, Side, Text};

/// What a line asks for.
#[derive(Drop)]
pub enum Request {
    Write(Write),
    Mark(Switch),
    Manual(Manual),
    Activity(Switch),
    Close(Close),
    Sweep(Sweep),
    Balance(Balance),
    Doc(DocQuestion),
    Post(Post),
    Unpost(StandingDocument),
    Turnovers(Turnovers),
    Both(Both),
    AccountBalance(AccountBalance),
    AccountTurnovers(AccountTurnovers),
    /// What `AccountTurnovers` asks for, with the balances at both ends.
    AccountBoth(AccountTurnovers),
    DrCr(DrCr),
    Documents(DocumentsQuestion),
}

/// The content of a document of a type: of a new one, or of one that stands.
#[derive(Drop)]
pub struct Write {
    pub clerk: Name,
    /// The request's number among those of its clerk, from 1.
    pub no: u32,
    /// The document whose content this replaces; absent for a new one.
    pub doc: Option<u32>,
    /// The key of a new document. A document keeps its key.
    pub key: Option<Code>,
    /// The document's type.
    pub kind: Name,
    pub date: Date,
    pub head: List<FieldText>,
    pub lines: List<List<FieldText>>,
    pub comment: Option<Comment>,
    /// The open transaction that the request is of.
    pub tx: Option<u8>,
}

/// Post a document: its records are made by the rules of its type.
#[derive(Drop)]
pub enum Post {
    /// A document that is given its content with the request.
    Content(Write),
    /// A document as it stands.
    Standing(StandingDocument),
}

/// A document that is posted or unposted as it stands.
#[derive(Drop)]
pub struct StandingDocument {
    pub clerk: Name,
    /// The request's number among those of its clerk, from 1.
    pub no: u32,
    pub doc: u32,
    /// The open transaction that the request is of.
    pub tx: Option<u8>,
}

/// Switch something of a document on or off: its mark for deletion, or its activity.
#[derive(Drop)]
pub struct Switch {
    pub clerk: Name,
    /// The request's number among those of its clerk, from 1.
    pub no: u32,
    pub doc: u32,
    pub on: bool,
    /// The open transaction that the request is of.
    pub tx: Option<u8>,
}

/// Close the books before a date.
#[derive(Drop)]
pub struct Close {
    pub clerk: Name,
    /// The request's number among those of its clerk, from 1.
    pub no: u32,
    /// What is dated before it changes no more.
    pub date: Date,
}

/// Remove a document that is marked for deletion.
#[derive(Drop)]
pub struct Sweep {
    pub clerk: Name,
    /// The request's number among those of its clerk, from 1.
    pub no: u32,
    pub doc: u32,
}

/// Make a document of the given records.
#[derive(Drop)]
pub struct Manual {
    pub clerk: Name,
    /// The request's number among those of its clerk, from 1.
    pub no: u32,
    /// The document whose records these replace; absent for a new one.
    pub doc: Option<u32>,
    pub key: Option<Code>,
    pub date: Date,
    pub sets: List<SetText>,
    pub comment: Option<Comment>,
    /// The open transaction that the request is of.
    pub tx: Option<u8>,
}

/// The records for one register or ledger.
#[derive(Drop)]
pub struct SetText {
    pub space: Name,
    pub records: List<RecordText>,
}

/// A record, in the form of a register or in that of a ledger.
#[derive(Drop)]
pub enum RecordText {
    Register(RegisterText),
    Ledger(LedgerText),
}

#[derive(Drop)]
pub struct RegisterText {
    pub mark: Mark,
    pub sums: List<Text>,
    pub values: List<Text>,
}

#[derive(Drop)]
pub struct LedgerText {
    pub amount: Text,
    pub debit: Option<Side>,
    pub credit: Option<Side>,
}

/// The sums of a register at a cut, a row per group.
#[derive(Drop)]
pub struct Balance {
    pub clerk: Name,
    pub register: AskedRegister,
    /// Absent: all records up to now.
    pub cut: Option<Cut>,
    /// The open transaction that the request is of.
    pub tx: Option<u8>,
}

/// The values that a dimension may have.
#[derive(Drop)]
pub struct FilterText {
    pub name: Name,
    pub values: List<Text>,
}

/// A field of a head or a line as it is given.
#[derive(Drop)]
pub struct FieldText {
    pub name: Name,
    pub text: Text,
}

/// Show a document with its records.
#[derive(Drop)]
pub struct DocQuestion {
    pub clerk: Name,
    pub doc: u32,
    /// The open transaction that the request is of.
    pub tx: Option<u8>,
}
