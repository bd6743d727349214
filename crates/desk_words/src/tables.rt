//! Requests for tables, with their members as fields.
use crate::request::FilterText;
use reg_base::{Code, Cut, Date, List, Method, Name, Periodicity};

/// The records of a register that a table takes, and how it groups them.
#[derive(Drop)]
pub struct AskedRegister {
    pub name: Name,
    /// Absent: all records.
    pub filter: Option<List<FilterText>>,
    /// Absent: a row per list of values of all dimensions.
    pub group: Option<List<Name>>,
}

/// The accounts of a ledger that a table has.
#[derive(Drop)]
pub struct AskedAccounts {
    pub ledger: Name,
    /// This account and those below it. Absent: all accounts.
    pub account: Option<Code>,
    /// Whether rows are told apart by extras. Absent: they are not.
    pub extras: Option<bool>,
}

/// The dates of a table, both included.
#[derive(Drop)]
pub struct AskedDates {
    /// Absent: from the first date.
    pub from: Option<Date>,
    /// Absent: to the last date.
    pub to: Option<Date>,
}

/// The turnovers of a register, a row per group and unit.
#[derive(Drop)]
pub struct Turnovers {
    pub clerk: Name,
    pub register: AskedRegister,
    pub dates: AskedDates,
    /// Absent: the dates as a whole.
    pub by: Option<Periodicity>,
    /// The open transaction that the request is of.
    pub tx: Option<u8>,
}

/// The turnovers of a register with the balances before and behind them.
#[derive(Drop)]
pub struct Both {
    pub turnovers: Turnovers,
    /// Absent: only rows in which something moved.
    pub method: Option<Method>,
}

/// The balances of accounts at a cut.
#[derive(Drop)]
pub struct AccountBalance {
    pub clerk: Name,
    pub accounts: AskedAccounts,
    /// Absent: all entries up to now.
    pub cut: Option<Cut>,
    /// The open transaction that the request is of.
    pub tx: Option<u8>,
}

/// The turnovers of accounts, a row per account and unit.
#[derive(Drop)]
pub struct AccountTurnovers {
    pub clerk: Name,
    pub accounts: AskedAccounts,
    pub dates: AskedDates,
    /// Neither `Record` nor `Recorder`. Absent: the dates as a whole.
    pub by: Option<Periodicity>,
    /// The open transaction that the request is of.
    pub tx: Option<u8>,
}

/// The amounts of a ledger, a row per debit account and credit account.
#[derive(Drop)]
pub struct DrCr {
    pub clerk: Name,
    pub ledger: Name,
    /// Entries with a side at this account or below it. Absent: all entries.
    pub account: Option<Code>,
    pub dates: AskedDates,
    /// The open transaction that the request is of.
    pub tx: Option<u8>,
}

/// The documents of a range of dates.
#[derive(Drop)]
pub struct DocumentsQuestion {
    pub clerk: Name,
    pub dates: AskedDates,
    /// The open transaction that the request is of.
    pub tx: Option<u8>,
}
