//! The plain types of tables: how a range of dates is cut into units, and the rows that are shown.
use crate::code::Code;
use crate::date::Date;
use crate::list::List;
use crate::name::Name;
use crate::point::Point;
use crate::value::Value;

/// How many rows a table may have.
pub const ROW_LIMIT: u32 = 100_000;

/// How a table cuts its range into units.
#[derive(Clone, Copy, Debug, PartialEq, Eq)]
pub enum Periodicity {
    /// The range as a whole.
    Period,
    Record,
    /// A document.
    Recorder,
    Day,
    Week,
    TenDays,
    Month,
    Quarter,
    HalfYear,
    Year,
}

/// What a row of a table speaks of. Units of one table are of one sort, and in order of time.
#[derive(Clone, Copy, Debug, PartialEq, Eq, PartialOrd, Ord)]
pub enum Unit {
    /// The range as a whole.
    Whole,
    /// A day, a week and so on, by the date at which it starts.
    Start(Date),
    /// A document, by its point.
    At(Point),
    /// A record, by its point and its line.
    Line(Point, u16),
}

/// The dates that a table asks for, both included, and its units.
#[derive(Clone, Copy, Debug, PartialEq, Eq)]
pub struct Range {
    pub from: Date,
    pub to: Date,
    pub by: Periodicity,
}

/// Which rows of balances and turnovers are shown.
#[derive(Clone, Copy, Debug, PartialEq, Eq)]
pub enum Method {
    /// Those in which something moved.
    Movements,
    /// Besides, those of both ends of the range that have a balance.
    MovementsAndPeriodBoundaries,
}

/// One list of a filter: the values that the dimension of a name may have.
#[derive(Drop)]
pub struct AskedList {
    pub name: Name,
    pub values: List<Value>,
}

/// One row of a table of a register: a number per resource, in units at the resource's scale.
/// Lists that the table does not have are empty.
#[derive(Drop)]
pub struct Row {
    pub group: List<Value>,
    pub unit: Unit,
    pub opening: List<i128>,
    pub receipt: List<i128>,
    pub expense: List<i128>,
    pub turnover: List<i128>,
    pub closing: List<i128>,
}

/// One row of a table of accounts, in units at the ledger's scale. Numbers that the table does not
/// have are 0.
#[derive(Drop)]
pub struct AccountRow {
    pub account: Code,
    /// Empty where rows are not told apart by extras.
    pub extras: List<Code>,
    pub unit: Unit,
    pub open_dr: i128,
    pub open_cr: i128,
    pub turn_dr: i128,
    pub turn_cr: i128,
    pub close_dr: i128,
    pub close_cr: i128,
}

/// The sum of the entries between two accounts, in units at the ledger's scale. Entries of an
/// off-balance account have one side alone.
#[derive(Drop)]
pub struct PairRow {
    pub debit: Option<Code>,
    pub credit: Option<Code>,
    pub amount: i128,
}
