//! Plain types of registers: texts, codes, comments, dates, points, documents, records and why they
//! are refused, and what a balance and a table are.
//!
//! Means: a text is its bytes, a date its seconds, a list its elements; `records_of` in
//! `specs/Records.antt` gives a register's records, and `balance_of` in `specs/Balances.antt`
//! sums them; `specs/Documents.antt` says what it means to put, replace and remove a document;
//! `specs/Units.antt` cuts time into units, and `turnovers_of` and `balance_and_turnovers_of` in
//! `specs/Turnovers.antt` are the tables over them. Contracts of all crates above speak of these.
//!
//! Stands on: `jiff_core` for the calendar.
//!
//! Promises: each `parse` accepts exactly its spelling, and those of numbers, dates, points and
//! cuts name the first fault; the four are printed exactly as `specs/` says, and read back; orders
//! are total and tell all apart; a balance or a table does not depend on the order of the records;
//! a unit starts at the greatest start that is not above a date; rows close, and those of smaller
//! units add up to those of the whole range; a share is the nearest whole number.
//!
//! Leaves open: how much memory a text takes, and when memory is refused.
#![tactic(auto)]

mod code;
mod comment;
mod cut;
mod date;
mod day;
mod fault;
mod line;
mod list;
mod memory;
mod name;
mod num;
mod order_laws;
mod point;
mod read_back;
mod records;
mod right;
mod scale;
mod shares;
mod short_text;
mod sums;
mod table_laws;
mod tables;
mod text;
mod tried;
mod unit_laws;
mod units;
mod value;

pub use code::{Code, is_code_byte};
pub use comment::Comment;
pub use cut::{Cut, inside};
pub use date::{Date, DateFault};
pub use fault::{EntryFault, PostFault, TableFault};
pub use line::Line;
pub use list::List;
pub use memory::Memory;
pub use name::Name;
pub use num::{LARGEST_UNITS, Num, NumFault, digit_count, power_of_ten, read_on};
pub use order_laws::{
    balances_take_records_in_any_order, equal_values_are_the_same, orders_are_exact,
    orders_are_total, values_stand_in_order,
};
pub use point::Point;
pub use read_back::{
    cuts_read_back, dates_read_back, numbers_read_back, points_read_back, what_is_read_is_in_range,
};
pub use records::{
    Doc, DocRow, DocState, Document, Filter, Found, Item, Mark, Mode, Posting, Rec, Sets, Side,
    SumRow,
};
pub use right::Right;
pub use scale::Scale;
pub use shares::share;
pub use sums::{print_sum, sum_string};
pub use table_laws::{
    rows_open_and_close, rows_stand_in_order, tables_take_records_in_any_order, turnovers_add_up,
};
pub use tables::{
    AccountRow, AskedList, Method, PairRow, Periodicity, ROW_LIMIT, Range, Row, Unit,
};
pub use text::{Text, join_texts, string_of};
pub use tried::Fault;
pub use unit_laws::{unit_starts_keep_order, units_are_exact};
pub use units::{next_unit, unit_start};
pub use value::{Cell, Value};
