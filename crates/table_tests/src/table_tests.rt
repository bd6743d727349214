//! Turnovers of registers, and balances with turnovers, by units.
ghost use Rattle.std.specs.Prelude.{◌<◌, ◌^◌, All, length};
ghost use Rattle.virt_tables.specs.Bounds.{HasShortRecords};

use crate::records::{are_short, register_of, store_of};
use crate::texts::rows_text;
use cfg_model::Register;
use doc_store::Store;
use reg_base::{Date, Filter, List, Method, Periodicity, Range, Row};
use std::alloc::Global;
use std::process::Abort;
use virt_tables::{Ask, balance_and_turnovers, turnovers};

// What the rows are of: turnovers of a register without balances, or with them, or both.
#[derive(Clone, Copy)]
enum Table {
    Turns,
    Turnovers,
    Both(Method),
}

const ALL: Method = Method::MovementsAndPeriodBoundaries;

// A table of January and February by units, and its rows.
const TABLES: [(&str, Table, Periodicity, &str); 8] = [
    (
        "turnovers by month",
        Table::Turnovers,
        Periodicity::Month,
        "a@2024-01-01T00:00:00 - 3 3 0 -;b@2024-01-01T00:00:00 - 7 0 7 -;\
            b@2024-02-01T00:00:00 - 0 2 -2 -;",
    ),
    (
        "turns",
        Table::Turns,
        Periodicity::Period,
        "b@whole - - - 5 -;",
    ),
    (
        "turnovers by record",
        Table::Turnovers,
        Periodicity::Record,
        "a@2024-01-05T00:00:00#1 - 3 0 3 -;a@2024-01-05T00:00:00#2 - 0 3 -3 -;\
            b@2024-01-05T00:00:00#2 - 7 0 7 -;b@2024-02-29T00:00:00#1 - 0 2 -2 -;",
    ),
    (
        "both by month",
        Table::Both(Method::Movements),
        Periodicity::Month,
        "a@2024-01-01T00:00:00 10 3 3 0 10;b@2024-01-01T00:00:00 0 7 0 7 7;\
            b@2024-02-01T00:00:00 7 0 2 -2 5;",
    ),
    (
        "both by month with ends",
        Table::Both(ALL),
        Periodicity::Month,
        "a@2024-01-01T00:00:00 10 3 3 0 10;a@2024-02-01T00:00:00 10 0 0 0 10;\
            b@2024-01-01T00:00:00 0 7 0 7 7;b@2024-02-01T00:00:00 7 0 2 -2 5;\
            d@2024-01-01T00:00:00 4 0 0 0 4;d@2024-02-01T00:00:00 4 0 0 0 4;",
    ),
    (
        "both over the range",
        Table::Both(Method::Movements),
        Periodicity::Period,
        "a@whole 10 3 3 0 10;b@whole 0 7 2 5 5;",
    ),
    (
        "both over the range with ends",
        Table::Both(ALL),
        Periodicity::Period,
        "a@whole 10 3 3 0 10;b@whole 0 7 2 5 5;d@whole 4 0 0 0 4;",
    ),
    (
        "both by document",
        Table::Both(ALL),
        Periodicity::Recorder,
        "a@2024-01-05T00:00:00#1 10 3 0 3 13;a@2024-01-05T00:00:00#2 13 0 3 -3 10;\
            b@2024-01-05T00:00:00#2 0 7 0 7 7;b@2024-02-29T00:00:00#1 7 0 2 -2 5;",
    ),
];

// January and February, by units.
fn range_of(by: Periodicity) -> Option<Range> {
    Some(Range {
        from: Date::parse("2024-01-01").ok()?,
        to: Date::parse("2024-02-29T23:59:59").ok()?,
        by,
    })
}

// All that the first register has, by all of its dimensions.
fn ask_all(alloc: Global) -> Ask {
    Ask {
        register: 0,
        filter: Filter {
            lists: List::new(alloc),
        },
        group: None,
    }
}

fn turned(alloc: Global, store: &Store, range: &Range, balance: bool) -> Option<List<Row>>
    requires few { length store.now.documents < 2 ^ 32 }
    requires short { All HasShortRecords store.now.documents }
{
    let register = register_of(alloc, balance)?;
    turnovers(alloc, &ask_all(alloc), range, &register, store.walk()).ok()
}

fn both(alloc: Global, store: &Store, range: &Range, method: &Method) -> Option<List<Row>>
    requires few { length store.now.documents < 2 ^ 32 }
    requires short { All HasShortRecords store.now.documents }
{
    let register = register_of(alloc, true)?;
    let ask = ask_all(alloc);
    balance_and_turnovers(alloc, &ask, range, *method, &register, store.walk()).ok()
}

fn rows_of(alloc: Global, store: &Store, range: &Range, table: &Table) -> Option<List<Row>>
    requires few { length store.now.documents < 2 ^ 32 }
    requires short { All HasShortRecords store.now.documents }
{
    match table {
        Table::Turns => turned(alloc, store, range, false),
        Table::Turnovers => turned(alloc, store, range, true),
        Table::Both(method) => both(alloc, store, range, method),
    }
}

// The text of a table; none where memory is wanted.
fn table_text(alloc: Global, table: &Table, by: Periodicity) -> Option<String> {
    let store = store_of(alloc)?;
    if store.count() > 2 || !are_short(&store) {
        return None;
    }
    let rows = rows_of(alloc, &store, &range_of(by)?, table)?;
    rows_text(alloc, &rows).ok()
}

// Asks that a table has these rows.
fn expect(rt: &impl Abort, says: &str, text: Option<String>, wanted: &str) {
    match text {
        Some(text) => assert_eq!(rt; text.as_str(), wanted, "{says}"),
        None => panic!(rt; "memory was refused"),
    }
}

#[test]
fn tables_have_their_rows(rt: HostRuntime) {
    'tables: for (says, table, by, wanted) in &TABLES {
        expect(&rt, says, table_text(rt.alloc(), table, *by), wanted);
    }
}
