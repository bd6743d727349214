//! Stock cards.
use crate::rows::{expect, front_of};
use cfg_model::{Register, Resource};
use reg_base::{Code, List, Name, Point, Row, Scale, Unit, Value};
use std::alloc::Global;
use text_reports::stock_card;

const EMPTY: [&str; 1] = [
    "group                            unit                           resource            opening        receipt        expense        closing",
];

const LINES: [&str; 5] = [
    "group                            unit                           resource              opening        receipt        expense          closing",
    "nail                             2024-01-10T09:00:00#1          quantity                0.000         10.000          0.000           10.000",
    "nail                             2024-01-10T09:00:00#1          amount                      0             50              0               50",
    "main/nail/2024-01-10T09:00:00#1  2024-02-29T23:59:59#4294967295 quantity               10.000          0.000         12.500           -2.500",
    "main/nail/2024-01-10T09:00:00#1  2024-02-29T23:59:59#4294967295 amount       1234567890123456              0              0 1234567890123456",
];

// The lot of some groups, by its text.
const LOT: &str = "2024-01-10T09:00:00#1";

fn resource_of(name: &str, decimals: u8) -> Option<Resource> {
    Some(Resource {
        name: Name::parse(name)?,
        scale: Scale::new(decimals)?,
    })
}

// A register of quantities in thousandths, and of whole amounts.
fn register_of(alloc: Global) -> Option<Register> {
    let mut resources = List::new(alloc);
    resources.push(resource_of("quantity", 3)?).ok()?;
    resources.push(resource_of("amount", 0)?).ok()?;
    Some(Register {
        name: Name::parse("stock")?,
        balance: true,
        dimensions: List::new(alloc),
        resources,
        split: false,
    })
}

// The value of a code, or of the lot.
fn value_of(text: &str) -> Option<Value> {
    if text == LOT {
        return Some(Value::Lot(Point::parse(text).ok()?));
    }
    Some(Value::Code(Code::parse(text)?))
}

fn group_of(alloc: Global, texts: &[&str]) -> Option<List<Value>> {
    let mut values = List::new(alloc);
    'texts: for text in texts {
        values.push(value_of(text)?).ok()?;
    }
    Some(values)
}

fn row_of(alloc: Global, group: &[&str], unit: &str, numbers: &[[i128; 2]; 4]) -> Option<Row> {
    let [opening, receipt, expense, closing] = numbers;
    Some(Row {
        group: group_of(alloc, group)?,
        unit: Unit::At(Point::parse(unit).ok()?),
        opening: List::from_slice(alloc, opening).ok()?,
        receipt: List::from_slice(alloc, receipt).ok()?,
        expense: List::from_slice(alloc, expense).ok()?,
        turnover: List::new(alloc),
        closing: List::from_slice(alloc, closing).ok()?,
    })
}

fn rows_of(alloc: Global) -> Option<Vec<Row>> {
    let mut rows = Vec::new(alloc);
    let first = [[0, 0], [10_000, 50], [0, 0], [10_000, 50]];
    rows.push(row_of(alloc, &["nail"], LOT, &first)?).ok()?;
    let amount = 1_234_567_890_123_456;
    let second = [[10_000, amount], [0, 0], [12_500, 0], [-2_500, amount]];
    let group = ["main", "nail", LOT];
    let unit = "2024-02-29T23:59:59#4294967295";
    rows.push(row_of(alloc, &group, unit, &second)?).ok()?;
    Some(rows)
}

// The card of the rows; none where memory is wanted.
fn told_of(alloc: Global, rows: &[Row]) -> Option<Vec<u8>> {
    let mut out = front_of(alloc)?;
    stock_card(alloc, &register_of(alloc)?, rows, &mut out).ok()?;
    Some(out)
}

fn card_of(alloc: Global) -> Option<Vec<u8>> {
    let rows = rows_of(alloc)?;
    told_of(alloc, rows.as_slice())
}

#[test]
fn a_card_of_no_rows_is_its_header(rt: HostRuntime) {
    expect(&rt, rt.alloc(), "no rows", told_of(rt.alloc(), &[]), &EMPTY);
}

#[test]
fn a_card_has_a_line_for_each_resource(rt: HostRuntime) {
    expect(&rt, rt.alloc(), "a card", card_of(rt.alloc()), &LINES);
}
