//! Trial balances.
ghost use Rattle.std.specs.Prelude.{◌≡◌, true, All};
ghost use Rattle.text_reports.specs.TrialBalances.{IsModerate, HasModerateNumbers};

use crate::rows::{expect, front_of};
use cfg_model::{Account, Chart, Nature};
use reg_base::{AccountRow, Code, List, Name, Scale, Text, Unit};
use std::alloc::Global;
use text_reports::trial_balance;

// Code, name, whether it is off-balance, and the parent, where it has one.
type Entry<'a> = (&'a str, &'a str, bool, &'a str);

// The account of a row, and its numbers.
type Numbers<'a> = (&'a str, [i64; 6]);

const SHOP: [Entry; 3] = [
    ("10", "Goods", false, ""),
    ("60", "Suppliers", false, ""),
    ("90", "Cost", false, ""),
];

const SHOP_NUMBERS: [Numbers; 3] = [
    ("10", [0, 0, 17_500, 13_000, 4_500, 0]),
    ("60", [0, 0, 0, 17_500, 0, 17_500]),
    ("90", [0, 0, 13_000, 0, 13_000, 0]),
];

const SHOP_LINES: [&str; 5] = [
    "account  name              open dr      open cr      turn dr      turn cr     close dr     close cr",
    "10       Goods                0.00         0.00       175.00       130.00        45.00         0.00",
    "60       Suppliers            0.00         0.00         0.00       175.00         0.00       175.00",
    "90       Cost                 0.00         0.00       130.00         0.00       130.00         0.00",
    "TOTAL                         0.00         0.00       305.00       305.00       175.00       175.00",
];

const EMPTY_LINES: [&str; 2] = [
    "account  name              open dr      open cr      turn dr      turn cr     close dr     close cr",
    "TOTAL                         0.00         0.00         0.00         0.00         0.00         0.00",
];

// An account that is off-balance, one with children, and a long name.
const WIDE: [Entry; 5] = [
    ("009", "Goods held for others", true, ""),
    ("10", "Goods", false, ""),
    ("10.01", "Goods in the main warehouse", false, "10"),
    ("10.02", "On the way", false, "10"),
    ("99", "Result", false, ""),
];

const WIDE_NUMBERS: [Numbers; 5] = [
    ("009", [7, 0, 0, 0, 7, 0]),
    (
        "10",
        [1_234_567_890_123_460, 0, 5, 0, 1_234_567_890_123_465, 0],
    ),
    (
        "10.01",
        [1_234_567_890_123_456, 0, 0, 0, 1_234_567_890_123_456, 0],
    ),
    ("10.02", [4, 0, 5, 0, 9, 0]),
    ("99", [0, -8, 0, 0, 0, -8]),
];

const WIDE_LINES: [&str; 7] = [
    "account  name                                 open dr      open cr      turn dr      turn cr         close dr     close cr",
    "009      Goods held for others                      7            0            0            0                7            0",
    "10       Goods                       1234567890123460            0            5            0 1234567890123465            0",
    "10.01    Goods in the main warehouse 1234567890123456            0            0            0 1234567890123456            0",
    "10.02    On the way                                 4            0            5            0                9            0",
    "99       Result                                     0           -8            0            0                0           -8",
    "TOTAL                                1234567890123460           -8            5            0 1234567890123465           -8",
];

fn account_of(alloc: Global, entry: &Entry) -> Option<Account> {
    let (code, name, off, parent) = entry;
    Some(Account {
        code: Code::parse(code)?,
        name: Text::from_str(alloc, name).ok()?,
        nature: Nature::Active,
        off: *off,
        parent: Code::parse(parent),
        extras: List::new(alloc),
    })
}

fn chart_of(alloc: Global, decimals: u8, entries: &[Entry]) -> Option<Chart> {
    let mut accounts = List::new(alloc);
    'entries: for entry in entries {
        accounts.push(account_of(alloc, entry)?).ok()?;
    }
    Some(Chart {
        name: Name::parse("main")?,
        scale: Scale::new(decimals)?,
        split: false,
        accounts,
    })
}

fn row_of(alloc: Global, numbers: &Numbers) -> Option<AccountRow> {
    let (account, numbers) = numbers;
    let [open_dr, open_cr, turn_dr, turn_cr, close_dr, close_cr] = numbers;
    Some(AccountRow {
        account: Code::parse(account)?,
        extras: List::new(alloc),
        unit: Unit::Whole,
        open_dr: i128::from(*open_dr),
        open_cr: i128::from(*open_cr),
        turn_dr: i128::from(*turn_dr),
        turn_cr: i128::from(*turn_cr),
        close_dr: i128::from(*close_dr),
        close_cr: i128::from(*close_cr),
    })
}

fn rows_of(alloc: Global, table: &[Numbers]) -> Option<Vec<AccountRow>> {
    let mut rows = Vec::new(alloc);
    'table: for numbers in table {
        rows.push(row_of(alloc, numbers)?).ok()?;
    }
    Some(rows)
}

// How far from zero a number may be.
const MOST: i128 = 100_000_000_000_000_000_000_000_000_000_000;

fn is_moderate(n: &i128) -> bool
    ensures { result ≡ true → IsModerate n.now }
{
    -MOST <= *n && *n <= MOST
}

fn has_moderate_numbers(row: &AccountRow) -> bool
    ensures { result ≡ true → HasModerateNumbers row.now }
{
    if !is_moderate(&row.open_dr) || !is_moderate(&row.open_cr) {
        return false;
    }
    if !is_moderate(&row.turn_dr) || !is_moderate(&row.turn_cr) {
        return false;
    }
    is_moderate(&row.close_dr) && is_moderate(&row.close_cr)
}

// Whether the numbers of all rows are as a trial balance asks.
fn are_moderate(rows: &[AccountRow]) -> bool
    ensures { result ≡ true → All HasModerateNumbers rows.now }
{
    'rows: for row in rows {
        if !has_moderate_numbers(row) {
            return false;
        }
    }
    true
}

// The trial balance of a chart and rows; none where memory is wanted.
fn told_of(alloc: Global, decimals: u8, entries: &[Entry], table: &[Numbers]) -> Option<Vec<u8>> {
    let chart = chart_of(alloc, decimals, entries)?;
    let rows = rows_of(alloc, table)?;
    let rows = rows.as_slice();
    if rows.len() > 100_000 || !are_moderate(rows) {
        return None;
    }
    let mut out = front_of(alloc)?;
    trial_balance(alloc, &chart, rows, &mut out).ok()?;
    Some(out)
}

#[test]
fn a_trial_balance_sums_the_accounts(rt: HostRuntime) {
    let told = told_of(rt.alloc(), 2, &SHOP, &SHOP_NUMBERS);
    expect(&rt, rt.alloc(), "a shop", told, &SHOP_LINES);
}

#[test]
fn a_trial_balance_of_no_rows_is_header_and_total(rt: HostRuntime) {
    let told = told_of(rt.alloc(), 2, &SHOP, &[]);
    expect(&rt, rt.alloc(), "no rows", told, &EMPTY_LINES);
}

#[test]
fn parents_and_accounts_off_balance_are_in_no_total(rt: HostRuntime) {
    let told = told_of(rt.alloc(), 0, &WIDE, &WIDE_NUMBERS);
    expect(&rt, rt.alloc(), "a wide chart", told, &WIDE_LINES);
}
