//! Tables as they are printed, byte by byte, and why one is refused.
ghost use Rattle.std.specs.Prelude.{◌≡◌, length, All, IfSome};
ghost use Rattle.desk_words.specs.ReplyTexts.{AnswerHasScales};
ghost use Rattle.desk_words.specs.RowTexts.{HasBoth};

use crate::rows::{Frame, REFUSED, expect};
use crate::tests::{line_of, refused};
use desk_words::{Answer, Field, Refusal, Reply};
use reg_base::{
    AccountRow, Code, Date, DocRow, DocState, List, Name, PairRow, Point, Row, Scale, TableFault,
    Unit, Value,
};
use std::alloc::Global;
use std::test::Fail;

// A table tells its rows.
const ROWS: Frame = ["{\"ok\":{\"rows\":[", "]}}"];

// What is printed of an answer.
fn done(alloc: Global, answer: Answer) -> Option<String>
    requires { AnswerHasScales answer }
{
    line_of(alloc, &Reply::Done(answer))
}

// ---- registers

// A quantity and an amount.
fn sums(alloc: Global, quantity: i128, amount: i128) -> Option<List<i128>>
    ensures { IfSome result (λ sums. length sums ≡ 2) }
{
    List::from_slice(alloc, &[quantity, amount]).ok()
}

// The scales of a quantity and an amount.
fn scales(alloc: Global) -> Option<List<Scale>>
    ensures { IfSome result (λ scales. length scales ≡ 2) }
{
    let scales = [Scale::new(3)?, Scale::new(2)?];
    List::from_slice(alloc, &scales).ok()
}

// The turnovers of nails with their balances.
fn nails(alloc: Global, unit: &Unit) -> Option<Row>
    ensures { IfSome result (HasBoth 2) }
{
    let nail = Code::parse("nail")?;
    let group = List::from_slice(alloc, &[Value::Code(nail)]).ok()?;
    let opening = sums(alloc, 1_000, 500)?;
    let receipt = sums(alloc, 10_000, 5_000)?;
    let expense = sums(alloc, 12_345, 6_001)?;
    let turnover = sums(alloc, -2_345, -1_001)?;
    let closing = sums(alloc, -1_345, -501)?;
    Some(Row {
        group,
        unit: *unit,
        opening,
        receipt,
        expense,
        turnover,
        closing,
    })
}

fn rows(alloc: Global, unit: &Unit) -> Option<List<Row>>
    ensures { IfSome result (All (HasBoth 2)) }
{
    let row = nails(alloc, unit)?;
    let mut rows = List::new(alloc);
    rows.push(row).ok()?;
    Some(rows)
}

// The turnovers of nails, of a register with balances or of one without.
fn turnovers(alloc: Global, balances: bool, unit: &Unit) -> Option<String> {
    let rows = rows(alloc, unit)?;
    let scales = scales(alloc)?;
    let answer = Answer::Turnovers {
        balances,
        rows,
        scales,
    };
    done(alloc, answer)
}

fn both(alloc: Global, unit: &Unit) -> Option<String> {
    let rows = rows(alloc, unit)?;
    let scales = scales(alloc)?;
    done(alloc, Answer::Both { rows, scales })
}

#[test]
fn tables_of_registers_are_printed(rt: HostRuntime) -> Result<(), Fail> {
    let alloc = rt.alloc();
    let wanted = "{\"expense\":[\"12.345\",\"60.01\"],\"group\":[\"nail\"],\
        \"receipt\":[\"10.000\",\"50.00\"],\"turnover\":[\"-2.345\",\"-10.01\"],\"unit\":null}";
    let told = turnovers(alloc, true, &Unit::Whole);
    expect(&rt, "with balances", told, &ROWS, wanted);
    let day = Date::parse("2024-02-29").map_err(|_| "no date")?;
    let wanted = "{\"group\":[\"nail\"],\"turnover\":[\"-2.345\",\"-10.01\"],\
        \"unit\":\"2024-02-29T00:00:00\"}";
    let told = turnovers(alloc, false, &Unit::Start(day));
    expect(&rt, "without balances", told, &ROWS, wanted);
    let point = Point::parse("2024-01-10T09:00:00#4294967295").map_err(|_| "no point")?;
    let wanted = "{\"closing\":[\"-1.345\",\"-5.01\"],\"expense\":[\"12.345\",\"60.01\"],\
        \"group\":[\"nail\"],\"opening\":[\"1.000\",\"5.00\"],\
        \"receipt\":[\"10.000\",\"50.00\"],\"turnover\":[\"-2.345\",\"-10.01\"],\
        \"unit\":\"2024-01-10T09:00:00#4294967295/65535\"}";
    let told = both(alloc, &Unit::Line(point, 65_535));
    expect(&rt, "both", told, &ROWS, wanted);
    Ok(())
}

// What is printed of a table without rows.
fn no_rows(alloc: Global) -> Option<String> {
    let empty = Answer::Both {
        rows: List::new(alloc),
        scales: List::new(alloc),
    };
    done(alloc, empty)
}

// ---- accounts

// An account with goods, and its numbers in cents.
fn goods(alloc: Global, extras: &[Code], unit: &Unit) -> Option<List<AccountRow>> {
    let row = AccountRow {
        account: Code::parse("10.1")?,
        extras: List::from_slice(alloc, extras).ok()?,
        unit: *unit,
        open_dr: 0,
        open_cr: 1,
        turn_dr: 123_456,
        turn_cr: 100,
        close_dr: 123_355,
        close_cr: -5,
    };
    let mut rows = List::new(alloc);
    rows.push(row).ok()?;
    Some(rows)
}

fn account_balance(alloc: Global) -> Option<String> {
    let rows = goods(alloc, &[], &Unit::Whole)?;
    let scale = Scale::new(2)?;
    done(alloc, Answer::AccountBalance { rows, scale })
}

fn account_turnovers(alloc: Global, unit: &Unit) -> Option<String> {
    let nail = Code::parse("nail")?;
    let rows = goods(alloc, &[nail], unit)?;
    let scale = Scale::new(0)?;
    done(alloc, Answer::AccountTurnovers { rows, scale })
}

fn account_both(alloc: Global, unit: &Unit) -> Option<String> {
    let rows = goods(alloc, &[], unit)?;
    let scale = Scale::new(2)?;
    done(alloc, Answer::AccountBoth { rows, scale })
}

#[test]
fn tables_of_accounts_are_printed(rt: HostRuntime) -> Result<(), Fail> {
    let alloc = rt.alloc();
    let wanted = "{\"account\":\"10.1\",\"close_cr\":\"-0.05\",\"close_dr\":\"1233.55\",\
        \"extras\":[]}";
    expect(&rt, "balances", account_balance(alloc), &ROWS, wanted);
    let wanted = "{\"account\":\"10.1\",\"extras\":[\"nail\"],\"turn_cr\":\"100\",\
        \"turn_dr\":\"123456\",\"unit\":null}";
    let told = account_turnovers(alloc, &Unit::Whole);
    expect(&rt, "turnovers", told, &ROWS, wanted);
    let week = Date::parse("2024-01-01").map_err(|_| "no date")?;
    let wanted = "{\"account\":\"10.1\",\"close_cr\":\"-0.05\",\"close_dr\":\"1233.55\",\
        \"extras\":[],\"open_cr\":\"0.01\",\"open_dr\":\"0.00\",\"turn_cr\":\"1.00\",\
        \"turn_dr\":\"1234.56\",\"unit\":\"2024-01-01T00:00:00\"}";
    let told = account_both(alloc, &Unit::Start(week));
    expect(&rt, "both", told, &ROWS, wanted);
    Ok(())
}

// ---- pairs and documents

fn pairs(alloc: Global) -> Option<String> {
    let one = PairRow {
        debit: None,
        credit: Code::parse("001"),
        amount: 5_000,
    };
    let other = PairRow {
        debit: Code::parse("10"),
        credit: Code::parse("60"),
        amount: -1,
    };
    let mut rows = List::new(alloc);
    rows.push(one).ok()?;
    rows.push(other).ok()?;
    let scale = Scale::new(2)?;
    done(alloc, Answer::DrCr { rows, scale })
}

fn documents(alloc: Global, date: Date) -> Option<String> {
    let manual = DocRow {
        number: 1,
        date,
        kind: None,
        key: None,
        state: DocState::Posted,
    };
    let receipt = DocRow {
        number: 4_294_967_295,
        date,
        kind: Name::parse("receipt"),
        key: Code::parse("bill-7"),
        state: DocState::Marked,
    };
    let mut rows = List::new(alloc);
    rows.push(manual).ok()?;
    rows.push(receipt).ok()?;
    done(alloc, Answer::Documents { rows })
}

#[test]
fn pairs_and_documents_are_printed(rt: HostRuntime) -> Result<(), Fail> {
    let alloc = rt.alloc();
    let wanted = "{\"amount\":\"50.00\",\"credit\":\"001\",\"debit\":null},\
        {\"amount\":\"-0.01\",\"credit\":\"60\",\"debit\":\"10\"}";
    expect(&rt, "pairs", pairs(alloc), &ROWS, wanted);
    let date = Date::parse("2024-01-10").map_err(|_| "no date")?;
    let wanted = "{\"date\":\"2024-01-10T00:00:00\",\"doc\":1,\"key\":null,\
        \"kind\":\"manual\",\"state\":\"posted\"},\
        {\"date\":\"2024-01-10T00:00:00\",\"doc\":4294967295,\"key\":\"bill-7\",\
        \"kind\":\"receipt\",\"state\":\"marked\"}";
    expect(&rt, "documents", documents(alloc, date), &ROWS, wanted);
    expect(&rt, "no rows", no_rows(alloc), &ROWS, "");
    Ok(())
}

// ---- refusals

#[test]
fn a_table_that_is_not_made_is_told(rt: HostRuntime) -> Result<(), Fail> {
    let alloc = rt.alloc();
    let from = Date::parse("2024-02-01").map_err(|_| "no date")?;
    let to = Date::parse_end("2024-01-31").map_err(|_| "no date")?;
    let fault = TableFault::BadRange { from, to };
    let wanted = "\"code\":19,\"fault\":1,\"from\":\"2024-02-01T00:00:00\",\
        \"name\":\"Table\",\"to\":\"2024-01-31T23:59:59\"";
    let told = refused(alloc, Refusal::Table { fault });
    expect(&rt, "a wrong range", told, &REFUSED, wanted);
    let fault = TableFault::TooManyRows { limit: 100_000 };
    let wanted = "\"code\":19,\"fault\":2,\"limit\":100000,\"name\":\"Table\"";
    let told = refused(alloc, Refusal::Table { fault });
    expect(&rt, "too many rows", told, &REFUSED, wanted);
    let name = Name::parse("colour").ok_or("no name")?;
    let fault = TableFault::UnknownField { name };
    let wanted = "\"code\":19,\"fault\":3,\"field\":\"colour\",\"name\":\"Table\"";
    let told = refused(alloc, Refusal::Table { fault });
    expect(&rt, "an unknown dimension", told, &REFUSED, wanted);
    let wanted = "\"code\":11,\"field\":\"account\",\"name\":\"BadField\"";
    let refusal = Refusal::BadField {
        field: Field::Account,
    };
    expect(&rt, "an account", refused(alloc, refusal), &REFUSED, wanted);
    Ok(())
}
