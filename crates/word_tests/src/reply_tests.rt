//! Replies as they are printed, byte by byte.
ghost use Rattle.std.specs.Prelude.{◌≡◌, length, All, IfSome};
ghost use Rattle.desk_words.specs.ReplyTexts.{HasMissingScale, RefusalHasScales, AnswerHasScales};

use crate::rows::{REFUSED, WHOLE, expect};
use crate::tests::{line_of, refused, told_of};
use desk_words::{Acknowledgement, Answer, Field, Limit, Refusal, Reply};
use reg_base::{
    Code, Date, DocState, EntryFault, Line, List, Name, Point, PostFault, Right, Scale, SumRow,
    Value,
};
use std::alloc::Global;
use std::process::Abort;
use std::test::Fail;

// What is printed of an answer.
fn done(alloc: Global, answer: Answer) -> Option<String>
    requires { AnswerHasScales answer }
{
    line_of(alloc, &Reply::Done(answer))
}

// The sums of nails.
fn nails(alloc: Global) -> Option<SumRow>
    ensures { IfSome result (λ row. length row.sums ≡ 2) }
{
    let nail = Code::parse("nail")?;
    let group = List::from_slice(alloc, &[Value::Code(nail)]).ok()?;
    let sums = List::from_slice(alloc, &[10_000, 5_000]).ok()?;
    Some(SumRow { group, sums })
}

fn rows(alloc: Global) -> Option<List<SumRow>>
    ensures { IfSome result (All (λ row. length row.sums ≡ 2)) }
{
    let row = nails(alloc)?;
    let mut rows = List::new(alloc);
    rows.push(row).ok()?;
    Some(rows)
}

// The scales of a quantity and an amount.
fn scales(alloc: Global) -> Option<List<Scale>>
    ensures { IfSome result (λ scales. length scales ≡ 2) }
{
    let scales = [Scale::new(3)?, Scale::new(2)?];
    List::from_slice(alloc, &scales).ok()
}

// A balance of one row.
fn balance(alloc: Global) -> Option<Answer>
    ensures { IfSome result AnswerHasScales }
{
    let rows = rows(alloc)?;
    let scales = scales(alloc)?;
    Some(Answer::Balance { rows, scales })
}

// What is printed of that balance.
fn balance_line(alloc: Global) -> Option<String> {
    done(alloc, balance(alloc)?)
}

// Documents that changed, each with what is printed of it.
const CHANGES: [(bool, u32, DocState, &str); 3] = [
    (
        true,
        1,
        DocState::Posted,
        "{\"ok\":{\"active\":true,\"doc\":1,\"state\":\"posted\"}}",
    ),
    (
        true,
        4_294_967_295,
        DocState::Written,
        "{\"ok\":{\"active\":true,\"doc\":4294967295,\"state\":\"written\"}}",
    ),
    (
        false,
        2,
        DocState::Marked,
        "{\"ok\":{\"active\":false,\"doc\":2,\"state\":\"marked\"}}",
    ),
];

fn acknowledged(alloc: Global, acknowledgement: Acknowledgement) -> Option<String> {
    done(alloc, Answer::Acknowledged(acknowledgement))
}

#[test]
fn acknowledgements_are_printed(rt: HostRuntime) -> Result<(), Fail> {
    let alloc = rt.alloc();
    for (active, doc, state, wanted) in &CHANGES {
        let changed = Acknowledgement::Document {
            active: *active,
            doc: *doc,
            state: *state,
        };
        expect(&rt, wanted, acknowledged(alloc, changed), &WHOLE, wanted);
    }
    let date = Date::parse("2024-02-01").map_err(|_| "no date")?;
    let closed = acknowledged(alloc, Acknowledgement::Closed { date });
    let wanted = "{\"ok\":{\"closed\":\"2024-02-01T00:00:00\"}}";
    expect(&rt, "closed books", closed, &WHOLE, wanted);
    let swept = acknowledged(alloc, Acknowledgement::Swept { doc: 3 });
    expect(&rt, "a removal", swept, &WHOLE, "{\"ok\":{\"doc\":3}}");
    Ok(())
}

#[test]
fn balances_are_printed(rt: HostRuntime) {
    let alloc = rt.alloc();
    let empty = Answer::Balance {
        rows: List::new(alloc),
        scales: List::new(alloc),
    };
    let wanted = "{\"ok\":{\"rows\":[]}}";
    expect(&rt, "no rows", done(alloc, empty), &WHOLE, wanted);
    let wanted = "{\"ok\":{\"rows\":[{\"group\":[\"nail\"],\"sums\":[\"10.000\",\"50.00\"]}]}}";
    expect(&rt, "a row", balance_line(alloc), &WHOLE, wanted);
}

// Asks for the members that are printed of a refusal.
fn expect_refused(rt: &impl Abort, alloc: Global, refusal: Refusal, wanted: &str)
    requires { RefusalHasScales refusal }
{
    expect(rt, wanted, refused(alloc, refusal), &REFUSED, wanted);
}

// Asks for the members that are printed of a fault of posting.
fn expect_fault(
    rt: &impl Abort,
    alloc: Global,
    fault: &PostFault,
    scale: Option<Scale>,
    wanted: &str,
)
    requires { HasMissingScale scale fault.now }
{
    let refusal = Refusal::Rule {
        fault: *fault,
        scale,
    };
    expect_refused(rt, alloc, refusal, wanted);
}

#[test]
fn faults_of_posting_are_printed(rt: HostRuntime) -> Result<(), Fail> {
    let alloc = rt.alloc();
    let wanted = "\"code\":15,\"fault\":5,\"name\":\"Rule\"";
    expect_fault(&rt, alloc, &PostFault::TooManyRecords, None, wanted);
    let overflow = PostFault::Overflow { rule: 3, line: 1 };
    let wanted = "\"code\":15,\"fault\":3,\"line\":1,\"name\":\"Rule\",\"rule\":3";
    expect_fault(&rt, alloc, &overflow, None, wanted);
    let entry = PostFault::Entry {
        rule: 4,
        line: 1,
        fault: EntryFault::ExtraCount,
    };
    let wanted = "\"code\":15,\"entry\":3,\"fault\":4,\"line\":1,\"name\":\"Rule\",\"rule\":4";
    expect_fault(&rt, alloc, &entry, None, wanted);
    let negative = PostFault::Negative { rule: 1, line: 1 };
    let wanted = "\"code\":15,\"fault\":6,\"line\":1,\"name\":\"Rule\",\"rule\":1";
    expect_fault(&rt, alloc, &negative, None, wanted);
    let shortage = PostFault::Shortage {
        rule: 1,
        line: 2,
        missing: 1,
    };
    let wanted = "\"code\":15,\"fault\":2,\"line\":2,\"missing\":\"0.001\",\"name\":\"Rule\",\
        \"rule\":1";
    let scale = Scale::new(3).ok_or("no scale")?;
    expect_fault(&rt, alloc, &shortage, Some(scale), wanted);
    Ok(())
}

#[test]
fn a_broken_rule_tells_its_code(rt: HostRuntime) -> Result<(), Fail> {
    let code = Code::parse("nail").ok_or("no code")?;
    let broken = PostFault::Broken {
        rule: 2,
        line: 0,
        code,
    };
    let wanted =
        "\"code\":15,\"fault\":1,\"line\":0,\"name\":\"Rule\",\"rule\":2,\"text\":\"nail\"";
    expect_fault(&rt, rt.alloc(), &broken, None, wanted);
    Ok(())
}

// What is printed of a control on the quantity of nails of a lot.
fn control_line(alloc: Global, lots: &[Value], balance: i128, decimals: u8) -> Option<String> {
    let mut values = List::new(alloc);
    values.push(Value::Code(Code::parse("nail")?)).ok()?;
    for lot in lots {
        values.push(*lot).ok()?;
    }
    let control = Refusal::Control {
        register: Name::parse("goods")?,
        values,
        balance,
        scale: Scale::new(decimals)?,
    };
    refused(alloc, control)
}

#[test]
fn a_control_tells_what_a_resource_would_come_to(rt: HostRuntime) -> Result<(), Fail> {
    let alloc = rt.alloc();
    let wanted = "\"balance\":\"-1.000\",\"code\":18,\"name\":\"Control\",\
        \"register\":\"goods\",\"values\":[\"nail\"]";
    expect(
        &rt,
        "nails",
        control_line(alloc, &[], -1_000, 3),
        &REFUSED,
        wanted,
    );
    let lot = Point::parse("2024-01-10T09:00:00#1").map_err(|_| "no lot")?;
    let told = control_line(alloc, &[Value::Lot(lot)], -12, 0);
    let wanted = "\"balance\":\"-12\",\"code\":18,\"name\":\"Control\",\
        \"register\":\"goods\",\"values\":[\"nail\",\"2024-01-10T09:00:00#1\"]";
    expect(&rt, "nails of a lot", told, &REFUSED, wanted);
    Ok(())
}

#[test]
fn refusals_are_printed(rt: HostRuntime) {
    let alloc = rt.alloc();
    let wanted = "\"code\":2,\"name\":\"UnknownClerk\"";
    expect_refused(&rt, alloc, Refusal::UnknownClerk, wanted);
    let told = told_of(alloc, &Line::TooLong { bytes: 1_048_577 });
    let wanted = "\"bytes\":1048577,\"code\":1,\"kind\":1,\"name\":\"BadLine\"";
    expect(&rt, "a long line", told, &REFUSED, wanted);
}

// The rights, each with the members that are printed where a clerk lacks it.
const RIGHTS: [(Right, &str); 6] = [
    (
        Right::Write,
        "\"code\":3,\"name\":\"NotAllowed\",\"right\":\"write\"",
    ),
    (
        Right::Post,
        "\"code\":3,\"name\":\"NotAllowed\",\"right\":\"post\"",
    ),
    (
        Right::Manual,
        "\"code\":3,\"name\":\"NotAllowed\",\"right\":\"manual\"",
    ),
    (
        Right::Read,
        "\"code\":3,\"name\":\"NotAllowed\",\"right\":\"read\"",
    ),
    (
        Right::Lock,
        "\"code\":3,\"name\":\"NotAllowed\",\"right\":\"lock\"",
    ),
    (
        Right::Admin,
        "\"code\":3,\"name\":\"NotAllowed\",\"right\":\"admin\"",
    ),
];

#[test]
fn rights_and_numbers_are_told(rt: HostRuntime) {
    let alloc = rt.alloc();
    for (right, wanted) in &RIGHTS {
        expect_refused(&rt, alloc, Refusal::NotAllowed { right: *right }, wanted);
    }
    let wanted = "\"code\":4,\"last\":2,\"name\":\"Stale\"";
    expect_refused(&rt, alloc, Refusal::Stale { last: 2 }, wanted);
    let wanted = "\"code\":5,\"name\":\"NumberReused\"";
    expect_refused(&rt, alloc, Refusal::NumberReused, wanted);
}

// Fields, each with the members that are printed where the configuration does not take it.
const FIELDS: [(Field, &str); 7] = [
    (
        Field::Space,
        "\"code\":11,\"field\":\"space\",\"name\":\"BadField\"",
    ),
    (
        Field::Register,
        "\"code\":11,\"field\":\"register\",\"name\":\"BadField\"",
    ),
    (
        Field::Ledger,
        "\"code\":11,\"field\":\"ledger\",\"name\":\"BadField\"",
    ),
    (
        Field::Values,
        "\"code\":11,\"field\":\"values\",\"name\":\"BadField\"",
    ),
    (
        Field::Sums,
        "\"code\":11,\"field\":\"sums\",\"name\":\"BadField\"",
    ),
    (
        Field::Kind,
        "\"code\":11,\"field\":\"kind\",\"name\":\"BadField\"",
    ),
    (
        Field::Amount,
        "\"code\":11,\"field\":\"amount\",\"name\":\"BadField\"",
    ),
];

// Limits, each with the members that are printed where one more would pass it.
const LIMITS: [(Limit, u64, &str); 5] = [
    (
        Limit::Documents,
        500_000,
        "\"code\":14,\"name\":\"Limit\",\"number\":500000,\"which\":\"documents\"",
    ),
    (
        Limit::Numbers,
        4_294_967_295,
        "\"code\":14,\"name\":\"Limit\",\"number\":4294967295,\"which\":\"numbers\"",
    ),
    (
        Limit::Records,
        2_000_000,
        "\"code\":14,\"name\":\"Limit\",\"number\":2000000,\"which\":\"records\"",
    ),
    (
        Limit::Lines,
        1_000,
        "\"code\":14,\"name\":\"Limit\",\"number\":1000,\"which\":\"lines\"",
    ),
    (
        Limit::Journal,
        1_073_741_824,
        "\"code\":14,\"name\":\"Limit\",\"number\":1073741824,\"which\":\"journal\"",
    ),
];

#[test]
fn fields_and_limits_are_told(rt: HostRuntime) -> Result<(), Fail> {
    let alloc = rt.alloc();
    for (field, wanted) in &FIELDS {
        expect_refused(&rt, alloc, Refusal::BadField { field: *field }, wanted);
    }
    let field = Field::Named(Name::parse("quantity").ok_or("no name")?);
    let wanted = "\"code\":11,\"field\":\"quantity\",\"name\":\"BadField\"";
    expect_refused(&rt, alloc, Refusal::BadField { field }, wanted);
    for (which, number, wanted) in &LIMITS {
        let refusal = Refusal::Limit {
            which: *which,
            number: *number,
        };
        expect_refused(&rt, alloc, refusal, wanted);
    }
    Ok(())
}

// States, each with the members that are printed where the operation does not take it.
const STATES: [(DocState, &str); 3] = [
    (
        DocState::Written,
        "\"code\":10,\"name\":\"WrongState\",\"state\":\"written\"",
    ),
    (
        DocState::Posted,
        "\"code\":10,\"name\":\"WrongState\",\"state\":\"posted\"",
    ),
    (
        DocState::Marked,
        "\"code\":10,\"name\":\"WrongState\",\"state\":\"marked\"",
    ),
];

#[test]
fn what_stands_against_a_document_is_told(rt: HostRuntime) -> Result<(), Fail> {
    let alloc = rt.alloc();
    for (state, wanted) in &STATES {
        expect_refused(&rt, alloc, Refusal::WrongState { state: *state }, wanted);
    }
    let wanted = "\"code\":9,\"name\":\"UnknownDoc\"";
    expect_refused(&rt, alloc, Refusal::UnknownDoc, wanted);
    let wanted = "\"code\":12,\"doc\":7,\"name\":\"KeyTaken\"";
    expect_refused(&rt, alloc, Refusal::KeyTaken { doc: 7 }, wanted);
    let date = Date::parse("2024-02-01").map_err(|_| "no date")?;
    let wanted = "\"code\":13,\"date\":\"2024-02-01T00:00:00\",\"name\":\"Closed\"";
    expect_refused(&rt, alloc, Refusal::Closed { date }, wanted);
    Ok(())
}
