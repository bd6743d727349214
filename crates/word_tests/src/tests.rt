//! Lines with the faults that a reader of the rules expects, and what requests keep of them.
ghost use Rattle.desk_words.specs.ReplyTexts.{HasScales, RefusalHasScales};

use crate::rows::{BAD_LINE, WHOLE, expect};
use desk_words::{Manual, RecordText, Refusal, Reply, Request, SetText};
use reg_base::{Cut, Line, List, Mark, Text};
use std::alloc::{AllocError, Global};
use std::process::Abort;
use std::test::Fail;

// What is printed of a reply; none where memory is wanted.
pub(crate) fn line_of(alloc: Global, reply: &Reply) -> Option<String>
    requires { HasScales reply.now }
{
    let mut out = Vec::new(alloc);
    reply.print(alloc, &mut out).ok()?;
    String::from_utf8(out).ok()
}

pub(crate) fn refused(alloc: Global, refusal: Refusal) -> Option<String>
    requires { RefusalHasScales refusal }
{
    line_of(alloc, &Reply::Refused(refusal))
}

// What a user is told of a line: the reply to its fault, or that it is a request.
pub(crate) fn told_of(alloc: Global, line: &Line) -> Option<String> {
    match Request::read(alloc, line) {
        Ok(_) => String::from_str(alloc, "a request").ok(),
        Err(fault) => refused(alloc, Refusal::BadLine(fault)),
    }
}

// What a user is told of the bytes of a line.
pub(crate) fn told(alloc: Global, bytes: &[u8]) -> Option<String> {
    let bytes = List::from_slice(alloc, bytes).ok()?;
    told_of(alloc, &Line::Text { bytes })
}

// Asks for the refusal of each line, from what stands between its number and its name.
pub(crate) fn expect_bad_lines(rt: &impl Abort, alloc: Global, rows: &[(&str, &str)]) {
    for (line, kind) in rows {
        expect(rt, line, told(alloc, line.as_bytes()), &BAD_LINE, kind);
    }
}

// What is told of a line that stands behind a front, and in front of a brace.
pub(crate) fn told_behind(alloc: Global, front: &str, rest: &str) -> Option<String> {
    let line = format!(in alloc; "{front}{rest}}}").ok()?;
    told(alloc, line.as_bytes())
}

// Asks for the same of lines with one front.
pub(crate) fn expect_bad_behind(
    rt: &impl Abort,
    alloc: Global,
    front: &str,
    rows: &[(&str, &str)],
) {
    for (rest, kind) in rows {
        expect(rt, rest, told_behind(alloc, front, rest), &BAD_LINE, kind);
    }
}

// Lines, each with what is told of it.
const LINES: [(&str, &str); 17] = [
    ("", "2"),
    ("\r", "2"),
    ("{\"op\":\"balance\"", "2"),
    ("{\"op\":\"balance\",\"no\":1e999}", "2"),
    ("[]", "3"),
    ("\"manual\"", "3"),
    ("{\"op\":7}", "4"),
    ("{\"op\":null}", "4"),
    ("{\"op\":\"Manual\"}", "4"),
    ("{\"clerk\":\"anna\",\"no\":1,\"op\":\"begin\"}", "4"),
    (
        "{\"op\":\"balance\",\"op\":7,\"clerk\":\"anna\",\"register\":\"goods\"}",
        "4",
    ),
    ("{}", "5,\"member\":\"op\""),
    ("{\"x\":1,\"clerk\":7}", "5,\"member\":\"op\""),
    ("{\"op\":\"manual\",\"x\":1}", "5,\"member\":\"clerk\""),
    (
        "{\"op\":\"manual\",\"sets\":7,\"clerk\":7}",
        "5,\"member\":\"no\"",
    ),
    (
        "{\"op\":\"manual\",\"no\":7,\"clerk\":7}",
        "5,\"member\":\"date\"",
    ),
    (
        "{\"op\":\"balance\",\"clerk\":\"anna\",\"no\":1}",
        "5,\"member\":\"register\"",
    ),
];

#[test]
fn a_line_is_refused_by_its_first_fault(rt: HostRuntime) {
    expect_bad_lines(&rt, rt.alloc(), &LINES);
    expect(&rt, "no text", told(rt.alloc(), b"\xff"), &BAD_LINE, "2");
}

// Arrays in arrays.
fn nested(alloc: Global) -> Result<Vec<u8>, AllocError> {
    let mut deep = vec![in alloc; b'['; 200]?;
    deep.extend_from_slice(&[b']'; 200])?;
    Ok(deep)
}

#[test]
fn nesting_ends_at_a_depth(rt: HostRuntime) -> Result<(), Fail> {
    let deep = nested(rt.alloc())?;
    expect(
        &rt,
        "200 deep",
        told(rt.alloc(), deep.as_slice()),
        &BAD_LINE,
        "2",
    );
    Ok(())
}

// Members of a balance, each with what is told of it.
const BALANCES: [(&str, &str); 12] = [
    (
        "\"register\":\"goods\",\"b\":1,\"a\":1",
        "6,\"member\":\"a\"",
    ),
    (
        "\"a\":1,\"register\":\"goods\",\"b\":1",
        "6,\"member\":\"a\"",
    ),
    ("\"register\":\"goods\",\"tx\":1", "6,\"member\":\"tx\""),
    ("\"register\":\"goods\",\"no\":1", "6,\"member\":\"no\""),
    ("\"register\":7,\"zz\":1", "6,\"member\":\"zz\""),
    ("\"register\":\"Goods\"", "7,\"member\":\"register\""),
    (
        "\"register\":\"Goods\",\"cut\":7",
        "7,\"member\":\"register\"",
    ),
    (
        "\"cut\":7,\"register\":\"Goods\"",
        "7,\"member\":\"register\"",
    ),
    (
        "\"register\":\"goods\",\"cut\":null",
        "7,\"member\":\"cut\"",
    ),
    (
        "\"register\":\"goods\",\"cut\":\"2024-01-10T00:00:00#1\"",
        "7,\"member\":\"cut\"",
    ),
    (
        "\"register\":\"goods\",\"cut\":\"before  2024-01-10\"",
        "7,\"member\":\"cut\"",
    ),
    (
        "\"register\":\"goods\",\"cut\":\"through 1999-12-31\"",
        "7,\"member\":\"cut\"",
    ),
];

#[test]
fn a_member_of_a_balance_is_refused_by_name(rt: HostRuntime) {
    let front = "{\"op\":\"balance\",\"clerk\":\"anna\",";
    expect_bad_behind(&rt, rt.alloc(), front, &BALANCES);
}

// Members of a manual document, each with what is told of it.
const MANUALS: [(&str, &str); 10] = [
    (
        "\"clerk\":\"a\",\"no\":0,\"date\":\"x\",\"sets\":[]",
        "7,\"member\":\"no\"",
    ),
    (
        "\"clerk\":\"a\",\"no\":4294967296,\"date\":\"2024-01-10\",\"sets\":[]",
        "7,\"member\":\"no\"",
    ),
    (
        "\"clerk\":\"a\",\"no\":1.0,\"date\":\"2024-01-10\",\"sets\":[]",
        "7,\"member\":\"no\"",
    ),
    (
        "\"clerk\":\"a\",\"no\":-0,\"date\":\"2024-01-10\",\"sets\":[]",
        "7,\"member\":\"no\"",
    ),
    (
        "\"clerk\":\"a\",\"no\":\"1\",\"date\":\"2024-01-10\",\"sets\":[]",
        "7,\"member\":\"no\"",
    ),
    (
        "\"sets\":7,\"date\":7,\"no\":0,\"clerk\":\"\"",
        "7,\"member\":\"clerk\"",
    ),
    (
        "\"clerk\":\"\",\"no\":0,\"date\":7,\"sets\":7",
        "7,\"member\":\"clerk\"",
    ),
    (
        "\"clerk\":\"a\",\"no\":1,\"date\":\"2024-02-30\",\"sets\":[]",
        "7,\"member\":\"date\"",
    ),
    (
        "\"clerk\":\"a\",\"no\":1,\"date\":\"2100-01-01\",\"sets\":7",
        "7,\"member\":\"date\"",
    ),
    (
        "\"clerk\":\"a\",\"no\":1,\"date\":\"2024-01-10\",\"sets\":{}",
        "7,\"member\":\"sets\"",
    ),
];

#[test]
fn a_member_of_a_manual_document_is_refused_by_name(rt: HostRuntime) {
    expect_bad_behind(&rt, rt.alloc(), "{\"op\":\"manual\",", &MANUALS);
}

// What is told of a manual document with these sets.
fn told_of_sets(alloc: Global, sets: &str) -> Option<String> {
    let line = format!(in alloc;
        "{{\"op\":\"manual\",\"clerk\":\"anna\",\"no\":4294967295,\
         \"date\":\"2024-01-10\",\"sets\":[{sets}]}}"
    )
    .ok()?;
    told(alloc, line.as_bytes())
}

// Sets that are refused.
const WRONG_SETS: [&str; 13] = [
    "7",
    "{\"space\":\"goods\"}",
    "{\"space\":\"Goods\",\"records\":[]}",
    "{\"space\":\"goods\",\"records\":[],\"x\":1}",
    "{\"space\":\"goods\",\"records\":[7]}",
    "{\"space\":\"goods\",\"records\":[{\"kind\":\"sale\",\"sums\":[],\"values\":[]}]}",
    "{\"space\":\"goods\",\"records\":[{\"kind\":\"turn\",\"sums\":[1],\"values\":[]}]}",
    "{\"space\":\"goods\",\"records\":[{\"kind\":\"turn\",\"sums\":[]}]}",
    "{\"space\":\"goods\",\"records\":[{\"kind\":\"turn\",\"sums\":[],\"values\":[],\"x\":1}]}",
    "{\"space\":\"main\",\"records\":[{\"amount\":\"1\",\"debit\":null}]}",
    "{\"space\":\"main\",\"records\":[{\"amount\":\"1\",\"debit\":[],\"credit\":null}]}",
    "{\"space\":\"main\",\"records\":[{\"amount\":\"1\",\"debit\":[\"a b\"],\"credit\":null}]}",
    "{\"space\":\"main\",\"records\":[{\"amount\":1,\"debit\":null,\"credit\":null}]}",
];

// Sets that are read.
const SETS: [&str; 4] = [
    "",
    "{\"space\":\"goods\",\"records\":[]}",
    "{\"records\":[{\"values\":[\"x y\"],\"sums\":[\"x\"],\"kind\":\"turn\"}],\
     \"space\":\"goods\"}",
    "{\"space\":\"main\",\
     \"records\":[{\"amount\":\"x\",\"debit\":[\"10\",\"a\"],\"credit\":null}]}",
];

#[test]
fn sets_have_exactly_their_shape(rt: HostRuntime) {
    let kind = "7,\"member\":\"sets\"";
    for sets in &WRONG_SETS {
        expect(&rt, sets, told_of_sets(rt.alloc(), sets), &BAD_LINE, kind);
    }
    for sets in &SETS {
        expect(
            &rt,
            sets,
            told_of_sets(rt.alloc(), sets),
            &WHOLE,
            "a request",
        );
    }
}

// A manual document of one record.
const MANUAL: &[u8] = b"{\"clerk\":\"anna\",\"date\":\"2024-01-10T09:00:00\",\"no\":1,\
    \"op\":\"manual\",\"sets\":[{\"records\":[{\"kind\":\"receipt\",\
    \"sums\":[\"10.000\",\"50.00\"],\"values\":[\"nail\"]}],\"space\":\"goods\"}]}";

fn is_at(texts: &List<Text>, index: usize, wanted: &str) -> bool {
    match texts.get(index) {
        Some(text) => text.as_str() == wanted,
        None => false,
    }
}

// Whether the set is that of the document.
fn is_set(set: &SetText) -> bool {
    match set.records.get(0) {
        Some(RecordText::Register(given)) => {
            set.space.as_str() == "goods"
                && given.mark == Mark::Receipt
                && is_at(&given.sums, 1, "50.00")
                && is_at(&given.values, 0, "nail")
        }
        _ => false,
    }
}

// Whether the document says what its line says.
fn is_kept(manual: &Manual) -> bool {
    match manual.sets.get(0) {
        Some(set) => {
            manual.clerk.as_str() == "anna"
                && manual.no == 1
                && manual.date.seconds() == 758_192_400
                && manual.sets.len() == 1
                && is_set(set)
        }
        None => false,
    }
}

fn keeps(alloc: Global, line: &[u8]) -> bool {
    match Request::read_text(alloc, line) {
        Ok(Request::Manual(manual)) => is_kept(&manual),
        _ => false,
    }
}

#[test]
fn a_request_keeps_what_its_line_says(rt: HostRuntime) {
    assert!(rt; keeps(rt.alloc(), MANUAL));
}

// Whether a line is a balance with this cut.
fn has_cut(alloc: Global, line: &[u8], wanted: &Option<Cut>) -> bool {
    match Request::read_text(alloc, line) {
        Ok(Request::Balance(balance)) => balance.cut == *wanted,
        _ => false,
    }
}

#[test]
fn a_cut_is_kept_and_may_be_absent(rt: HostRuntime) {
    let line = b"{\"clerk\":\"anna\",\"op\":\"balance\",\"register\":\"goods\"}";
    assert!(rt; has_cut(rt.alloc(), line, &None));
    let line = b"{\"clerk\":\"anna\",\"op\":\"balance\",\"register\":\"goods\",\"cut\":\"now\"}";
    assert!(rt; has_cut(rt.alloc(), line, &Some(Cut::Now)));
}
