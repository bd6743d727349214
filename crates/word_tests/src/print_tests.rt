//! Requests with their canonical texts.
use crate::rows::{Frame, expect};
use desk_words::Request;
use std::alloc::Global;
use std::process::Abort;

const MARKED: Frame = [">", ""];

// Lines, each with the canonical text of its request.
const TEXTS: &[(&str, &str)] = &[
    (
        "{\"op\":\"manual\",\"no\":1,\"date\":\"2024-01-10T09:00:00\",\"clerk\":\"anna\",\
         \"sets\":[ {\"space\":\"goods\",\"records\":[{\"values\":[\"nail\"],\
         \"sums\":[\"10.000\",\"50.00\"],\"kind\":\"receipt\"}]} ]}",
        "{\"clerk\":\"anna\",\"date\":\"2024-01-10T09:00:00\",\"no\":1,\"op\":\"manual\",\
         \"sets\":[{\"records\":[{\"kind\":\"receipt\",\"sums\":[\"10.000\",\"50.00\"],\
         \"values\":[\"nail\"]}],\"space\":\"goods\"}]}",
    ),
    (
        "{\"op\":\"manual\",\"no\":7,\"date\":\"2024-01-10\",\"clerk\":\"anna\",\
         \"sets\":[{\"space\":\"main\",\"records\":[{\"debit\":[\"10\",\"a\"],\"credit\":null,\
         \"amount\":\"x\\u0041\\n\"}]},{\"space\":\"goods\",\"records\":[]}]}",
        "{\"clerk\":\"anna\",\"date\":\"2024-01-10T00:00:00\",\"no\":7,\"op\":\"manual\",\
         \"sets\":[{\"records\":[{\"amount\":\"xA\\n\",\"credit\":null,\
         \"debit\":[\"10\",\"a\"]}],\"space\":\"main\"},{\"records\":[],\"space\":\"goods\"}]}",
    ),
    (
        "{\"register\":\"goods\",\"op\":\"balance\",\"clerk\":\"anna\"}",
        "{\"clerk\":\"anna\",\"op\":\"balance\",\"register\":\"goods\"}",
    ),
    (
        "{\"register\":\"goods\",\"op\":\"balance\",\"cut\":\"2024-01-11\",\"clerk\":\"anna\"}",
        "{\"clerk\":\"anna\",\"cut\":\"before 2024-01-11T00:00:00\",\
         \"op\":\"balance\",\"register\":\"goods\"}",
    ),
    (
        "{\"register\":\"goods\",\"op\":\"balance\",\"cut\":\"now\",\"clerk\":\"anna\"}",
        "{\"clerk\":\"anna\",\"cut\":\"now\",\"op\":\"balance\",\"register\":\"goods\"}",
    ),
    (
        "{\"register\":\"goods\",\"op\":\"balance\",\
         \"cut\":\"through 2024-01-11T09:00:00#12\",\"clerk\":\"anna\"}",
        "{\"clerk\":\"anna\",\"cut\":\"through 2024-01-11T09:00:00#12\",\
         \"op\":\"balance\",\"register\":\"goods\"}",
    ),
];

// What is printed of a request, behind a mark; none where memory is wanted.
fn printed(alloc: Global, request: &Request) -> Option<String> {
    let mut out = Vec::new(alloc);
    out.extend_from_slice(b">").ok()?;
    request.print(alloc, &mut out).ok()?;
    String::from_utf8(out).ok()
}

// The canonical text of the request that a line is.
fn canonical(alloc: Global, line: &str) -> Option<String> {
    match Request::read_text(alloc, line.as_bytes()) {
        Ok(request) => printed(alloc, &request),
        Err(_) => None,
    }
}

// Asks for the canonical text of each line, and that it is its own.
pub(crate) fn expect_texts(rt: &impl Abort, alloc: Global, rows: &[(&str, &str)]) {
    for (line, text) in rows {
        expect(rt, line, canonical(alloc, line), &MARKED, text);
        expect(rt, text, canonical(alloc, text), &MARKED, text);
    }
}

#[test]
fn a_request_has_its_canonical_text(rt: HostRuntime) {
    expect_texts(&rt, rt.alloc(), TEXTS);
}
