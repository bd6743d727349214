//! Lists of documents.
use crate::rows::{expect, front_of};
use reg_base::{Code, Date, DocRow, DocState, Name};
use std::alloc::Global;
use text_reports::document_list;

// Number, date, kind and key, of which an empty one is none, and state of each document.
type Doc<'a> = (u32, &'a str, &'a str, DocState, &'a str);

const DOCUMENTS: [Doc; 3] = [
    (
        1,
        "2024-01-10T09:00:00",
        "receipt",
        DocState::Posted,
        "bill-7",
    ),
    (2, "2024-01-11", "", DocState::Written, ""),
    (
        4_294_967_295,
        "2099-12-31T23:59:59",
        "sale_of_goods_on_account",
        DocState::Marked,
        "a.key-of_32.bytes-in_all.A123456",
    ),
];

const LINES: [&str; 4] = [
    "    number date                kind                     state    key",
    "         1 2024-01-10T09:00:00 receipt                  posted   bill-7",
    "         2 2024-01-11T00:00:00 manual                   written  -",
    "4294967295 2099-12-31T23:59:59 sale_of_goods_on_account marked   a.key-of_32.bytes-in_all.A123456",
];

fn row_of(doc: &Doc) -> Option<DocRow> {
    let (number, date, kind, state, key) = doc;
    Some(DocRow {
        number: *number,
        date: Date::parse(date).ok()?,
        kind: Name::parse(kind),
        key: Code::parse(key),
        state: *state,
    })
}

// The list of the documents; none where memory is wanted.
fn told_of(alloc: Global, docs: &[Doc]) -> Option<Vec<u8>> {
    let mut rows = Vec::new(alloc);
    'docs: for doc in docs {
        rows.push(row_of(doc)?).ok()?;
    }
    let mut out = front_of(alloc)?;
    document_list(alloc, rows.as_slice(), &mut out).ok()?;
    Some(out)
}

#[test]
fn no_documents_are_listed_as_the_header(rt: HostRuntime) {
    let told = told_of(rt.alloc(), &[]);
    expect(&rt, rt.alloc(), "no documents", told, &LINES[..1]);
}

#[test]
fn documents_are_listed_with_keys_and_kinds(rt: HostRuntime) {
    let told = told_of(rt.alloc(), &DOCUMENTS);
    expect(&rt, rt.alloc(), "documents", told, &LINES);
}
