//! Requests for tables: their canonical texts, and the faults of their members.
use crate::print_tests::expect_texts;
use crate::rows::{WHOLE, expect};
use crate::tests::{expect_bad_behind, expect_bad_lines, told_behind};
use std::alloc::Global;
use std::process::Abort;

// Lines, each with the canonical text of its request: tables of registers.
const REGISTERS: [(&str, &str); 8] = [
    (
        "{\"register\":\"goods\",\"op\":\"balance\",\"group\":[\"item\"],\
         \"filter\":{\"warehouse\":[\"main\",\"w \\u0041\"],\"item\":[]},\"cut\":\"now\",\
         \"clerk\":\"anna\"}",
        "{\"clerk\":\"anna\",\"cut\":\"now\",\"filter\":{\"item\":[],\
         \"warehouse\":[\"main\",\"w A\"]},\"group\":[\"item\"],\"op\":\"balance\",\
         \"register\":\"goods\"}",
    ),
    (
        "{\"register\":\"goods\",\"op\":\"balance\",\"group\":[],\"filter\":{},\
         \"clerk\":\"anna\"}",
        "{\"clerk\":\"anna\",\"filter\":{},\"group\":[],\"op\":\"balance\",\
         \"register\":\"goods\"}",
    ),
    (
        "{\"register\":\"goods\",\"op\":\"turnovers\",\"clerk\":\"anna\"}",
        "{\"clerk\":\"anna\",\"op\":\"turnovers\",\"register\":\"goods\"}",
    ),
    (
        "{\"to\":\"2024-02-29\",\"register\":\"goods\",\"op\":\"turnovers\",\
         \"group\":[\"item\",\"item\"],\"from\":\"2024-02-01\",\"filter\":{\"item\":[\"nail\"]},\
         \"clerk\":\"anna\",\"by\":\"recorder\"}",
        "{\"by\":\"recorder\",\"clerk\":\"anna\",\"filter\":{\"item\":[\"nail\"]},\
         \"from\":\"2024-02-01T00:00:00\",\"group\":[\"item\",\"item\"],\"op\":\"turnovers\",\
         \"register\":\"goods\",\"to\":\"2024-02-29T23:59:59\"}",
    ),
    (
        "{\"to\":\"2024-01-31T00:00:00\",\"register\":\"goods\",\"op\":\"turnovers\",\
         \"clerk\":\"anna\"}",
        "{\"clerk\":\"anna\",\"op\":\"turnovers\",\"register\":\"goods\",\
         \"to\":\"2024-01-31T00:00:00\"}",
    ),
    (
        "{\"register\":\"goods\",\"op\":\"both\",\"clerk\":\"anna\"}",
        "{\"clerk\":\"anna\",\"op\":\"both\",\"register\":\"goods\"}",
    ),
    (
        "{\"to\":\"2099-12-31\",\"register\":\"goods\",\"op\":\"both\",\"method\":\"boundaries\",\
         \"group\":[],\"from\":\"2000-01-01\",\"filter\":{},\"clerk\":\"anna\",\
         \"by\":\"ten_days\"}",
        "{\"by\":\"ten_days\",\"clerk\":\"anna\",\"filter\":{},\
         \"from\":\"2000-01-01T00:00:00\",\"group\":[],\"method\":\"boundaries\",\
         \"op\":\"both\",\"register\":\"goods\",\"to\":\"2099-12-31T23:59:59\"}",
    ),
    (
        "{\"register\":\"goods\",\"op\":\"both\",\"method\":\"movements\",\"clerk\":\"anna\"}",
        "{\"clerk\":\"anna\",\"method\":\"movements\",\"op\":\"both\",\"register\":\"goods\"}",
    ),
];

// The same of tables of accounts and of documents.
const ACCOUNTS: [(&str, &str); 9] = [
    (
        "{\"op\":\"account_balance\",\"ledger\":\"main\",\"clerk\":\"anna\"}",
        "{\"clerk\":\"anna\",\"ledger\":\"main\",\"op\":\"account_balance\"}",
    ),
    (
        "{\"op\":\"account_balance\",\"ledger\":\"main\",\"extras\":true,\
         \"cut\":\"through 2024-01-31\",\"clerk\":\"anna\",\"account\":\"10.1\"}",
        "{\"account\":\"10.1\",\"clerk\":\"anna\",\"cut\":\"through 2024-01-31T00:00:00\",\
         \"extras\":true,\"ledger\":\"main\",\"op\":\"account_balance\"}",
    ),
    (
        "{\"to\":\"2024-06-30\",\"op\":\"account_turnovers\",\"ledger\":\"main\",\
         \"from\":\"2024-01-01\",\"extras\":false,\"clerk\":\"anna\",\"by\":\"half_year\",\
         \"account\":\"10\"}",
        "{\"account\":\"10\",\"by\":\"half_year\",\"clerk\":\"anna\",\"extras\":false,\
         \"from\":\"2024-01-01T00:00:00\",\"ledger\":\"main\",\"op\":\"account_turnovers\",\
         \"to\":\"2024-06-30T23:59:59\"}",
    ),
    (
        "{\"op\":\"account_turnovers\",\"ledger\":\"main\",\"clerk\":\"anna\"}",
        "{\"clerk\":\"anna\",\"ledger\":\"main\",\"op\":\"account_turnovers\"}",
    ),
    (
        "{\"to\":\"2024-06-30\",\"op\":\"account_both\",\"ledger\":\"main\",\
         \"clerk\":\"anna\",\"by\":\"period\"}",
        "{\"by\":\"period\",\"clerk\":\"anna\",\"ledger\":\"main\",\"op\":\"account_both\",\
         \"to\":\"2024-06-30T23:59:59\"}",
    ),
    (
        "{\"op\":\"dr_cr\",\"ledger\":\"main\",\"clerk\":\"anna\"}",
        "{\"clerk\":\"anna\",\"ledger\":\"main\",\"op\":\"dr_cr\"}",
    ),
    (
        "{\"to\":\"2024-01-31\",\"op\":\"dr_cr\",\"ledger\":\"main\",\"from\":\"2024-01-31\",\
         \"clerk\":\"anna\",\"account\":\"60\"}",
        "{\"account\":\"60\",\"clerk\":\"anna\",\"from\":\"2024-01-31T00:00:00\",\
         \"ledger\":\"main\",\"op\":\"dr_cr\",\"to\":\"2024-01-31T23:59:59\"}",
    ),
    (
        "{\"op\":\"documents\",\"clerk\":\"anna\"}",
        "{\"clerk\":\"anna\",\"op\":\"documents\"}",
    ),
    (
        "{\"to\":\"2024-01-31\",\"op\":\"documents\",\"from\":\"2024-01-01T12:00:00\",\
         \"clerk\":\"anna\"}",
        "{\"clerk\":\"anna\",\"from\":\"2024-01-01T12:00:00\",\"op\":\"documents\",\
         \"to\":\"2024-01-31T23:59:59\"}",
    ),
];

#[test]
fn a_request_for_a_table_of_a_register_has_its_canonical_text(rt: HostRuntime) {
    expect_texts(&rt, rt.alloc(), &REGISTERS);
}

#[test]
fn a_request_for_a_table_of_accounts_has_its_canonical_text(rt: HostRuntime) {
    expect_texts(&rt, rt.alloc(), &ACCOUNTS);
}

// Lines, each with what is told of it: they lack a member, or have one too much.
const LINES: [(&str, &str); 17] = [
    (
        "{\"op\":\"turnovers\",\"register\":7}",
        "5,\"member\":\"clerk\"",
    ),
    (
        "{\"op\":\"turnovers\",\"clerk\":7,\"by\":7}",
        "5,\"member\":\"register\"",
    ),
    (
        "{\"op\":\"both\",\"clerk\":7,\"ledger\":7}",
        "5,\"member\":\"register\"",
    ),
    (
        "{\"op\":\"account_balance\",\"clerk\":7,\"register\":7}",
        "5,\"member\":\"ledger\"",
    ),
    (
        "{\"op\":\"account_turnovers\",\"clerk\":7}",
        "5,\"member\":\"ledger\"",
    ),
    (
        "{\"op\":\"account_both\",\"clerk\":7}",
        "5,\"member\":\"ledger\"",
    ),
    ("{\"op\":\"dr_cr\",\"clerk\":7}", "5,\"member\":\"ledger\""),
    ("{\"op\":\"documents\",\"x\":1}", "5,\"member\":\"clerk\""),
    (
        "{\"op\":\"turnovers\",\"clerk\":7,\"register\":7,\"method\":7,\"tx\":1}",
        "6,\"member\":\"method\"",
    ),
    (
        "{\"op\":\"turnovers\",\"clerk\":7,\"register\":7,\"cut\":7}",
        "6,\"member\":\"cut\"",
    ),
    (
        "{\"op\":\"both\",\"clerk\":7,\"register\":7,\"tx\":1}",
        "6,\"member\":\"tx\"",
    ),
    (
        "{\"op\":\"account_balance\",\"clerk\":7,\"ledger\":7,\"from\":7}",
        "6,\"member\":\"from\"",
    ),
    (
        "{\"op\":\"account_turnovers\",\"clerk\":7,\"ledger\":7,\"group\":7}",
        "6,\"member\":\"group\"",
    ),
    (
        "{\"op\":\"account_both\",\"clerk\":7,\"ledger\":7,\"cut\":7}",
        "6,\"member\":\"cut\"",
    ),
    (
        "{\"op\":\"dr_cr\",\"clerk\":7,\"ledger\":7,\"extras\":7}",
        "6,\"member\":\"extras\"",
    ),
    (
        "{\"op\":\"documents\",\"clerk\":7,\"by\":7}",
        "6,\"member\":\"by\"",
    ),
    (
        "{\"op\":\"documents\",\"clerk\":7,\"no\":1}",
        "6,\"member\":\"no\"",
    ),
];

#[test]
fn a_line_that_asks_for_a_table_is_refused_by_its_first_fault(rt: HostRuntime) {
    expect_bad_lines(&rt, rt.alloc(), &LINES);
}

// Filters and groups, each with what is told of it.
const CHOICES: [(&str, &str); 16] = [
    (
        "\"clerk\":\"A\",\"register\":\"G\"",
        "7,\"member\":\"clerk\"",
    ),
    (
        "\"register\":\"Goods\",\"filter\":7",
        "7,\"member\":\"register\"",
    ),
    ("\"filter\":null", "7,\"member\":\"filter\""),
    ("\"filter\":[]", "7,\"member\":\"filter\""),
    ("\"filter\":{\"Item\":[]}", "7,\"member\":\"filter\""),
    ("\"filter\":{\"\":[]}", "7,\"member\":\"filter\""),
    ("\"filter\":{\"item\":\"nail\"}", "7,\"member\":\"filter\""),
    ("\"filter\":{\"item\":null}", "7,\"member\":\"filter\""),
    (
        "\"filter\":{\"item\":[\"nail\",7]},\"group\":7",
        "7,\"member\":\"filter\"",
    ),
    ("\"group\":null", "7,\"member\":\"group\""),
    ("\"group\":{}", "7,\"member\":\"group\""),
    ("\"group\":\"item\"", "7,\"member\":\"group\""),
    ("\"group\":[\"Item\"]", "7,\"member\":\"group\""),
    ("\"group\":[\"item\",7]", "7,\"member\":\"group\""),
    ("\"group\":[\"\"]", "7,\"member\":\"group\""),
    (
        "\"group\":[[\"item\"]],\"filter\":{}",
        "7,\"member\":\"group\"",
    ),
];

#[test]
fn filters_and_groups_have_their_shape(rt: HostRuntime) {
    let alloc = rt.alloc();
    let balance = "{\"op\":\"balance\",\"clerk\":\"anna\",\"register\":\"goods\",";
    expect_bad_behind(&rt, alloc, balance, &CHOICES);
    let turnovers = "{\"op\":\"turnovers\",\"clerk\":\"anna\",\"register\":\"goods\",";
    expect_bad_behind(&rt, alloc, turnovers, &CHOICES);
    let both = "{\"op\":\"both\",\"clerk\":\"anna\",\"register\":\"goods\",";
    expect_bad_behind(&rt, alloc, both, &CHOICES);
}

// Dates and units, each with what is told of it.
const RANGES: [(&str, &str); 16] = [
    ("\"from\":null", "7,\"member\":\"from\""),
    ("\"from\":7,\"to\":7", "7,\"member\":\"from\""),
    ("\"from\":\"2024-02-30\"", "7,\"member\":\"from\""),
    ("\"from\":\"1999-12-31\"", "7,\"member\":\"from\""),
    ("\"from\":\"now\"", "7,\"member\":\"from\""),
    ("\"to\":null,\"by\":7", "7,\"member\":\"to\""),
    ("\"to\":\"2100-01-01\"", "7,\"member\":\"to\""),
    ("\"to\":\"2024-01-31T24:00:00\"", "7,\"member\":\"to\""),
    ("\"to\":\"2024-1-31\"", "7,\"member\":\"to\""),
    ("\"to\":\"\"", "7,\"member\":\"to\""),
    ("\"by\":null", "7,\"member\":\"by\""),
    ("\"by\":\"hour\"", "7,\"member\":\"by\""),
    ("\"by\":\"Month\"", "7,\"member\":\"by\""),
    ("\"by\":\"ten days\"", "7,\"member\":\"by\""),
    ("\"by\":\"\"", "7,\"member\":\"by\""),
    ("\"by\":[\"day\"]", "7,\"member\":\"by\""),
];

#[test]
fn dates_and_units_have_their_shape(rt: HostRuntime) {
    let alloc = rt.alloc();
    let turnovers = "{\"op\":\"turnovers\",\"clerk\":\"anna\",\"register\":\"goods\",";
    expect_bad_behind(&rt, alloc, turnovers, &RANGES);
    let accounts = "{\"op\":\"account_both\",\"clerk\":\"anna\",\"ledger\":\"main\",";
    expect_bad_behind(&rt, alloc, accounts, &RANGES);
}

// Units that each table has.
const UNITS: [&str; 8] = [
    "\"by\":\"period\"",
    "\"by\":\"day\"",
    "\"by\":\"week\"",
    "\"by\":\"ten_days\"",
    "\"by\":\"month\"",
    "\"by\":\"quarter\"",
    "\"by\":\"half_year\"",
    "\"by\":\"year\"",
];

// Units that tables of registers alone have.
const DOCUMENTS: [&str; 2] = ["\"by\":\"record\"", "\"by\":\"recorder\""];

// Asks that each line with one front is read.
fn expect_read(rt: &impl Abort, alloc: Global, front: &str, rows: &[&str]) {
    for rest in rows {
        let told = told_behind(alloc, front, rest);
        expect(rt, rest, told, &WHOLE, "a request");
    }
}

#[test]
fn tables_of_accounts_tell_no_documents_apart(rt: HostRuntime) {
    let alloc = rt.alloc();
    let both = "{\"op\":\"both\",\"clerk\":\"anna\",\"register\":\"goods\",";
    expect_read(&rt, alloc, both, &UNITS);
    expect_read(&rt, alloc, both, &DOCUMENTS);
    let turnovers = "{\"op\":\"account_turnovers\",\"clerk\":\"anna\",\"ledger\":\"main\",";
    expect_read(&rt, alloc, turnovers, &UNITS);
    let bad = [
        (DOCUMENTS[0], "7,\"member\":\"by\""),
        (DOCUMENTS[1], "7,\"member\":\"by\""),
    ];
    expect_bad_behind(&rt, alloc, turnovers, &bad);
    let both = "{\"op\":\"account_both\",\"clerk\":\"anna\",\"ledger\":\"main\",";
    expect_bad_behind(&rt, alloc, both, &bad);
}

// What tables of accounts are asked by, each with what is told of it.
const LEDGERS: [(&str, &str); 11] = [
    (
        "\"ledger\":\"Main\",\"account\":7",
        "7,\"member\":\"ledger\"",
    ),
    ("\"account\":null", "7,\"member\":\"account\""),
    ("\"account\":7,\"extras\":7", "7,\"member\":\"account\""),
    ("\"account\":\"\"", "7,\"member\":\"account\""),
    ("\"account\":\"1 0\"", "7,\"member\":\"account\""),
    ("\"account\":[\"10\"]", "7,\"member\":\"account\""),
    ("\"extras\":null", "7,\"member\":\"extras\""),
    ("\"extras\":1,\"cut\":7", "7,\"member\":\"extras\""),
    ("\"extras\":\"true\"", "7,\"member\":\"extras\""),
    ("\"cut\":null", "7,\"member\":\"cut\""),
    ("\"cut\":\"through\"", "7,\"member\":\"cut\""),
];

// Methods, each with what is told of it.
const METHODS: [(&str, &str); 4] = [
    ("\"method\":null", "7,\"member\":\"method\""),
    ("\"method\":\"Movements\"", "7,\"member\":\"method\""),
    ("\"method\":\"\"", "7,\"member\":\"method\""),
    ("\"method\":7,\"by\":7", "7,\"member\":\"by\""),
];

#[test]
fn accounts_and_methods_have_their_shape(rt: HostRuntime) {
    let alloc = rt.alloc();
    let accounts = "{\"op\":\"account_balance\",\"clerk\":\"anna\",\"ledger\":\"main\",";
    expect_bad_behind(&rt, alloc, accounts, &LEDGERS);
    let both = "{\"op\":\"both\",\"clerk\":\"anna\",\"register\":\"goods\",";
    expect_bad_behind(&rt, alloc, both, &METHODS);
}
