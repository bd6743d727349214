//! Texts, each with how many statements it has or the place of its first fault.
use crate::rows::expect;
use rule_text::{TextFault, parse};
use std::alloc::Global;

const TEXTS: [(&str, &str); 10] = [
    ("", "0 statements"),
    (" \t\r\n", "0 statements"),
    ("control goods quantity;", "1 statements"),
    (
        "control goods quantity; once control goods amount;",
        "2 statements",
    ),
    ("control goods quantity", "syntax at 22"),
    ("control goods;", "syntax at 13"),
    ("receipt goods(quantity = 1);", "syntax at 25"),
    ("turn s(; n = 1.);", "syntax at 14"),
    ("require g(; q) >= 1 code \"\";", "syntax at 26"),
    ("h\u{e9}", "syntax at 0"),
];

// What is told of a text; none where memory is wanted.
fn told(alloc: Global, text: &str) -> Option<String> {
    match parse(alloc, text) {
        Ok(statements) => {
            let count = statements.len();
            format!(in alloc; "{count} statements").ok()
        }
        Err(TextFault::Syntax(place)) => format!(in alloc; "syntax at {place}").ok(),
        Err(TextFault::Memory) => None,
    }
}

#[test]
fn a_text_has_statements_or_the_place_of_its_first_fault(rt: HostRuntime) {
    for (text, wanted) in &TEXTS {
        expect(&rt, text, told(rt.alloc(), text), wanted);
    }
}
