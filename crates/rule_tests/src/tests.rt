//! Short texts of rules are read, and their first fault is told.
use crate::meaning_rows::{BINDS, CONDITIONS, NAMES, REGISTERS, SCOPES, SEQUENCES, TYPES};
use crate::printed_rows::{PRINTED, SALE};
use crate::rows::{Rows, expect};
use crate::syntax_rows::{ACTS, SUMS, WORDS};
use cfg_model::Config;
use rule_lang::Rules;
use std::alloc::Global;
use std::process::Abort;

// Registers and a ledger, and in front of its name a document type.
const FRONT: &str = "\
[register.goods]
kind = 'balance'
dimensions = ['item:code']
resources = ['quantity:3', 'amount:2']

[register.sales]
kind = 'turnover'
dimensions = ['item:code']
resources = ['quantity:3', 'amount:2']

[register.stock]
kind = 'balance'
dimensions = ['warehouse:code', 'item:code', 'lot:lot']
resources = ['quantity:3', 'amount:2']

[ledger.main]
scale = 2
accounts = []

[document.";

// The fields of the document type, in front of its rules.
const FIELDS: &str = "]
head = ['warehouse:code', 'limit:3', 'other:code']
lines = ['item:code', 'quantity:3', 'amount:2']
rules = '''
";

// A sequence of `sale`, which `stock` affects.
const SEQUENCE: &str = "
[sequence.batches]
documents = ['sale']
registers = ['stock']
dimensions = ['warehouse']
";

// A configuration of one document type, which stands in the sequence where it is `sale`.
fn config(alloc: Global, kind: &str, rules: &str) -> Option<Config> {
    let sequence = if kind == "sale" { SEQUENCE } else { "" };
    let file = format!(in alloc; "{FRONT}{kind}{FIELDS}{rules}'''{sequence}").ok()?;
    Config::read(alloc, file.as_bytes()).ok()
}

// What is told of the rules of a configuration; none where memory is wanted.
fn told_of(alloc: Global, config: &Config) -> Option<String> {
    let Err(fault) = Rules::read(alloc, config) else {
        return String::from_str(alloc, "accepted").ok();
    };
    fault.text(alloc).ok()
}

// What is told of a text.
fn told(alloc: Global, kind: &str, rules: &str) -> Option<String> {
    let config = config(alloc, kind, rules)?;
    told_of(alloc, &config)
}

// Asks what is told of each text.
fn expect_told(rt: &impl Abort, alloc: Global, kind: &str, rows: Rows) {
    for (rules, wanted) in rows {
        expect(rt, rules, told(alloc, kind, rules), wanted);
    }
}

// Asks what is told of a text that is made; none where memory is wanted.
pub(crate) fn expect_made(rt: &impl Abort, alloc: Global, made: Option<String>, wanted: &str) {
    match made {
        Some(rules) => expect(rt, wanted, told(alloc, "fill", rules.as_str()), wanted),
        None => panic!(rt; "memory was refused"),
    }
}

#[test]
fn a_word_that_cannot_follow_is_told_by_its_place(rt: HostRuntime) {
    expect_told(&rt, rt.alloc(), "fill", &WORDS);
}

#[test]
fn a_sum_that_breaks_off_is_told_by_its_place(rt: HostRuntime) {
    expect_told(&rt, rt.alloc(), "fill", &SUMS);
}

#[test]
fn an_act_that_breaks_off_is_told_by_its_place(rt: HostRuntime) {
    expect_told(&rt, rt.alloc(), "fill", &ACTS);
}

#[test]
fn an_unknown_name_is_told_before_all_else(rt: HostRuntime) {
    expect_told(&rt, rt.alloc(), "fill", &NAMES);
}

#[test]
fn a_dimension_has_one_value(rt: HostRuntime) {
    expect_told(&rt, rt.alloc(), "fill", &BINDS);
}

#[test]
fn a_number_has_the_scale_of_its_place(rt: HostRuntime) {
    expect_told(&rt, rt.alloc(), "fill", &TYPES);
}

#[test]
fn a_condition_compares_what_is_alike(rt: HostRuntime) {
    expect_told(&rt, rt.alloc(), "fill", &CONDITIONS);
}

#[test]
fn lines_and_costs_stand_in_their_scope(rt: HostRuntime) {
    expect_told(&rt, rt.alloc(), "fill", &SCOPES);
}

#[test]
fn a_verb_suits_its_register(rt: HostRuntime) {
    expect_told(&rt, rt.alloc(), "fill", &REGISTERS);
}

#[test]
fn a_sequence_binds_its_dimensions_to_the_head(rt: HostRuntime) {
    expect_told(&rt, rt.alloc(), "sale", &SEQUENCES);
}

// So many controls, and then what is given.
fn controls(alloc: Global, count: u8, last: &str) -> Option<String> {
    let mut text = String::new(alloc);
    for _ in 0..count {
        text.push_str("control goods quantity;").ok()?;
    }
    text.push_str(last).ok()?;
    Some(text)
}

// A right statement of each verb, which is one too many behind sixty-four.
const LAST: [&str; 8] = [
    "receipt goods(item = \"i\"; quantity = 1);",
    "expense goods(item = \"i\"; quantity = 1);",
    "turn sales(item = \"i\"; quantity = 1);",
    "fifo stock(warehouse = \"w\", item = \"i\"; quantity = 1, amount);",
    "average goods(item = \"i\"; quantity = 1, amount);",
    "require goods(; quantity) >= 1 code \"low\";",
    "control goods amount;",
    "entry main(debit none, credit \"60\"(); 1);",
];

#[test]
fn a_statement_of_each_verb_is_one_too_many(rt: HostRuntime) {
    for last in &LAST {
        expect_made(&rt, rt.alloc(), controls(rt.alloc(), 0, last), "accepted");
        expect_made(
            &rt,
            rt.alloc(),
            controls(rt.alloc(), 64, last),
            "fill 1472 8",
        );
    }
}

// How many controls stand in front of what is given, and what is told.
const COUNTED: [(u8, &str, &str); 5] = [
    (64, "", "accepted"),
    (65, "", "fill 1472 8"),
    (64, "control sales quantity;", "fill 1472 7"),
    (66, "control nowhere quantity;", "fill 1472 8"),
    (65, "control", "fill 1502 1"),
];

#[test]
fn the_sixty_fifth_statement_is_one_too_many(rt: HostRuntime) {
    for (count, last, wanted) in &COUNTED {
        expect_made(&rt, rt.alloc(), controls(rt.alloc(), *count, last), wanted);
    }
}

// Whether this is printed of the rules of the document type at a place, behind what stands there.
pub(crate) fn prints(
    alloc: Global,
    config: &Config,
    rules: &Rules,
    kind: u8,
    wanted: &str,
) -> bool {
    let place = usize::from(kind);
    if place >= config.kinds.len() || place >= rules.kinds.len() {
        return false;
    }
    let mut out = Vec::new(alloc);
    out.extend_from_slice(b"front ").is_ok()
        && rules.print(alloc, config, kind, &mut out).is_ok()
        && out.as_slice().strip_prefix(b"front ".as_slice()) == Some(wanted.as_bytes())
}

// Whether the rules of a configuration are accepted and those of its first type printed so.
fn prints_first(alloc: Global, config: &Config, wanted: &str) -> bool {
    match Rules::read(alloc, config) {
        Ok(rules) => prints(alloc, config, &rules, 0, wanted),
        Err(_) => false,
    }
}

// Whether a text of rules is accepted and printed so.
fn is_printed(alloc: Global, kind: &str, rules: &str, wanted: &str) -> bool {
    match config(alloc, kind, rules) {
        Some(config) => prints_first(alloc, &config, wanted),
        None => false,
    }
}

fn expect_printed(rt: &impl Abort, alloc: Global, kind: &str, rules: &str, wanted: &str) {
    assert!(rt; is_printed(alloc, kind, rules, wanted), "{rules}");
}

#[test]
fn rules_are_printed_in_their_canonical_text(rt: HostRuntime) {
    for (rules, wanted) in &PRINTED {
        expect_printed(&rt, rt.alloc(), "fill", rules, wanted);
    }
}

#[test]
fn a_canonical_text_is_printed_as_it_is(rt: HostRuntime) {
    expect_printed(&rt, rt.alloc(), "sale", SALE, SALE);
    for (_, wanted) in &PRINTED {
        expect_printed(&rt, rt.alloc(), "fill", wanted, wanted);
    }
}
