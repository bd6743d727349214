//! What the walk through small files answers, and what the program does with what it read.
use crate::rows::expect;
use crate::test_files::{ACCOUNTS, DOCUMENTS, FILES, REGISTERS, SEQUENCES, SHOP};
use crate::test_shop::{
    CHART, CHART_TOLD, ENTRIES, Entries, Entry, GOODS, WHOLE_SHOP, WHOLE_SHOP_TOLD,
};
use crate::test_told::told;
use cfg_model::{Chart, Config, EntryFault, check_entry};
use reg_base::{Code, List, Name, Side};
use std::alloc::{AllocError, Global};
use std::process::Abort;

// What is told of a file: its fault, or that it is accepted; none where memory is wanted.
fn told_of(alloc: Global, file: &[u8]) -> Option<String> {
    match Config::read(alloc, file) {
        Ok(_) => String::from_str(alloc, "accepted").ok(),
        Err(fault) => fault.text(alloc).ok(),
    }
}

// Asks what is told of a file that is made.
fn expect_made(rt: &impl Abort, alloc: Global, made: Result<String, AllocError>, wanted: &str) {
    match made {
        Ok(file) => expect(rt, file.as_str(), told_of(alloc, file.as_bytes()), wanted),
        Err(_) => panic!(rt; "memory was refused"),
    }
}

// Asks what is told of files with the same front.
fn expect_behind(rt: &impl Abort, alloc: Global, front: &str, rows: &[(&str, &str)]) {
    for (end, wanted) in rows {
        expect_made(rt, alloc, format!(in alloc; "{front}{end}"), wanted);
    }
}

// Asks what is told of files that have three values behind what stands in front of each.
fn expect_with(
    rt: &impl Abort,
    alloc: Global,
    fronts: [&str; 3],
    rows: &[(&str, &str, &str, &str)],
) {
    let [front, middle, end] = fronts;
    for (first, second, third, wanted) in rows {
        let file = format!(in alloc; "{front}{first}{middle}{second}{end}{third}");
        expect_made(rt, alloc, file, wanted);
    }
}

#[test]
fn a_file_is_answered_with_its_first_fault(rt: HostRuntime) {
    expect_behind(&rt, rt.alloc(), "", &FILES);
}

#[test]
fn a_register_is_answered_with_its_first_fault(rt: HostRuntime) {
    let fronts = ["[register.s]\nkind = ", "\ndimensions = ", "\nresources = "];
    expect_with(&rt, rt.alloc(), fronts, &REGISTERS);
}

#[test]
fn accounts_are_answered_with_their_first_fault(rt: HostRuntime) {
    let front = "[ledger.main]\nscale = 2\naccounts = ";
    expect_behind(&rt, rt.alloc(), front, &ACCOUNTS);
}

#[test]
fn a_document_type_is_answered_with_its_first_fault(rt: HostRuntime) {
    let fronts = ["[document.d]\nhead = ", "\nlines = ", "\nrules = "];
    expect_with(&rt, rt.alloc(), fronts, &DOCUMENTS);
}

#[test]
fn a_sequence_is_answered_with_its_first_fault(rt: HostRuntime) {
    let fronts = [SHOP, "\nregisters = ", "\ndimensions = "];
    expect_with(&rt, rt.alloc(), fronts, &SEQUENCES);
}

// Adds an entry of a group, with the key of a clerk, to a file.
fn add_entry(file: &mut String, group: &str, number: u8) -> Result<(), AllocError> {
    let entry = format!(in *file.allocator(); "[{group}.a{number}]\nrights = []\n")?;
    file.push_str(entry.as_str())
}

// A file of so many entries of a group.
fn entries(alloc: Global, group: &str, count: u8) -> Result<String, AllocError> {
    let mut file = String::new(alloc);
    for number in 0..count {
        add_entry(&mut file, group, number)?;
    }
    Ok(file)
}

// Groups, how many entries each has, and what is told.
const COUNTS: [(&str, u8, &str); 10] = [
    ("register", 32, "4 Unknown rights"),
    ("register", 33, "5 Count register 33"),
    ("clerk", 64, "accepted"),
    ("clerk", 65, "5 Count clerk 65"),
    ("ledger", 8, "4 Unknown rights"),
    ("ledger", 9, "5 Count ledger 9"),
    ("document", 64, "4 Unknown rights"),
    ("document", 65, "5 Count document 65"),
    ("sequence", 16, "4 Unknown rights"),
    ("sequence", 17, "5 Count sequence 17"),
];

#[test]
fn one_entry_more_than_the_limit_is_a_count(rt: HostRuntime) {
    for (group, count, wanted) in &COUNTS {
        expect_made(&rt, rt.alloc(), entries(rt.alloc(), group, *count), wanted);
    }
}

// Adds an account to the list of a ledger.
fn add_account(file: &mut String, number: u16) -> Result<(), AllocError> {
    let account = format!(in *file.allocator();
        "{{ code = 'a{number}', name = 'A', kind = 'active' }},\n"
    )?;
    file.push_str(account.as_str())
}

// A ledger of so many accounts.
fn ledger(alloc: Global, count: u16) -> Result<String, AllocError> {
    let mut file = String::from_str(alloc, "[ledger.main]\nscale = 2\naccounts = [")?;
    for number in 0..count {
        add_account(&mut file, number)?;
    }
    file.push(']')?;
    Ok(file)
}

// How many accounts a ledger has, and what is told.
const LEDGERS: [(u16, &str); 2] = [(512, "accepted"), (513, "5 Count ledger.main.accounts 513")];

#[test]
fn one_account_more_than_the_limit_is_a_count(rt: HostRuntime) {
    for (count, wanted) in &LEDGERS {
        expect_made(&rt, rt.alloc(), ledger(rt.alloc(), *count), wanted);
    }
}

// An unknown key that holds lists in lists.
fn nested(alloc: Global, depth: u8) -> Result<String, AllocError> {
    let mut file = String::from_str(alloc, "x = ")?;
    for _ in 0..depth {
        file.push('[')?;
    }
    for _ in 0..depth {
        file.push(']')?;
    }
    Ok(file)
}

// An unknown key of so many parts.
fn dotted(alloc: Global, parts: u8) -> Result<String, AllocError> {
    let mut file = String::from_str(alloc, "x")?;
    for _ in 1..parts {
        file.push_str(".x")?;
    }
    file.push_str(" = 1")?;
    Ok(file)
}

// How deep lists nest, or how many parts a key has, and what is told.
const DEPTHS: [(u8, &str); 2] = [(80, "4 Unknown x"), (81, "1 NotToml")];

#[test]
fn lists_and_keys_nest_eighty_deep(rt: HostRuntime) {
    for (depth, wanted) in &DEPTHS {
        expect_made(&rt, rt.alloc(), nested(rt.alloc(), *depth), wanted);
        expect_made(&rt, rt.alloc(), dotted(rt.alloc(), *depth), wanted);
    }
}

#[test]
fn bytes_that_are_no_text_are_no_toml(rt: HostRuntime) {
    expect(
        &rt,
        "# and a byte",
        told_of(rt.alloc(), &[0x23, 0xff]),
        "1 NotToml",
    );
}

// The places of the register `stock` and of the clerk `anna`.
fn places_in(config: &Config) -> Option<(usize, usize)> {
    let register = config.register_place(&Name::parse("stock")?)?;
    let clerk = config.clerk_place(&Name::parse("anna")?)?;
    Some((register, clerk))
}

fn places(alloc: Global, file: &str) -> Option<(usize, usize)> {
    let config = Config::read(alloc, file.as_bytes()).ok()?;
    places_in(&config)
}

// Registers and clerks, the later name of each first.
const SWAPPED: &str = "[register.stock]\nkind = 'balance'\ndimensions = ['item:code']\n\
    resources = ['quantity:3']\n[register.cash]\nkind = 'balance'\ndimensions = []\n\
    resources = ['amount:2']\n[clerk.boris]\nrights = []\n[clerk.anna]\nrights = ['read']\n";

#[test]
fn registers_and_clerks_stand_in_byte_order_of_names(rt: HostRuntime) {
    assert!(rt; places(rt.alloc(), SWAPPED) == Some((1, 0)));
}

// All that a configuration says; none where it is refused or memory is wanted.
fn config_told(alloc: Global, file: &str) -> Option<String> {
    let config = Config::read(alloc, file.as_bytes()).ok()?;
    told(alloc, &config)
}

#[test]
fn a_whole_configuration_is_read_with_all_that_it_says(rt: HostRuntime) {
    expect(
        &rt,
        "the shop",
        config_told(rt.alloc(), WHOLE_SHOP),
        WHOLE_SHOP_TOLD,
    );
    expect(&rt, "the chart", config_told(rt.alloc(), CHART), CHART_TOLD);
}

// So many extras, which are all the same.
fn extras(alloc: Global, extra: Code, count: u8) -> Result<List<Code>, AllocError> {
    let mut extras = List::new(alloc);
    for _ in 0..count {
        extras.push(extra)?;
    }
    Ok(extras)
}

// The side of an account that gives so many extras, where there is an account.
fn side(alloc: Global, account: &str, count: u8) -> Result<Option<Side>, AllocError> {
    let Some(account) = Code::parse(account) else {
        return Ok(None);
    };
    let extras = extras(alloc, account, count)?;
    Ok(Some(Side { account, extras }))
}

fn answer_word(answer: Result<(), EntryFault>) -> &'static str {
    match answer {
        Ok(()) => "accepted",
        Err(EntryFault::UnknownAccount) => "UnknownAccount",
        Err(EntryFault::GroupAccount) => "GroupAccount",
        Err(EntryFault::ExtraCount) => "ExtraCount",
        Err(EntryFault::Sides) => "Sides",
    }
}

// What a chart answers to an entry.
fn answer_to(alloc: Global, chart: &Chart, entry: &Entry) -> Result<&'static str, AllocError> {
    let debit = side(alloc, entry.0, entry.1)?;
    let credit = side(alloc, entry.2, entry.3)?;
    Ok(answer_word(check_entry(chart, &debit, &credit)))
}

// Whether the one chart answers an entry as the row says.
fn is_answered(alloc: Global, charts: &[Chart], entry: &Entry) -> bool {
    match charts {
        [chart] => match answer_to(alloc, chart, entry) {
            Ok(answer) => answer == entry.4,
            Err(_) => false,
        },
        _ => false,
    }
}

// Asks for the answers of the one chart to entries.
fn expect_answers(rt: &impl Abort, alloc: Global, charts: &[Chart], entries: Entries) {
    for entry in entries {
        assert!(rt; is_answered(alloc, charts, entry), "{entry:?}");
    }
}

// Asks for the answers of the one ledger of a file to entries.
fn expect_entries(rt: &impl Abort, alloc: Global, file: &str, entries: Entries) {
    match Config::read(alloc, file.as_bytes()) {
        Ok(config) => expect_answers(rt, alloc, config.ledgers.as_slice(), entries),
        Err(_) => panic!(rt; "the file is refused"),
    }
}

#[test]
fn an_entry_is_accepted_or_answered_with_its_first_fault(rt: HostRuntime) {
    expect_entries(&rt, rt.alloc(), CHART, &ENTRIES);
}

#[test]
fn an_entry_of_goods_gives_the_item(rt: HostRuntime) {
    expect_entries(&rt, rt.alloc(), WHOLE_SHOP, &GOODS);
}
