//! What is told of a file: its groups, or the row and the name of its fault.
use crate::fault_rows::{COLUMNS, ROWS, SHAPES};
use crate::group_rows::{GROUPS, WRITERS};
use cfg_model::Config;
use csv_groups::{Group, RowFault, RowWhy, read_groups};
use reg_base::List;
use std::alloc::Global;
use std::process::Abort;

// Two document types: receipts with a head and two fields a line, and sales with one field more.
const SHOP: &str = "[document.receipt]\nhead = [\"warehouse:code\"]\n\
     lines = [\"item:code\", \"quantity:3\"]\nrules = \"\"\n\
     [document.sale]\nhead = [\"customer:code\"]\nlines = [\"item:code\"]\nrules = \"\"\n";

// The column that a fault names, behind a space.
fn column_of(why: &RowWhy) -> (&str, &str) {
    match why {
        RowWhy::UnknownColumn { column } => (" ", column.as_str()),
        RowWhy::MissingColumn { column } => (" ", column.as_str()),
        RowWhy::BadValue { column } => (" ", column.as_str()),
        RowWhy::HeadDiffers { column } => (" ", column.as_str()),
        RowWhy::Shape | RowWhy::Scattered => ("", ""),
    }
}

// The row of a fault, its number and its name, and the column that it names.
fn fault_text(alloc: Global, row: u32, why: &RowWhy) -> Option<String> {
    let number = why.number();
    let name = why.name();
    let (space, column) = column_of(why);
    format!(in alloc; "{row}: {number} {name}{space}{column}").ok()
}

// A line for each group: its key, and the canonical text of its request.
fn group_texts(alloc: Global, groups: &List<Group>) -> Option<String> {
    let mut out = Vec::new(alloc);
    for group in groups.as_slice() {
        out.extend_from_slice(group.key.as_bytes()).ok()?;
        out.extend_from_slice(b" ").ok()?;
        group.request.print(alloc, &mut out).ok()?;
        out.extend_from_slice(b"\n").ok()?;
    }
    String::from_utf8(out).ok()
}

// What is told of a file; none where memory is wanted.
fn told(alloc: Global, file: &[u8]) -> Option<String> {
    let config = Config::read(alloc, SHOP.as_bytes()).ok()?;
    match read_groups(alloc, file, &config) {
        Ok(groups) => group_texts(alloc, &groups),
        Err(RowFault::Refused { row, why }) => fault_text(alloc, row, &why),
        Err(RowFault::Memory) => None,
    }
}

// Asks what is told of files; none is told where memory is wanted.
fn expect_told(rt: &impl Abort, alloc: Global, rows: &[(&[u8], &str)]) {
    for (index, (file, wanted)) in rows.iter().enumerate() {
        match told(alloc, file) {
            Some(text) => assert_eq!(rt; text.as_str(), *wanted, "file {index}"),
            None => panic!(rt; "nothing was told of file {index}"),
        }
    }
}

#[test]
fn a_header_is_told_by_its_first_fault(rt: HostRuntime) {
    expect_told(&rt, rt.alloc(), COLUMNS);
}

#[test]
fn a_row_of_another_shape_is_refused(rt: HostRuntime) {
    expect_told(&rt, rt.alloc(), SHAPES);
}

#[test]
fn the_first_row_with_a_fault_is_told_by_its_first_fault(rt: HostRuntime) {
    expect_told(&rt, rt.alloc(), ROWS);
}

#[test]
fn rows_of_one_key_are_one_document(rt: HostRuntime) {
    expect_told(&rt, rt.alloc(), GROUPS);
}

#[test]
fn a_file_is_read_as_each_writer_writes_it(rt: HostRuntime) {
    expect_told(&rt, rt.alloc(), WRITERS);
}
