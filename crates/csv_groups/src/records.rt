//! The records of a file, read one after another.
ghost use Rattle.std.specs.Prelude.{◌≡◌, List as ListOf};
ghost use Rattle.csv.specs.Reading.{default_config, error_kind, records, strip_bom};
ghost use Rattle.csv_groups.specs.Cells.{Cells};
ghost use Rattle.csv_groups.specs.Reading.{HasLeft, TakesRow, error_fault};

use crate::fault::{RowFault, RowWhy};
use csv::{Error, ErrorKind, Reader, ReaderBuilder, StringRecord};
use std::alloc::Global;

// A reader of all records of the bytes. Records of any length are read: what their number of
// cells must be is asked later. The reader passes over one byte order mark by itself.
pub(crate) fn reader_of(alloc: Global, bytes: &[u8]) -> Reader<&[u8]>
    ensures { HasLeft result (records default_config (strip_bom bytes.now)) }
{
    ReaderBuilder::new()
        .has_headers(false)
        .flexible(true)
        .from_reader(alloc, bytes)
}

// The next record, where there is one, as the row of this number. It is refused where a cell is no
// UTF-8.
pub(crate) fn next_row(
    alloc: Global,
    reader: &mut Reader<&[u8]>,
    row: u32,
) -> Result<Option<StringRecord>, RowFault>
    ensures { (rows : ListOf Cells) → HasLeft reader.old rows
        → TakesRow row rows result reader.new }
{
    let mut cells = StringRecord::new(alloc);
    match reader.read_record(&mut cells) {
        Ok(true) => Ok(Some(cells)),
        Ok(false) => Ok(None),
        Err(e) => Err(fault_of(&e, row)),
    }
}

// What an error says of a row. Bytes in memory are always read, and records of any length are, so
// that all others are want of memory.
fn fault_of(e: &Error, row: u32) -> RowFault
    ensures { result ≡ error_fault row (error_kind e.now) }
{
    match e.kind() {
        ErrorKind::Utf8 { .. } => RowFault::Refused {
            row,
            why: RowWhy::Shape,
        },
        _ => RowFault::Memory,
    }
}
