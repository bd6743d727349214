//! The cells of a row: whether they read, and agree with those of another row.
ghost use Rattle.std.specs.Prelude.{◌≡◌, option_map, IfOk};
ghost use Rattle.csv.specs.Records.{fields_of};
ghost use Rattle.csv_groups.specs.Cells.{cell_at as cell_of, date_in as date_of, reads_as as reads};
ghost use Rattle.csv_groups.specs.Cells.{differs_in as differs, first_unread as first_unread_of};
ghost use Rattle.csv_groups.specs.Cells.{first_difference as first_difference_of};

use crate::column::Column;
use csv::StringRecord;
use reg_base::{Code, Comment, Date, Memory, Name};
use std::alloc::Global;

// The cell at a place, counted from 0, and an empty one where the row is shorter.
pub(crate) fn cell_at(cells: &StringRecord, index: usize) -> &str
    ensures { result.now ≡ cell_of (fields_of cells.now) index }
{
    cells.get(index).unwrap_or("")
}

// The date that a cell spells, and the first date where it spells none.
pub(crate) fn date_in(cell: &str) -> Date
    ensures { result ≡ date_of cell.now }
{
    match Date::parse(cell) {
        Ok(date) => date,
        Err(_) => Date::first(),
    }
}

// The first column whose cell does not read.
pub(crate) fn first_unread<'a>(
    alloc: Global,
    cells: &StringRecord,
    columns: &'a [Column],
) -> Result<Option<&'a Column>, Memory>
    ensures { let unread = first_unread_of (fields_of cells.now) 0 columns.now in
        IfOk result (λ found. option_map (λ c. c.now) found ≡ unread) }
{
    'columns: for index in 0..columns.len() {
        let column = &columns[index];
        if !reads_as(alloc, column, cell_at(cells, index))? {
            return Ok(Some(column));
        }
    }
    Ok(None)
}

// Whether a cell reads as what its column holds.
fn reads_as(alloc: Global, column: &Column, cell: &str) -> Result<bool, Memory>
    ensures { IfOk result (λ reading. reading ≡ reads column.now cell.now) }
{
    match column {
        Column::Key => Ok(Code::parse(cell).is_some()),
        Column::Kind => Ok(Name::parse(cell).is_some()),
        Column::Date => Ok(Date::parse(cell).is_ok()),
        Column::Comment => Ok(Comment::parse(alloc, cell)?.is_some()),
        Column::Head(_) | Column::Line(_) => Ok(true),
    }
}

// The first column in which a row does not agree with the first row of its document.
pub(crate) fn first_difference<'a>(
    first: &StringRecord,
    cells: &StringRecord,
    columns: &'a [Column],
) -> Option<&'a Column>
    ensures { option_map (λ c. c.now) result
        ≡ first_difference_of (fields_of first.now) (fields_of cells.now) 0 columns.now }
{
    'columns: for index in 0..columns.len() {
        let column = &columns[index];
        if differs_in(column, cell_at(first, index), cell_at(cells, index)) {
            return Some(column);
        }
    }
    None
}

// Whether two rows of one document may not have these cells in a column.
fn differs_in(column: &Column, first: &str, cell: &str) -> bool
    ensures { result ≡ differs column.now first.now cell.now }
{
    match column {
        Column::Key | Column::Line(_) => false,
        Column::Date => date_in(first) != date_in(cell),
        Column::Kind | Column::Comment | Column::Head(_) => first != cell,
    }
}
