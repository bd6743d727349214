//! A row against its columns: whether it reads, and the document that it begins.
ghost use Rattle.std.specs.Prelude.{◌≡◌, ◌∷◌, [], true, codes, IfOk, IfSome, None as Absent};
ghost use Rattle.csv.specs.Records.{fields_of};
ghost use Rattle.reg_base.specs.Comments.{is_comment};
ghost use Rattle.reg_base.specs.Results.{Gives, Says};
ghost use Rattle.desk_words.specs.WellFormedParts.{IsComment};
ghost use Rattle.csv_groups.specs.Cells.{are_utf8, cell_at as cell_at_of};
ghost use Rattle.csv_groups.specs.Cells.{first_unread as first_unread_of};
ghost use Rattle.csv_groups.specs.Columns.{HasPlaces, column_text};
ghost use Rattle.csv_groups.specs.Groups.{check_cells as check_cells_of, row_key};
ghost use Rattle.csv_groups.specs.Groups.{check_head as check_head_of, filled as filled_of};
ghost use Rattle.csv_groups.specs.Groups.{comment_in as comment_of, content_in as content_of};
ghost use Rattle.csv_groups.specs.Requests.{IsBatchContent};
ghost use Rattle.csv_groups.specs.Standing.{alone};
ghost use Rattle.csv_groups.specs.declared.fault.RowFault.TheVariants.{Memory as WantOfMemory};
ghost use Rattle.csv_groups.specs.declared.fault.RowFault.TheVariants.{Refused};
ghost use Rattle.csv_groups.specs.declared.fault.RowWhy.TheVariants.{BadValue, HeadDiffers};

use crate::cells::{cell_at, date_in, first_difference, first_unread};
use crate::column::{Column, Part};
use crate::columns::Columns;
use crate::fault::{RowFault, RowWhy};
use crate::fields::fields_in;
use csv::StringRecord;
use desk_words::{FieldText, Write};
use reg_base::{Code, Comment, List, Memory, Name};
use std::alloc::Global;

// Refuses a row with another number of cells than the header, or with one that does not read.
#[tactic(auto, unfolding(crate::specs::Groups::check_cells))]
pub(crate) fn check_cells(
    alloc: Global,
    columns: &Columns,
    row: u32,
    cells: &StringRecord,
) -> Result<(), RowFault>
    requires { are_utf8 (fields_of cells.now) ≡ true }
    ensures read { Gives WantOfMemory result
        (check_cells_of columns.now row (fields_of cells.now)) }
    ensures reads { IfOk result (λ _.
        first_unread_of (fields_of cells.now) 0 columns.now.all ≡ Absent) }
{
    if cells.len() != columns.all.len() {
        return Err(RowFault::Refused {
            row,
            why: RowWhy::Shape,
        });
    }
    match first_unread(alloc, cells, columns.all.as_slice())? {
        Some(column) => Err(bad_value(alloc, row, column)),
        None => Ok(()),
    }
}

// Refuses a row that does not agree with the first row of its group.
#[tactic(auto, unfolding(crate::specs::Groups::check_head))]
pub(crate) fn check_head(
    alloc: Global,
    columns: &Columns,
    row: u32,
    first: &StringRecord,
    cells: &StringRecord,
) -> Result<(), RowFault>
    ensures { Gives WantOfMemory result
        (check_head_of columns.now row (fields_of first.now) (fields_of cells.now)) }
{
    match first_difference(first, cells, columns.all.as_slice()) {
        Some(column) => Err(head_differs(alloc, row, column)),
        None => Ok(()),
    }
}

// The fault of a row whose cell in this column does not read.
fn bad_value(alloc: Global, row: u32, column: &Column) -> RowFault
    ensures { Says WantOfMemory result (Refused row (BadValue (column_text column.now))) }
{
    match column.text(alloc) {
        Ok(column) => RowFault::Refused {
            row,
            why: RowWhy::BadValue { column },
        },
        Err(_) => RowFault::Memory,
    }
}

// The fault of a row that differs in this column from the first row of its group.
fn head_differs(alloc: Global, row: u32, column: &Column) -> RowFault
    ensures { Says WantOfMemory result (Refused row (HeadDiffers (column_text column.now))) }
{
    match column.text(alloc) {
        Ok(column) => RowFault::Refused {
            row,
            why: RowWhy::HeadDiffers { column },
        },
        Err(_) => RowFault::Memory,
    }
}

// The key of a row that reads.
pub(crate) fn key_in(columns: &Columns, cells: &StringRecord) -> Code
    requires places { HasPlaces columns.now }
    requires reads { first_unread_of (fields_of cells.now) 0 columns.now.all ≡ Absent }
    ensures { result ≡ row_key columns.now (fields_of cells.now) }
{
    Code::parse(cell_at(cells, columns.key)).unwrap()
}

// The document type of a row that reads.
fn kind_in(columns: &Columns, cells: &StringRecord) -> Name
    requires places { HasPlaces columns.now }
    requires reads { first_unread_of (fields_of cells.now) 0 columns.now.all ≡ Absent }
    ensures { result ≡ cell_at_of (fields_of cells.now) columns.now.kind }
{
    Name::parse(cell_at(cells, columns.kind)).unwrap()
}

// The content of the document that a row begins, with one line.
pub(crate) fn content_in(
    alloc: Global,
    columns: &Columns,
    key: Code,
    cells: &StringRecord,
) -> Result<Write, Memory>
    requires places { HasPlaces columns.now }
    requires reads { first_unread_of (fields_of cells.now) 0 columns.now.all ≡ Absent }
    requires key { key ≡ row_key columns.now (fields_of cells.now) }
    ensures value { IfOk result (λ content.
        content ≡ content_of columns.now (alone (fields_of cells.now))) }
    ensures formed { IfOk result (IsBatchContent key) }
{
    let kind = kind_in(columns, cells);
    let head = fields_in(alloc, Part::Head, columns, cells)?;
    let line = fields_in(alloc, Part::Line, columns, cells)?;
    let lines = one_line(alloc, line)?;
    let comment = comment_in(alloc, columns, cells)?;
    Ok(Write {
        clerk: batch(),
        no: 1,
        doc: None,
        key: Some(key),
        kind,
        date: date_in(cell_at(cells, columns.date)),
        head,
        lines,
        comment,
        tx: None,
    })
}

// The clerk that posts by itself.
fn batch() -> Name
    ensures { result ≡ codes "batch" }
{
    Name::parse("batch").unwrap()
}

// A list of one line.
fn one_line(alloc: Global, line: List<FieldText>) -> Result<List<List<FieldText>>, Memory>
    ensures { IfOk result (λ lines. lines ≡ line ∷ []) }
{
    let mut lines = List::new(alloc);
    lines.push(line)?;
    Ok(lines)
}

// The comment of a row that reads, where it is there and not empty.
fn comment_in(
    alloc: Global,
    columns: &Columns,
    cells: &StringRecord,
) -> Result<Option<Comment>, Memory>
    requires places { HasPlaces columns.now }
    requires reads { first_unread_of (fields_of cells.now) 0 columns.now.all ≡ Absent }
    ensures value { IfOk result (λ comment.
        comment ≡ comment_of columns.now.comment (fields_of cells.now)) }
    ensures formed { IfOk result (λ comment. IfSome comment IsComment) }
{
    match columns.comment {
        Some(place) => filled(alloc, cell_at(cells, place)),
        None => Ok(None),
    }
}

// A cell that reads as a comment, where it is not empty.
fn filled(alloc: Global, cell: &str) -> Result<Option<Comment>, Memory>
    requires { is_comment cell.now ≡ true }
    ensures value { IfOk result (λ comment. comment ≡ filled_of cell.now) }
    ensures formed { IfOk result (λ comment. IfSome comment IsComment) }
{
    // Its bytes are UTF-8.
    let _ = cell.as_bytes();
    if cell.is_empty() {
        return Ok(None);
    }
    Comment::parse(alloc, cell)
}
