//! The groups of a file, read from its bytes.
ghost use Rattle.std.specs.Prelude.{◌≡◌, ◌<◌, ◌^◌, List as ListOf, drop, length, IfOk, OnOk};
ghost use Rattle.std.specs.List.{AllByRecursion};
ghost use Rattle.reg_base.specs.Results.{Gives};
ghost use Rattle.csv_groups.specs.Cells.{Cells};
ghost use Rattle.csv_groups.specs.Columns.{HasPlaces};
ghost use Rattle.csv_groups.specs.Files.{read_file, header_of, first_row};
ghost use Rattle.csv_groups.specs.Reading.{HasLeft};
ghost use Rattle.csv_groups.specs.Requests.{IsBatchPost};
ghost use Rattle.csv_groups.specs.Standing.{ReadsRows};
ghost use Rattle.csv_groups.specs.declared.fault.RowFault.TheVariants.{Memory as WantOfMemory};

use crate::column::Column;
use crate::columns::{Columns, missing};
use crate::fault::RowFault;
use crate::group::Group;
use crate::groups::Groups;
use crate::records::{next_row, reader_of};
use cfg_model::Config;
use csv::Reader;
use reg_base::List;
use std::alloc::Global;

/// The documents that a file of comma separated values asks to post, in its order, or the first
/// fault of its first row that has one. A byte order mark at its start is passed over. Each request
/// is for the clerk `batch` and has the number 1.
pub fn read_groups(alloc: Global, bytes: &[u8], config: &Config) -> Result<List<Group>, RowFault>
    ensures read { Gives WantOfMemory result (read_file config.now bytes.now) }
    ensures posts { IfOk result (AllByRecursion IsBatchPost) }
    ensures few { IfOk result (λ groups. length groups < 2 ^ 32) }
{
    let mut reader = reader_of(alloc, bytes);
    let columns = read_header(alloc, &mut reader, config)?;
    let groups = read_rows(alloc, &mut reader, &columns)?;
    Ok(groups.finish(&columns)?)
}

// The columns of the header, row 1. A file of no records lacks the first column.
fn read_header(
    alloc: Global,
    reader: &mut Reader<&[u8]>,
    config: &Config,
) -> Result<Columns, RowFault>
    ensures read { (rows : ListOf Cells) → HasLeft reader.old rows
        → Gives WantOfMemory result (header_of config.now (first_row rows)) }
    ensures left { (rows : ListOf Cells) → HasLeft reader.old rows
        → OnOk result (HasLeft reader.new (drop 1 rows)) }
    ensures places { IfOk result HasPlaces }
{
    match next_row(alloc, reader, 1)? {
        Some(header) => Columns::of(alloc, config, &header),
        None => Err(missing(alloc, &Column::Key)),
    }
}

// The groups of the rows behind the header.
fn read_rows(
    alloc: Global,
    reader: &mut Reader<&[u8]>,
    columns: &Columns,
) -> Result<Groups, RowFault>
    requires places { HasPlaces columns.now }
    requires left { (rows : ListOf Cells) × HasLeft reader.old rows }
    ensures { (rows : ListOf Cells) → HasLeft reader.old rows → ReadsRows columns.now rows result }
{
    let mut groups = Groups::new(alloc, columns);
    'rows: for row in 2..u32::MAX {
        match next_row(alloc, reader, row)? {
            Some(cells) => groups.add(alloc, columns, row, cells)?,
            None => return Ok(groups),
        }
    }
    // The numbers of rows are used up: no memory holds so many.
    Err(RowFault::Memory)
}
