//! The columns that the header of a file names.
ghost use Rattle.std.specs.Prelude.{◌≡◌, [], IfOk, option_map, Option, Some as There};
ghost use Rattle.std.specs.List.{list_any};
ghost use Rattle.csv.specs.Records.{fields_of};
ghost use Rattle.reg_base.specs.Results.{Gives, Says};
ghost use Rattle.csv_groups.specs.Columns.{same_column, place_from, place_of, columns_of};
ghost use Rattle.csv_groups.specs.Columns.{columns_behind, column_text, HasPlaces};
ghost use Rattle.csv_groups.specs.declared.column.Column.TheVariants as column;
ghost use Rattle.csv_groups.specs.declared.fault.RowFault.TheVariants.{Memory, Refused};
ghost use Rattle.csv_groups.specs.declared.fault.RowWhy.TheVariants.{UnknownColumn, MissingColumn};

use crate::cells::cell_at;
use crate::column::Column;
use crate::fault::{RowFault, RowWhy};
use cfg_model::Config;
use csv::StringRecord;
use reg_base::{List, Text};
use std::alloc::Global;

// The columns of a file, and the places, counted from 0, of those that each row needs.
#[derive(Drop)]
pub(crate) struct Columns {
    pub all: List<Column>,
    pub key: usize,
    pub kind: usize,
    pub date: usize,
    pub comment: Option<usize>,
}

impl Columns {
    // The columns of a header, or its first fault.
    #[tactic(auto, unfolding(crate::specs::Columns::columns_of))]
    pub(crate) fn of(
        alloc: Global,
        config: &Config,
        header: &StringRecord,
    ) -> Result<Columns, RowFault>
        ensures read { Gives Memory result (columns_of config.now (fields_of header.now)) }
        ensures places { IfOk result HasPlaces }
    {
        let all = columns_in(alloc, config, header)?;
        let key = place_of(alloc, &Column::Key, all.as_slice())?;
        let kind = place_of(alloc, &Column::Kind, all.as_slice())?;
        let date = place_of(alloc, &Column::Date, all.as_slice())?;
        let comment = place_from(&Column::Comment, all.as_slice());
        Ok(Columns {
            all,
            key,
            kind,
            date,
            comment,
        })
    }
}

// The columns that a header names: each is one, and not one of those before it.
#[tactic(auto, unfolding(crate::specs::Columns::columns_behind))]
fn columns_in(
    alloc: Global,
    config: &Config,
    header: &StringRecord,
) -> Result<List<Column>, RowFault>
    ensures { Gives Memory result (columns_behind config.now [] (fields_of header.now)) }
{
    let mut columns = List::new(alloc);
    'cells: for index in 0..header.len() {
        let text = cell_at(header, index);
        let Some(column) = Column::named(config, text) else {
            return Err(unknown(alloc, text));
        };
        if is_among(&column, columns.as_slice()) {
            return Err(unknown(alloc, text));
        }
        columns.push(column)?;
    }
    Ok(columns)
}

// Whether the column is one of these.
fn is_among(column: &Column, columns: &[Column]) -> bool
    ensures { result ≡ list_any (same_column column.now) columns.now }
{
    columns.iter().any(|c| column.is_same(c))
}

// The place of a column that must be there.
fn place_of(alloc: Global, column: &Column, columns: &[Column]) -> Result<usize, RowFault>
    ensures { Gives Memory result (place_of column.now columns.now) }
{
    match place_from(column, columns) {
        Some(place) => Ok(place),
        None => Err(missing(alloc, column)),
    }
}

// The place of a column, where it is there.
fn place_from(column: &Column, columns: &[Column]) -> Option<usize>
    ensures { result ≡ place_from column.now 0 columns.now }
{
    'columns: for index in 0..columns.len() {
        if column.is_same(&columns[index]) {
            return Some(index);
        }
    }
    None
}

// The fault of a header that has a column that there is not, or has it twice.
fn unknown(alloc: Global, text: &str) -> RowFault
    ensures { Says Memory result (Refused 1 (UnknownColumn text.now)) }
{
    match Text::from_str(alloc, text) {
        Ok(column) => RowFault::Refused {
            row: 1,
            why: RowWhy::UnknownColumn { column },
        },
        Err(_) => RowFault::Memory,
    }
}

// The fault of a header that lacks a column.
pub(crate) fn missing(alloc: Global, column: &Column) -> RowFault
    ensures { Says Memory result (Refused 1 (MissingColumn (column_text column.now))) }
{
    match column.text(alloc) {
        Ok(column) => RowFault::Refused {
            row: 1,
            why: RowWhy::MissingColumn { column },
        },
        Err(_) => RowFault::Memory,
    }
}
