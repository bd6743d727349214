//! The fields that a row gives a head or a line.
ghost use Rattle.std.specs.Prelude.{◌≡◌, [], IfOk};
ghost use Rattle.csv.specs.Records.{fields_of};
ghost use Rattle.reg_base.specs.Records.{put_once};
ghost use Rattle.desk_words.specs.WellFormed.{AreFields, IsFieldText};
ghost use Rattle.csv_groups.specs.Groups.{fields_in as fields_of_row, with_cell, field_cmp};
ghost use Rattle.csv_groups.specs.Places.{GoesTo, field_of};

use crate::cells::cell_at;
use crate::column::Part;
use crate::columns::Columns;
use csv::StringRecord;
use desk_words::FieldText;
use reg_base::{List, Memory, Name, Text};
use std::alloc::Global;
use std::cmp::Ordering;

// The fields of the cells that are not empty, in byte order of names.
pub(crate) fn fields_in(
    alloc: Global,
    part: Part,
    columns: &Columns,
    cells: &StringRecord,
) -> Result<List<FieldText>, Memory>
    ensures value { IfOk result (λ fields.
        fields ≡ fields_of_row part columns.now (fields_of cells.now)) }
    ensures formed { IfOk result AreFields }
{
    let all = columns.all.as_slice();
    let mut fields = Vec::new(alloc);
    'columns: for index in 0..all.len() {
        put_cell(
            alloc,
            &mut fields,
            all[index].field(part),
            cell_at(cells, index),
        )?;
    }
    Ok(List::from_vec(fields))
}

// Puts a cell that is not empty among fields in order, where its column holds one.
fn put_cell(
    alloc: Global,
    fields: &mut Vec<FieldText>,
    name: Option<Name>,
    cell: &str,
) -> Result<(), Memory>
    ensures value { IfOk result (λ _. fields.new.items ≡ with_cell name cell.now fields.old.items) }
    ensures formed { AreFields fields.old.items → IfOk result (λ _. AreFields fields.new.items) }
{
    match name {
        Some(name) if !cell.is_empty() => put_field(alloc, fields, name, cell),
        _ => Ok(()),
    }
}

// Puts a field among others in order.
fn put_field(
    alloc: Global,
    fields: &mut Vec<FieldText>,
    name: Name,
    text: &str,
) -> Result<(), Memory>
    ensures value { IfOk result (λ _. fields.new.items
        ≡ put_once field_cmp (field_of name text.now) fields.old.items) }
    ensures formed { AreFields fields.old.items → IfOk result (λ _. AreFields fields.new.items) }
{
    let Some(place) = place_for(fields.as_slice(), &name) else {
        return Ok(());
    };
    let field = field(alloc, name, text)?;
    fields.insert(place, field)?;
    Ok(())
}

// A field of this name and text.
fn field(alloc: Global, name: Name, text: &str) -> Result<FieldText, Memory>
    ensures value { IfOk result (λ field. field ≡ field_of name text.now) }
    ensures formed { IfOk result IsFieldText }
{
    // A name is one, and the bytes of a text are UTF-8.
    let _ = name.as_str();
    let _ = text.as_bytes();
    Ok(FieldText {
        name,
        text: Text::from_str(alloc, text)?,
    })
}

// The place of a field of this name among others in order, where none has it.
fn place_for(fields: &[FieldText], name: &Name) -> Option<usize>
    ensures { GoesTo fields.now name.now result }
{
    'fields: for index in 0..fields.len() {
        match name.cmp(&fields[index].name) {
            Ordering::Less => return Some(index),
            Ordering::Equal => return None,
            Ordering::Greater => {}
        }
    }
    Some(fields.len())
}
