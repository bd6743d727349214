//! The fields of a document: their texts are read, and their values printed.
ghost use Rattle.std.specs.Prelude.{◌≡◌, ◌≤◌, IfOk, option_and_then, option_map, unwrap_or};
ghost use Rattle.reg_base.specs.Results.{each, none_or};
ghost use Rattle.desk_model.specs.Fields.{cells_of as cells_of_texts, cell_of as cell_of_texts};
ghost use Rattle.desk_model.specs.Fields.{cell_in as cell_in_scale, text_for as text_of_name};
ghost use Rattle.desk_model.specs.Fields.{is_field as is_field_of, unknown_field};
ghost use Rattle.desk_model.specs.Fields.{field_texts as texts_of_fields};
ghost use Rattle.desk_model.specs.Fields.{cell_text as text_of_cell};
ghost use Rattle.reg_base.specs.Tries.{Tries};

use crate::given::wrong;
use crate::part::units_in;
use crate::tried::Tried;
use cfg_model::Field;
use desk_words::{Field as WrongField, FieldText};
use reg_base::{Cell, Code, List, Memory, Name, Scale, Text, sum_string};
use std::alloc::Global;

// The values of all fields, in the order of the configuration; nothing else is given.
#[tactic(auto, unfolding(desk_model::specs::Fields::cells_of))]
pub(crate) fn cells_of(alloc: Global, fields: &[Field], texts: &[FieldText]) -> Tried<List<Cell>>
    ensures { Tries result (cells_of_texts fields.now texts.now) }
{
    let cells = read_cells(alloc, fields, texts)?;
    are_known(fields, texts)?;
    Ok(cells)
}

fn read_cells(alloc: Global, fields: &[Field], texts: &[FieldText]) -> Tried<List<Cell>>
    ensures { Tries result (each (cell_of_texts texts.now) fields.now) }
{
    let mut cells = Vec::new(alloc);
    'fields: for field in fields {
        let cell = cell_of(field, texts)?;
        cells.push(cell)?;
    }
    Ok(List::from_vec(cells))
}

// The value of a field: its text is given, and is read.
fn cell_of(field: &Field, texts: &[FieldText]) -> Tried<Cell>
    ensures { Tries result (cell_of_texts texts.now field.now) }
{
    match read_cell(field, texts) {
        Some(cell) => Ok(cell),
        None => Err(wrong(WrongField::Named(field.name))),
    }
}

fn read_cell(field: &Field, texts: &[FieldText]) -> Option<Cell>
    ensures { result ≡ option_and_then (cell_in_scale field.now.scale)
        (text_of_name field.now.name texts.now) }
{
    let text = text_for(&field.name, texts)?;
    cell_in(&field.scale, text)
}

// The text that is given for a field of this name.
fn text_for<'a>(name: &Name, texts: &'a [FieldText]) -> Option<&'a str>
    ensures { option_map (λ t. t.now) result ≡ text_of_name name.now texts.now }
{
    'texts: for text in texts {
        if text.name == *name {
            return Some(text.text.as_str());
        }
    }
    None
}

// What a text spells in a field of this scale: a number, or a code where there is no scale.
fn cell_in(scale: &Option<Scale>, text: &str) -> Option<Cell>
    ensures { result ≡ cell_in_scale scale.now text.now }
{
    match scale {
        Some(scale) => {
            let units = units_in(*scale, text)?;
            Some(Cell::Num(units))
        }
        None => {
            let code = Code::parse(text)?;
            Some(Cell::Code(code))
        }
    }
}

// Each name that is given is that of a field.
fn are_known(fields: &[Field], texts: &[FieldText]) -> Tried<()>
    ensures { Tries result (none_or (unknown_field fields.now texts.now)) }
{
    'texts: for text in texts {
        if !is_field(fields, &text.name) {
            return Err(wrong(WrongField::Named(text.name)));
        }
    }
    Ok(())
}

fn is_field(fields: &[Field], name: &Name) -> bool
    ensures { result ≡ is_field_of fields.now name.now }
{
    fields.iter().any(|f| f.name == *name)
}

// The texts of the fields with their names, in the order of the configuration.
pub(crate) fn field_texts(
    alloc: Global,
    fields: &[Field],
    cells: &[Cell],
) -> Result<List<FieldText>, Memory>
    ensures { IfOk result (λ texts. texts ≡ texts_of_fields fields.now cells.now) }
{
    let mut texts = Vec::new(alloc);
    'fields: for (field, cell) in fields.iter().zip(cells) {
        let text = cell_text(alloc, &field.scale, cell)?;
        texts.push(FieldText {
            name: field.name,
            text,
        })?;
    }
    Ok(List::from_vec(texts))
}

// The text of a field's value.
fn cell_text(alloc: Global, scale: &Option<Scale>, cell: &Cell) -> Result<Text, Memory>
    ensures { IfOk result (λ text. text ≡ text_of_cell scale.now cell.now) }
{
    match cell {
        Cell::Code(code) => Ok(Text::from_str(alloc, code.as_str())?),
        Cell::Num(units) => {
            let text = sum_string(alloc, i128::from(*units), decimals(scale))?;
            Ok(Text::from_string(text))
        }
    }
}

// How many decimals a number of this scale has; none without a scale.
fn decimals(scale: &Option<Scale>) -> u8
    ensures value { result ≡ unwrap_or scale.now 0 }
    ensures range { result ≤ 6 }
{
    match scale {
        Some(scale) => scale.get(),
        None => 0,
    }
}
