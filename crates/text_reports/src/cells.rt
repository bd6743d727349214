//! The cells of reports: words, values, units and numbers.
ghost use Rattle.std.specs.Prelude.{◌≡◌, ◌++◌, ◌∷◌, map, string_bytes, IfOk, OnOk};
ghost use Rattle.reg_base.specs.Numbers.{number_text};
ghost use Rattle.reg_base.specs.Points.{point_text};
ghost use Rattle.text_reports.specs.ShownValues.{shown_value as value_shown};
ghost use Rattle.text_reports.specs.ShownValues.{shown_group as group_shown};
ghost use Rattle.text_reports.specs.ShownValues.{shown_unit as unit_shown, shown_numbers};
ghost use Rattle.text_reports.specs.ShownValues.{shown_state as state_shown};

use crate::placing::joined;
use reg_base::{DocState, List, Memory, Point, Scale, Text, Unit, Value, string_of, sum_string};
use std::alloc::Global;

// The words over the columns.
pub(crate) fn header(alloc: Global, words: &[&str]) -> Result<List<Text>, Memory>
    ensures { IfOk result (λ cells. cells ≡ map (λ word. word.now) words.now) }
{
    let mut cells = List::new(alloc);
    'words: for word in words {
        cells.push(Text::from_str(alloc, word)?)?;
    }
    Ok(cells)
}

// Puts numbers behind the cells of a line, each with all decimals of the scale.
pub(crate) fn push_numbers(
    alloc: Global,
    cells: &mut List<Text>,
    scale: Scale,
    numbers: &[i128],
) -> Result<(), Memory>
    ensures { OnOk result (cells.new ≡ cells.old ++ shown_numbers scale numbers.now) }
{
    'numbers: for number in numbers {
        let text = sum_string(alloc, *number, scale.get())?;
        cells.push(Text::from_string(text))?;
    }
    Ok(())
}

// The values of a group, a slash between two.
pub(crate) fn shown_group(alloc: Global, group: &[Value]) -> Result<String, Memory>
    ensures { IfOk result (λ text. string_bytes text ≡ group_shown group.now) }
{
    let texts = value_texts(alloc, group)?;
    joined(alloc, b'/', texts.as_slice())
}

fn value_texts(alloc: Global, group: &[Value]) -> Result<List<Text>, Memory>
    ensures { IfOk result (λ texts. texts ≡ map value_shown group.now) }
{
    let mut texts = List::new(alloc);
    'values: for value in group {
        let text = shown_value(alloc, value)?;
        texts.push(Text::from_string(text))?;
    }
    Ok(texts)
}

fn shown_value(alloc: Global, value: &Value) -> Result<String, Memory>
    ensures { IfOk result (λ text. string_bytes text ≡ value_shown value.now) }
{
    match value {
        Value::Code(code) => string_of(alloc, code.as_str()),
        Value::Lot(point) => point.to_text(alloc),
    }
}

// What a row speaks of.
pub(crate) fn shown_unit(alloc: Global, unit: &Unit) -> Result<String, Memory>
    ensures { IfOk result (λ text. string_bytes text ≡ unit_shown unit.now) }
{
    match *unit {
        Unit::Whole => string_of(alloc, "-"),
        Unit::Start(date) => date.to_text(alloc),
        Unit::At(point) => point.to_text(alloc),
        Unit::Line(point, line) => {
            let front = point.to_text(alloc)?;
            line_text(alloc, front.as_str(), line)
        }
    }
}

// A point with the number of a record's line behind it.
fn line_text(alloc: Global, point: &str, line: u16) -> Result<String, Memory>
    ensures { IfOk result (λ text. string_bytes text ≡ point.now ++ (47 ∷ number_text line)) }
{
    let text = format!(in alloc; "{point}/{line}")?;
    Ok(text)
}

// A number without leading zeros.
pub(crate) fn shown_number(alloc: Global, number: u32) -> Result<String, Memory>
    ensures { IfOk result (λ text. string_bytes text ≡ number_text number) }
{
    let text = format!(in alloc; "{number}")?;
    Ok(text)
}

// The word of a document's state.
pub(crate) fn shown_state(state: DocState) -> &'static str
    ensures { result.now ≡ state_shown state }
{
    match state {
        DocState::Written => "written",
        DocState::Posted => "posted",
        DocState::Marked => "marked",
    }
}
