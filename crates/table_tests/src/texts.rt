//! Rows of tables as texts.
use reg_base::{List, Memory, Row, Unit, Value, sum_string};
use std::alloc::Global;

fn push_group(text: &mut String, group: &List<Value>) -> Result<(), Memory> {
    'values: for value in group.as_slice() {
        if let Value::Code(code) = value {
            text.push_str(code.as_str())?;
        }
    }
    Ok(())
}

// The text of a unit, without a line.
fn unit_text(alloc: Global, unit: &Unit) -> Result<String, Memory> {
    match unit {
        Unit::Whole => Ok(String::from_str(alloc, "whole")?),
        Unit::Start(date) => date.to_text(alloc),
        Unit::At(point) => point.to_text(alloc),
        Unit::Line(point, _) => point.to_text(alloc),
    }
}

// The numbers of a column, or a dash where there are none.
fn push_numbers(alloc: Global, text: &mut String, numbers: &List<i128>) -> Result<(), Memory> {
    text.push(' ')?;
    if numbers.as_slice().is_empty() {
        text.push('-')?;
    }
    'numbers: for number in numbers.as_slice() {
        let number = sum_string(alloc, *number, 0)?;
        text.push_str(number.as_str())?;
    }
    Ok(())
}

fn push_row(alloc: Global, text: &mut String, row: &Row) -> Result<(), Memory> {
    push_group(text, &row.group)?;
    text.push('@')?;
    let unit = unit_text(alloc, &row.unit)?;
    text.push_str(unit.as_str())?;
    push_numbers(alloc, text, &row.opening)?;
    push_numbers(alloc, text, &row.receipt)?;
    push_numbers(alloc, text, &row.expense)?;
    push_numbers(alloc, text, &row.turnover)?;
    push_numbers(alloc, text, &row.closing)?;
    text.push(';')?;
    Ok(())
}

/// The text of rows: group, unit, opening, receipts, expenses, turnover and closing of each.
pub(crate) fn rows_text(alloc: Global, rows: &List<Row>) -> Result<String, Memory> {
    let mut text = String::new(alloc);
    'rows: for row in rows.as_slice() {
        push_row(alloc, &mut text, row)?;
    }
    Ok(text)
}
