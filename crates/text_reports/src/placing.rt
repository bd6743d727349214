//! Texts in their columns, and texts one behind the other.
ghost use Rattle.std.specs.Prelude.{◌≡◌, ◌++◌, ◌<◌, replicate, string_bytes, IfOk, OnOk};
ghost use Rattle.std.specs.List.{join_with_byte};
ghost use Rattle.text_reports.specs.Tables.{placed_text as text_placed, placed_texts as all_placed};

use crate::table::{Align, Column};
use reg_base::{List, Memory, Text, string_of};
use std::alloc::Global;

// Each cell of a line in its column.
pub(crate) fn placed_texts(
    alloc: Global,
    columns: &[Column],
    cells: &[Text],
) -> Result<List<Text>, Memory>
    ensures { IfOk result (λ texts. texts ≡ all_placed columns.now cells.now) }
{
    let mut texts = List::new(alloc);
    'cells: for (column, cell) in columns.iter().zip(cells) {
        let text = placed_text(alloc, column, cell.as_str())?;
        texts.push(Text::from_string(text))?;
    }
    Ok(texts)
}

// A text in its column.
fn placed_text(alloc: Global, column: &Column, text: &str) -> Result<String, Memory>
    ensures { IfOk result (λ placed. string_bytes placed ≡ text_placed column.now text.now) }
{
    let spaces = column.width.saturating_sub(text.len());
    match column.align {
        Align::Left => before_spaces(alloc, text, spaces),
        Align::Right => behind_spaces(alloc, text, spaces),
        Align::Bare => string_of(alloc, text),
    }
}

fn before_spaces(alloc: Global, text: &str, spaces: usize) -> Result<String, Memory>
    ensures { IfOk result (λ placed. string_bytes placed ≡ text.now ++ replicate spaces 32) }
{
    let mut placed = string_of(alloc, text)?;
    push_spaces(&mut placed, spaces)?;
    Ok(placed)
}

fn behind_spaces(alloc: Global, text: &str, spaces: usize) -> Result<String, Memory>
    ensures { IfOk result (λ placed. string_bytes placed ≡ replicate spaces 32 ++ text.now) }
{
    let mut placed = String::new(alloc);
    push_spaces(&mut placed, spaces)?;
    placed.push_str(text)?;
    Ok(placed)
}

fn push_spaces(text: &mut String, count: usize) -> Result<(), Memory>
    ensures { OnOk result (string_bytes text.new ≡ string_bytes text.old ++ replicate count 32) }
{
    for place in (0..count).rev() {
        text.push(' ')?;
    }
    Ok(())
}

// The texts in a row, with an ASCII character between two.
pub(crate) fn joined(alloc: Global, separator: u8, texts: &[Text]) -> Result<String, Memory>
    requires { separator < 128 }
    ensures { IfOk result (λ text. string_bytes text ≡ join_with_byte separator texts.now) }
{
    let Some((first, others)) = texts.split_first() else {
        return Ok(String::new(alloc));
    };
    let mut text = string_of(alloc, first.as_str())?;
    'others: for other in others {
        text.push(char::from(separator))?;
        text.push_str(other.as_str())?;
    }
    Ok(text)
}
