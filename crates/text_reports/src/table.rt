//! The text of a report: lines of cells, each cell in its column.
ghost use Rattle.std.specs.Prelude.{◌≡◌, ◌++◌, fold, string_bytes, IfOk, OnOk, OnErr};
ghost use Rattle.text_reports.specs.Tables.{cells_text, fit_line, fit_lines, report_text};

use crate::placing::{joined, placed_texts};
use reg_base::{List, Memory, Text};
use std::alloc::Global;

/// At which end of their column the cells stand.
#[derive(Clone, Copy, Debug, PartialEq, Eq)]
pub(crate) enum Align {
    Left,
    Right,
    /// As they are: nothing follows them.
    Bare,
}

/// A column of a report.
#[derive(Clone, Copy, Debug, PartialEq, Eq)]
pub(crate) struct Column {
    /// In bytes; at the least, until all lines are known.
    pub(crate) width: usize,
    pub(crate) align: Align,
}

// Appends the text of the lines, in columns that are wide enough for all of them.
pub(crate) fn print_report(
    alloc: Global,
    columns: &[Column],
    lines: &[List<Text>],
    out: &mut Vec<u8>,
) -> Result<(), Memory>
    ensures ok { OnOk result (out.new.items ≡ out.old.items ++ report_text columns.now lines.now) }
    ensures err { OnErr result (out.new.items ≡ out.old.items) }
{
    // The text is made first: where memory is refused, nothing is appended.
    let text = report_string(alloc, columns, lines)?;
    out.extend_from_slice(text.as_bytes())?;
    Ok(())
}

fn report_string(alloc: Global, columns: &[Column], lines: &[List<Text>]) -> Result<String, Memory>
    ensures { IfOk result (λ text. string_bytes text ≡ report_text columns.now lines.now) }
{
    let columns = fit_lines(alloc, columns, lines)?;
    let mut text = String::new(alloc);
    'lines: for line in lines {
        let line = line_string(alloc, columns.as_slice(), line.as_slice())?;
        text.push_str(line.as_str())?;
    }
    Ok(text)
}

// The columns, each as wide as its widest cell.
fn fit_lines(alloc: Global, columns: &[Column], lines: &[List<Text>]) -> Result<Vec<Column>, Memory>
    ensures { IfOk result (λ fitted. fitted.items ≡ fit_lines columns.now lines.now) }
{
    let mut fitted = Vec::from_slice(alloc, columns)?;
    'lines: for line in lines {
        fitted = fit_line(alloc, fitted.as_slice(), line.as_slice())?;
    }
    Ok(fitted)
}

// The columns, each as wide as its cell of the line.
fn fit_line(alloc: Global, columns: &[Column], cells: &[Text]) -> Result<Vec<Column>, Memory>
    ensures { IfOk result (λ fitted. fitted.items ≡ fit_line columns.now cells.now) }
{
    let mut fitted = Vec::new(alloc);
    'cells: for (column, cell) in columns.iter().zip(cells) {
        fitted.push(Column {
            width: column.width.max(cell.as_str().len()),
            align: column.align,
        })?;
    }
    Ok(fitted)
}

// The text of one line.
fn line_string(alloc: Global, columns: &[Column], cells: &[Text]) -> Result<String, Memory>
    ensures { IfOk result (λ text. string_bytes text ≡ cells_text columns.now cells.now) }
{
    let placed = placed_texts(alloc, columns, cells)?;
    let mut text = joined(alloc, b' ', placed.as_slice())?;
    text.push('\n')?;
    Ok(text)
}
