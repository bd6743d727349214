//! The stock card of a register.
ghost use Rattle.std.specs.Prelude.{◌≡◌, ◌++◌, ◌∷◌, IfOk, OnOk, OnErr};
ghost use Rattle.std.specs.List.{flat_map};
ghost use Rattle.text_reports.specs.ShownValues.{number_in_place};
ghost use Rattle.text_reports.specs.StockCards.{stock_card_text, card_header as words};
ghost use Rattle.text_reports.specs.StockCards.{card_lines as lines_of, card_line as line_of};

use crate::cells::{header, push_numbers, shown_group, shown_unit};
use crate::table::{Align, Column, print_report};
use cfg_model::{Register, Resource};
use reg_base::{List, Memory, Row, Text};
use std::alloc::Global;

// The columns.
const GROUP: Column = Column {
    width: 32,
    align: Align::Left,
};

const UNIT: Column = Column {
    width: 30,
    align: Align::Left,
};

const RESOURCE: Column = Column {
    width: 12,
    align: Align::Left,
};

const SUM: Column = Column {
    width: 14,
    align: Align::Right,
};

const COLUMNS: [Column; 7] = [GROUP, UNIT, RESOURCE, SUM, SUM, SUM, SUM];

/// Appends the stock card of a register: for each row, in their order, a line for each resource
/// with its opening, receipt, expense and closing, with all decimals of the resource's scale. A
/// number that a row does not have is 0. A unit is a document's point; others are a date, a point
/// with its line behind a slash, and a dash for the range as a whole.
#[tactic(auto, unfolding(crate::specs::StockCards::stock_card_text))]
pub fn stock_card(
    alloc: Global,
    register: &Register,
    rows: &[Row],
    out: &mut Vec<u8>,
) -> Result<(), Memory>
    ensures ok { OnOk result
        (out.new.items ≡ out.old.items ++ stock_card_text register.now rows.now) }
    ensures err { OnErr result (out.new.items ≡ out.old.items) }
{
    let lines = stock_lines(alloc, register, rows)?;
    print_report(alloc, &COLUMNS, lines.as_slice(), out)
}

fn stock_lines(alloc: Global, register: &Register, rows: &[Row]) -> Result<List<List<Text>>, Memory>
    ensures { IfOk result (λ lines.
        lines ≡ words ∷ flat_map (lines_of register.now) rows.now) }
{
    let mut lines = List::new(alloc);
    lines.push(card_header(alloc)?)?;
    'rows: for row in rows {
        push_row(alloc, register, row, &mut lines)?;
    }
    Ok(lines)
}

fn card_header(alloc: Global) -> Result<List<Text>, Memory>
    ensures { IfOk result (λ cells. cells ≡ words) }
{
    header(
        alloc,
        &[
            "group", "unit", "resource", "opening", "receipt", "expense", "closing",
        ],
    )
}

// Puts the lines of a row behind those before.
fn push_row(
    alloc: Global,
    register: &Register,
    row: &Row,
    lines: &mut List<List<Text>>,
) -> Result<(), Memory>
    ensures { OnOk result (lines.new ≡ lines.old ++ lines_of register.now row.now) }
{
    'resources: for (place, resource) in register.resources.as_slice().iter().enumerate() {
        lines.push(card_line(alloc, row, place, resource)?)?;
    }
    Ok(())
}

fn card_line(
    alloc: Global,
    row: &Row,
    place: usize,
    resource: &Resource,
) -> Result<List<Text>, Memory>
    ensures { IfOk result (λ cells. cells ≡ line_of row.now place resource.now) }
{
    let mut cells = List::new(alloc);
    let group = shown_group(alloc, row.group.as_slice())?;
    cells.push(Text::from_string(group))?;
    let unit = shown_unit(alloc, &row.unit)?;
    cells.push(Text::from_string(unit))?;
    cells.push(Text::from_str(alloc, resource.name.as_str())?)?;
    let numbers = [
        number_in_place(&row.opening, place),
        number_in_place(&row.receipt, place),
        number_in_place(&row.expense, place),
        number_in_place(&row.closing, place),
    ];
    push_numbers(alloc, &mut cells, resource.scale, &numbers)?;
    Ok(cells)
}

fn number_in_place(numbers: &List<i128>, place: usize) -> i128
    ensures { result ≡ number_in_place numbers.now place }
{
    numbers.get(place).copied().unwrap_or(0)
}
