//! The trial balance of a ledger.
ghost use Rattle.std.specs.Prelude.{◌≡◌, ◌++◌, ◌∷◌, [], ◌≤◌, length, map, All, IfOk, OnOk, OnErr};
ghost use Rattle.cfg_model.specs.Places.{account_at};
ghost use Rattle.text_reports.specs.TrialBalances.{trial_balance_text, trial_lines as lines_of};
ghost use Rattle.text_reports.specs.TrialBalances.{trial_header as words, trial_line as line_of};
ghost use Rattle.text_reports.specs.TrialBalances.{total_line as line_of_totals, shown_name};
ghost use Rattle.text_reports.specs.TrialBalances.{HasModerateNumbers};

use crate::cells::{header, push_numbers};
use crate::table::{Align, Column, print_report};
use crate::totals::{Amount, leaf_rows, total_of};
use cfg_model::Chart;
use reg_base::{AccountRow, Code, List, Memory, Scale, Text};
use std::alloc::Global;

// The columns.
const ACCOUNT: Column = Column {
    width: 8,
    align: Align::Left,
};

const NAME: Column = Column {
    width: 12,
    align: Align::Left,
};

const SUM: Column = Column {
    width: 12,
    align: Align::Right,
};

const COLUMNS: [Column; 8] = [ACCOUNT, NAME, SUM, SUM, SUM, SUM, SUM, SUM];

/// Appends the trial balance of a ledger: a line for each row, in their order, with the name of its
/// account, and a last one with the sums of the leaves that are not off-balance. Numbers have all
/// decimals of the ledger's scale. An account that the chart does not have has no name, and is in
/// no sum.
#[tactic(auto, unfolding(crate::specs::TrialBalances::trial_balance_text))]
pub fn trial_balance(
    alloc: Global,
    chart: &Chart,
    rows: &[AccountRow],
    out: &mut Vec<u8>,
) -> Result<(), Memory>
    requires few { length rows.now ≤ 100_000 }
    requires moderate { All HasModerateNumbers rows.now }
    ensures ok { OnOk result
        (out.new.items ≡ out.old.items ++ trial_balance_text chart.now rows.now) }
    ensures err { OnErr result (out.new.items ≡ out.old.items) }
{
    let lines = trial_lines(alloc, chart, rows)?;
    print_report(alloc, &COLUMNS, lines.as_slice(), out)
}

fn trial_lines(
    alloc: Global,
    chart: &Chart,
    rows: &[AccountRow],
) -> Result<List<List<Text>>, Memory>
    requires few { length rows.now ≤ 100_000 }
    requires moderate { All HasModerateNumbers rows.now }
    ensures { IfOk result (λ lines. lines ≡ lines_of chart.now rows.now) }
{
    let mut lines = List::new(alloc);
    lines.push(trial_header(alloc)?)?;
    push_rows(alloc, chart, rows, &mut lines)?;
    let leaves = leaf_rows(alloc, chart, rows)?;
    lines.push(total_line(alloc, chart.scale, leaves.as_slice())?)?;
    Ok(lines)
}

fn trial_header(alloc: Global) -> Result<List<Text>, Memory>
    ensures { IfOk result (λ cells. cells ≡ words) }
{
    header(
        alloc,
        &[
            "account", "name", "open dr", "open cr", "turn dr", "turn cr", "close dr", "close cr",
        ],
    )
}

fn push_rows(
    alloc: Global,
    chart: &Chart,
    rows: &[AccountRow],
    lines: &mut List<List<Text>>,
) -> Result<(), Memory>
    ensures { OnOk result (lines.new ≡ lines.old ++ map (line_of chart.now) rows.now) }
{
    'rows: for row in rows {
        lines.push(trial_line(alloc, chart, row)?)?;
    }
    Ok(())
}

fn trial_line(alloc: Global, chart: &Chart, row: &AccountRow) -> Result<List<Text>, Memory>
    ensures { IfOk result (λ cells. cells ≡ line_of chart.now row.now) }
{
    let mut cells = List::new(alloc);
    cells.push(Text::from_str(alloc, row.account.as_str())?)?;
    cells.push(Text::from_str(alloc, account_name(chart, &row.account))?)?;
    let numbers = [
        row.open_dr,
        row.open_cr,
        row.turn_dr,
        row.turn_cr,
        row.close_dr,
        row.close_cr,
    ];
    push_numbers(alloc, &mut cells, chart.scale, &numbers)?;
    Ok(cells)
}

// The name of the account of this code, where the chart has it.
fn account_name<'a>(chart: &'a Chart, code: &Code) -> &'a str
    ensures { result.now ≡ shown_name (account_at code.now chart.now.accounts) }
{
    match chart.account(code) {
        Some(account) => account.name.as_str(),
        None => "",
    }
}

// The last line, of the rows of the leaves.
fn total_line(alloc: Global, scale: Scale, leaves: &[&AccountRow]) -> Result<List<Text>, Memory>
    requires few { length leaves.now ≤ 100_000 }
    requires moderate { All HasModerateNumbers (map (λ row. row.now) leaves.now) }
    ensures { let rows = map (λ row. row.now) leaves.now in
        IfOk result (λ cells. cells ≡ line_of_totals scale rows) }
{
    let mut cells = List::new(alloc);
    cells.push(Text::from_str(alloc, "TOTAL")?)?;
    cells.push(Text::from_str(alloc, "")?)?;
    let totals = [
        total_of(leaves, Amount::OpenDr),
        total_of(leaves, Amount::OpenCr),
        total_of(leaves, Amount::TurnDr),
        total_of(leaves, Amount::TurnCr),
        total_of(leaves, Amount::CloseDr),
        total_of(leaves, Amount::CloseCr),
    ];
    push_numbers(alloc, &mut cells, scale, &totals)?;
    Ok(cells)
}
