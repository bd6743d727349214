//! The totals of a trial balance.
ghost use Rattle.std.specs.Prelude.{◌≡◌, ◌≤◌, length, map, All, IfOk};
ghost use Rattle.std.specs.List.{list_any};
ghost use Rattle.reg_base.specs.Sums.{sum_over};
ghost use Rattle.cfg_model.specs.Entries.{is_parent};
ghost use Rattle.cfg_model.specs.LedgerLaws.{is_on_balance_leaf as on_balance_leaf};
ghost use Rattle.text_reports.specs.TrialBalances.{leaf_rows as rows_of_leaves};
ghost use Rattle.text_reports.specs.TrialBalances.{HasModerateNumbers};
ghost use Rattle.text_reports.specs.Amounts.{amount_of};

use cfg_model::{Account, Chart};
use reg_base::{AccountRow, Code, Memory};
use std::alloc::Global;

/// One of the numbers of a row.
#[derive(Clone, Copy, Debug, PartialEq, Eq)]
pub(crate) enum Amount {
    OpenDr,
    OpenCr,
    TurnDr,
    TurnCr,
    CloseDr,
    CloseCr,
}

impl Amount {
    fn of(self, row: &AccountRow) -> i128
        ensures { result ≡ amount_of self row.now }
    {
        match self {
            Amount::OpenDr => row.open_dr,
            Amount::OpenCr => row.open_cr,
            Amount::TurnDr => row.turn_dr,
            Amount::TurnCr => row.turn_cr,
            Amount::CloseDr => row.close_dr,
            Amount::CloseCr => row.close_cr,
        }
    }
}

// The rows of the leaves that are not off-balance.
pub(crate) fn leaf_rows<'a>(
    alloc: Global,
    chart: &Chart,
    rows: &'a [AccountRow],
) -> Result<Vec<&'a AccountRow>, Memory>
    ensures { IfOk result (λ leaves.
        map (λ row. row.now) leaves.items ≡ rows_of_leaves chart.now rows.entry.now) }
{
    let mut leaves = Vec::new(alloc);
    'rows: for row in rows {
        if !is_on_balance_leaf(chart, &row.account) {
            continue;
        }
        leaves.push(row)?;
    }
    Ok(leaves)
}

// One number of rows, summed.
pub(crate) fn total_of(rows: &[&AccountRow], amount: Amount) -> i128
    requires few { length rows.now ≤ 100_000 }
    requires moderate { All HasModerateNumbers (map (λ row. row.now) rows.now) }
    ensures { result ≡ sum_over (amount_of amount) (map (λ row. row.now) rows.now) }
{
    let mut total = 0;
    'rows: for row in rows {
        total += amount.of(row);
    }
    total
}

fn is_on_balance_leaf(chart: &Chart, code: &Code) -> bool
    ensures { result ≡ on_balance_leaf chart.now code.now }
{
    if is_any_parent(chart.accounts.as_slice(), code) {
        return false;
    }
    match chart.account(code) {
        Some(account) => !account.off,
        None => false,
    }
}

fn is_any_parent(accounts: &[Account], code: &Code) -> bool
    ensures { result ≡ list_any (is_parent code.now) accounts.now }
{
    accounts.iter().any(|account| is_parent_of(account, code))
}

// Whether this is the code of the account's parent.
fn is_parent_of(account: &Account, code: &Code) -> bool
    ensures { result ≡ is_parent code.now account.now }
{
    match &account.parent {
        Some(parent) => *parent == *code,
        None => false,
    }
}
