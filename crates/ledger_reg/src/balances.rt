//! Balances of accounts at a cut.
ghost use Rattle.std.specs.Prelude.{◌≡◌, ◌<◌, ◌≤◌, ◌*◌, ◌^◌, All, length, Some as There};
ghost use Rattle.std.specs.Prelude.{IfOk};
ghost use Rattle.std.specs.List.{flat_map};
ghost use Rattle.reg_base.specs.Tries.{Tries};
ghost use Rattle.reg_base.specs.BookedEntries.{entries_of};
ghost use Rattle.reg_base.specs.Turnovers.{limited_rows};
ghost use Rattle.cfg_model.specs.AccountTables.{account_balance_of, by_nature, nature_at};
ghost use Rattle.ledger_reg.specs.Walks.{HasShortLedgers};
ghost use Rattle.ledger_reg.specs.Sizes.{size_of};
ghost use Rattle.ledger_reg.specs.Balances.{sums_size, sum_size, shown_balances, whole_row};
ghost use Rattle.ledger_reg.specs.Balances.{place_row, net_rows, net_row};
ghost use Rattle.ledger_reg.specs.RowLists.{Puts};

use crate::ask::{AccountAsk, asks_for};
use crate::nets::{net_below, net_of};
use crate::rows::put_row;
use crate::sides::{AccountSum, cut_sums};
use cfg_model::{Account, Chart, Nature};
use doc_store::Documents;
use reg_base::{AccountRow, Code, Cut, Fault, List, Memory, TableFault, Unit};
use std::alloc::Global;

/// The balances of accounts at a cut: each account with those below it, or, where rows are told
/// apart by extras, each account and extras that entries have.
pub fn account_balance(
    alloc: Global,
    ask: &AccountAsk,
    cut: &Cut,
    documents: Documents<'_>,
    chart: &Chart,
) -> Result<List<AccountRow>, Fault<TableFault>>
    requires few { length documents < 2 ^ 32 }
    requires short { All HasShortLedgers documents }
    ensures { Tries result (limited_rows (account_balance_of chart.now
        (entries_of ask.now.ledger documents.entry) ask.now.account ask.now.extras cut.now)) }
{
    let sums = cut_sums(alloc, ask.ledger, cut, documents)?;
    balance_rows(alloc, ask, sums.as_slice(), chart)
}

// The rows that are asked for of the balances that sums make.
fn balance_rows(
    alloc: Global,
    ask: &AccountAsk,
    sums: &[AccountSum],
    chart: &Chart,
) -> Result<List<AccountRow>, Fault<TableFault>>
    requires { sums_size sums.now ≤ 2 ^ 64 * 2 ^ 46 }
    ensures { Tries result (limited_rows
        (shown_balances chart.now ask.now.account ask.now.extras sums.now)) }
{
    if ask.extras {
        return place_rows(alloc, sums, &ask.account, chart);
    }
    whole_rows(alloc, chart.accounts.as_slice(), sums, &ask.account, chart)
}

// The rows of accounts, each with those below it.
fn whole_rows(
    alloc: Global,
    accounts: &[Account],
    sums: &[AccountSum],
    asked: &Option<Code>,
    chart: &Chart,
) -> Result<List<AccountRow>, Fault<TableFault>>
    requires { sums_size sums.now ≤ 2 ^ 64 * 2 ^ 46 }
    ensures { Tries result (limited_rows
        (flat_map (whole_row chart.now asked.now sums.now) accounts.now)) }
{
    let mut rows = List::new(alloc);
    for account in accounts {
        put_whole(alloc, &mut rows, account, sums, asked, chart)?;
    }
    Ok(rows)
}

// Puts the row of an account with those below it, where it is shown.
fn put_whole(
    alloc: Global,
    rows: &mut List<AccountRow>,
    account: &Account,
    sums: &[AccountSum],
    asked: &Option<Code>,
    chart: &Chart,
) -> Result<(), Fault<TableFault>>
    requires { sums_size sums.now ≤ 2 ^ 64 * 2 ^ 46 }
    ensures { Puts result (whole_row chart.now asked.now sums.now account.now) rows.old rows.new }
{
    if !asks_for(chart, asked, &account.code) {
        return Ok(());
    }
    let net = net_below(sums, chart, &account.code);
    put_net(rows, account.code, List::new(alloc), &net, chart)
}

// The rows of accounts with extras.
fn place_rows(
    alloc: Global,
    sums: &[AccountSum],
    asked: &Option<Code>,
    chart: &Chart,
) -> Result<List<AccountRow>, Fault<TableFault>>
    requires { sums_size sums.now ≤ 2 ^ 64 * 2 ^ 46 }
    ensures { Tries result (limited_rows (flat_map (place_row chart.now asked.now) sums.now)) }
{
    let mut rows = List::new(alloc);
    for sum in sums {
        put_place(alloc, &mut rows, sum, asked, chart)?;
    }
    Ok(rows)
}

// Puts the row of an account with extras, where it is shown.
fn put_place(
    alloc: Global,
    rows: &mut List<AccountRow>,
    sum: &AccountSum,
    asked: &Option<Code>,
    chart: &Chart,
) -> Result<(), Fault<TableFault>>
    requires { sum_size sum.now ≤ 2 ^ 64 * 2 ^ 46 }
    ensures { Puts result (place_row chart.now asked.now sum.now) rows.old rows.new }
{
    if !asks_for(chart, asked, &sum.account) {
        return Ok(());
    }
    let extras = copy_of(alloc, sum.extras.as_slice())?;
    let net = net_of(sum);
    put_net(rows, sum.account, extras, &net, chart)
}

// A copy of extras.
fn copy_of(alloc: Global, extras: &[Code]) -> Result<List<Code>, Memory>
    ensures { IfOk result (λ copy. copy ≡ extras.now) }
{
    Ok(List::from_slice(alloc, extras)?)
}

// Puts the row of an account with its net, where that is not 0.
fn put_net(
    rows: &mut List<AccountRow>,
    account: Code,
    extras: List<Code>,
    net: &i128,
    chart: &Chart,
) -> Result<(), Fault<TableFault>>
    requires { size_of net.now ≤ 2 ^ 64 * 2 ^ 46 }
    ensures { Puts result
        (net_rows chart.now (record { account = account; extras = There extras }) net.now)
        rows.old rows.new }
{
    if *net == 0 {
        return Ok(());
    }
    let nature = nature_of(chart, &account);
    put_row(rows, row_of(account, extras, &nature, net))
}

// The row that shows a net.
fn row_of(account: Code, extras: List<Code>, nature: &Nature, net: &i128) -> AccountRow
    requires { size_of net.now ≤ 2 ^ 64 * 2 ^ 46 }
    ensures { result
        ≡ net_row (record { account = account; extras = There extras }) nature.now net.now }
{
    let (debit, credit) = both_sides(nature, net);
    AccountRow {
        account,
        extras,
        unit: Unit::Whole,
        open_dr: 0,
        open_cr: 0,
        turn_dr: 0,
        turn_cr: 0,
        close_dr: debit,
        close_cr: credit,
    }
}

/// How an account of this nature shows its net, as debit and as credit.
pub(crate) fn both_sides(nature: &Nature, net: &i128) -> (i128, i128)
    requires { size_of net.now ≤ 2 ^ 64 * 2 ^ 46 }
    ensures { result ≡ by_nature nature.now net.now }
{
    match nature {
        Nature::Active => (*net, 0),
        Nature::Passive => (0, -*net),
        Nature::Both if 0 < *net => (*net, 0),
        Nature::Both => (0, -*net),
    }
}

/// The nature of the account of this code.
pub(crate) fn nature_of(chart: &Chart, code: &Code) -> Nature
    ensures { result ≡ nature_at chart.now code.now }
{
    match chart.account(code) {
        Some(account) => account.nature,
        None => Nature::Both,
    }
}
