//! What is left of the records that an item names.
ghost use Rattle.std.specs.Prelude.{◌≡◌, ℕ, List, [], ◌++◌, ◌≤◌, ◌&&◌, All, Some, length, map};
ghost use Rattle.std.specs.Prelude.{unwrap_or, slice_get, IfOk};
ghost use Rattle.reg_base.specs.Records.{Booked, matches as matches_of};
ghost use Rattle.reg_base.specs.Balances.{sum_rows};
ghost use Rattle.post_model.specs.Lefts.{is_expense as is_expense_of, left_of};
ghost use Rattle.post_model.specs.WriteOffs.{sum_in as sum_in_of, holding_of as holding_in};
ghost use Rattle.post_model.specs.Yields.{depth_of as depth_at, holdings_of, left_sum};
ghost use Rattle.post_rules.specs.Bounds.{AreRowsOfSheet, IsSmallSet, AreSmallHoldings, CanRead};
ghost use Rattle.post_rules.specs.Bounds.{own_expenses, first_sum as first_sum_of};

use crate::places::{depth_of, told_apart};
use crate::reads::filter_of;
use crate::scene::own_point;
use cfg_model::Config;
use doc_store::Balances;
use post_model::Holding;
use reg_base::{Cut, Doc, Filter, Item, List, Mark, Memory, Rec, Sets, SumRow, Value};
use row_sums::{RowSums, matches};
use std::alloc::Global;

// The holdings of what is left: by lots, or all in one.
pub(crate) fn holdings_left<B: Balances>(
    alloc: Global,
    view: &B,
    config: &Config,
    doc: &Doc,
    sets: &Sets,
    item: &Item,
    fifo: bool,
    quantity: u8,
    amount: u8,
) -> Result<List<Holding>, Memory>
    requires reads { CanRead config.now (B.books view.now) (B.resources view.now) }
    requires sets { All IsSmallSet sets.now.registers }
    ensures value { IfOk result (λ holdings. holdings
        ≡ holdings_of config.now fifo item.now.space quantity amount
        (left_of (B.books view.now) doc.now sets.now item.now)) }
    ensures small { IfOk result AreSmallHoldings }
{
    let by = told_apart(alloc, config, item.space, fifo)?;
    let rows = rows_left(alloc, view, config, doc, sets, item, by.as_slice())?;
    holdings_in(alloc, rows.as_slice(), quantity, amount)
}

// The sum of what is left at a resource.
pub(crate) fn sum_left<B: Balances>(
    alloc: Global,
    view: &B,
    config: &Config,
    doc: &Doc,
    sets: &Sets,
    item: &Item,
    resource: u8,
) -> Result<i128, Memory>
    requires reads { CanRead config.now (B.books view.now) (B.resources view.now) }
    requires sets { All IsSmallSet sets.now.registers }
    ensures { IfOk result (λ n. n ≡ left_sum (depth_at config.now item.now.space) resource
        (left_of (B.books view.now) doc.now sets.now item.now)) }
{
    let rows = rows_left(alloc, view, config, doc, sets, item, &[])?;
    Ok(first_sum(rows.as_slice(), resource))
}

// The rows of what is left, by the values of some dimensions.
#[tactic(auto, unfolding(post_model::specs::Lefts::left_of))]
fn rows_left<B: Balances>(
    alloc: Global,
    view: &B,
    config: &Config,
    doc: &Doc,
    sets: &Sets,
    item: &Item,
    by: &[u8],
) -> Result<List<SumRow>, Memory>
    requires reads { CanRead config.now (B.books view.now) (B.resources view.now) }
    requires sets { All IsSmallSet sets.now.registers }
    ensures { IfOk result (λ rows. rows ≡ sum_rows (depth_at config.now item.now.space)
        (Some by.now) (left_of (B.books view.now) doc.now sets.now item.now)) }
{
    let filter = filter_of(alloc, item)?;
    let cut = Cut::BeforePoint(own_point(doc));
    let rows = view.sums(alloc, item.space, &filter, by, &cut, doc.number)?;
    let own = own_records(sets, item.space);
    with_expenses(alloc, rows, own, &filter, by, depth_of(config, item.space))
}

// The records that a document has made in a register.
fn own_records(sets: &Sets, register: u8) -> &[Rec]
    ensures { result.now ≡ unwrap_or (slice_get sets.now.registers register) [] }
{
    match sets.registers.get(usize::from(register)) {
        Some(recs) => recs.as_slice(),
        None => &[],
    }
}

// The rows with the document's own expenses added that are asked for.
fn with_expenses(
    alloc: Global,
    rows: List<SumRow>,
    own: &[Rec],
    filter: &Filter,
    by: &[u8],
    resources: usize,
) -> Result<List<SumRow>, Memory>
    requires rows { AreRowsOfSheet (Some by.now) resources rows }
    requires own { length own.now ≤ 5_000 }
    ensures { (number : ℕ) (bs : List Booked) → rows ≡ sum_rows resources (Some by.now) bs
        → IfOk result (λ all. all ≡ sum_rows resources (Some by.now)
        (bs ++ own_expenses filter.now number own.now)) }
{
    let mut sums = RowSums::from_rows(alloc, rows)?;
    'own: for rec in own {
        if !is_own_expense(rec, filter) {
            continue;
        }
        sums.add(alloc, Some(by), resources, rec)?;
    }
    sums.into_shown(alloc)
}

// Whether a record is an expense that is asked for.
fn is_own_expense(rec: &Rec, filter: &Filter) -> bool
    ensures { result ≡ (is_expense_of rec.now.mark && matches_of filter.now rec.now.values) }
{
    rec.mark == Mark::Expense && matches(filter, rec.values.as_slice())
}

// The holdings of rows.
fn holdings_in(
    alloc: Global,
    rows: &[SumRow],
    quantity: u8,
    amount: u8,
) -> Result<List<Holding>, Memory>
    ensures { IfOk result (λ holdings. holdings ≡ map (holding_in quantity amount) rows.now) }
{
    let mut holdings = List::new(alloc);
    'rows: for row in rows {
        let lot: Option<Value> = row.group.get(0).copied();
        holdings.push(Holding {
            lot,
            quantity: sum_in(row, quantity),
            amount: sum_in(row, amount),
        })?;
    }
    Ok(holdings)
}

// The sum of a row at a resource, and 0 where there is none.
fn sum_in(row: &SumRow, resource: u8) -> i128
    ensures { result ≡ sum_in_of row.now resource }
{
    row.sums.get(usize::from(resource)).copied().unwrap_or(0)
}

// The sum of the first row at a resource, and 0 without one.
fn first_sum(rows: &[SumRow], resource: u8) -> i128
    ensures { result ≡ first_sum_of resource rows.now }
{
    match rows.first() {
        Some(row) => sum_in(row, resource),
        None => 0,
    }
}
