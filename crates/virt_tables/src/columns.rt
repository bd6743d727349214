//! The numbers of a record, as the columns of a table have them.
ghost use Rattle.std.specs.Prelude.{◌≡◌, ℕ, [], ◌++◌, map, IfOk};
ghost use Rattle.std.specs.List.{range_with_len};
ghost use Rattle.reg_base.specs.Records.{amount_at as amount_of};
ghost use Rattle.reg_base.specs.Turnovers.{recorded_at as recorded_of, receipt_at as receipt_of};
ghost use Rattle.reg_base.specs.Turnovers.{expense_at as expense_of};
ghost use Rattle.table_sums.specs.Additions.{number_at, IsInReach};
ghost use Rattle.virt_tables.specs.Columns.{column_at as column_of, columns_of as columns_in};
ghost use Rattle.virt_tables.specs.Columns.{numbers_of as numbers_in, AreSmall};

use reg_base::{Mark, Memory, Rec};
use std::alloc::Global;

/// What a column sums.
#[derive(Clone, Copy)]
pub enum Column {
    /// The numbers of receipts, as they stand.
    Receipt,
    /// The numbers of expenses, as they stand.
    Expense,
    /// The signed amounts.
    Amount,
    /// Nothing: each number is 0.
    Nothing,
}

/// The numbers of a record: those of all resources, column by column.
pub(crate) fn numbers_of(
    alloc: Global,
    columns: &[Column],
    resources: usize,
    rec: &Rec,
) -> Result<Vec<i128>, Memory>
    ensures value { IfOk result (λ numbers. numbers.items
        ≡ numbers_in columns.now resources rec.now) }
    ensures small { IfOk result (λ numbers. AreSmall numbers.items) }
{
    let mut numbers = Vec::new(alloc);
    for column in columns {
        push_column(&mut numbers, column, resources, rec)?;
    }
    Ok(numbers)
}

/// The columns of turnovers: a register without balances has the last alone.
pub(crate) fn columns_of(balances: bool) -> &'static [Column]
    ensures { result.now ≡ columns_in balances }
{
    if balances {
        &[Column::Receipt, Column::Expense, Column::Amount]
    } else {
        &[Column::Amount]
    }
}

// Puts the numbers of a column behind the others, resource by resource.
fn push_column(
    numbers: &mut Vec<i128>,
    column: &Column,
    resources: usize,
    rec: &Rec,
) -> Result<(), Memory>
    requires { AreSmall numbers.old.items }
    ensures value { IfOk result (λ _. numbers.new.items ≡ numbers.old.items
        ++ map (λ j. column_of column.now j rec.now) (range_with_len 0 resources)) }
    ensures small { IfOk result (λ _. AreSmall numbers.new.items) }
{
    for resource in 0..resources {
        numbers.push(column_at(column, rec, resource))?;
    }
    Ok(())
}

// The number of a record in a column, at a resource.
fn column_at(column: &Column, rec: &Rec, resource: usize) -> i128
    ensures value { result ≡ column_of column.now resource rec.now }
    ensures small { IsInReach 1 result }
{
    match column {
        Column::Receipt => receipt_at(rec, resource),
        Column::Expense => expense_at(rec, resource),
        Column::Amount => amount_at(rec, resource),
        Column::Nothing => 0,
    }
}

// The number of a receipt, and 0 for other marks.
fn receipt_at(rec: &Rec, resource: usize) -> i128
    ensures value { result ≡ receipt_of resource rec.now }
    ensures small { IsInReach 1 result }
{
    match rec.mark {
        Mark::Receipt => recorded_at(rec, resource),
        Mark::Expense | Mark::Turn => 0,
    }
}

// The number of an expense, and 0 for other marks.
fn expense_at(rec: &Rec, resource: usize) -> i128
    ensures value { result ≡ expense_of resource rec.now }
    ensures small { IsInReach 1 result }
{
    match rec.mark {
        Mark::Expense => recorded_at(rec, resource),
        Mark::Receipt | Mark::Turn => 0,
    }
}

// The number of a record, an expense with the opposite sign.
fn amount_at(rec: &Rec, resource: usize) -> i128
    ensures value { result ≡ amount_of resource rec.now }
    ensures small { IsInReach 1 result }
{
    let number = recorded_at(rec, resource);
    match rec.mark {
        Mark::Receipt | Mark::Turn => number,
        Mark::Expense => -number,
    }
}

// The number of a record, as it stands.
fn recorded_at(rec: &Rec, resource: usize) -> i128
    ensures value { result ≡ recorded_of resource rec.now }
    ensures small { IsInReach 1 result }
{
    i128::from(rec.sums.get(resource).copied().unwrap_or(0))
}
