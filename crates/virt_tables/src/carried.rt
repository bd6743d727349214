//! What the rows of a group leave to its next row.
ghost use Rattle.std.specs.Prelude.{◌≡◌, ℕ, ◌*◌, ◌+◌, ◌^◌, ◌≤◌, [], ◌∷◌, unsigned_abs, IfOk};
ghost use Rattle.std.specs.Ordering.{is_eq};
ghost use Rattle.reg_base.specs.Records.{values_cmp};
ghost use Rattle.table_sums.specs.Additions.{number_at};
ghost use Rattle.virt_tables.specs.Both.{opening_after, opened, row_after, turned, IsCarried};
ghost use Rattle.virt_tables.specs.Both.{sums_of as sums_in, zeros as zeros_of};

use crate::turnover_table::split;
use reg_base::{List, Memory, Row, Value};
use std::alloc::Global;
use table_sums::{UnitSums, added};

/// The group of the row before, and its closing.
#[derive(Drop)]
pub struct Carried {
    pub group: List<Value>,
    pub balance: List<i128>,
}

impl Carried {
    /// Nothing, before the first row.
    pub(crate) fn new(alloc: Global, resources: usize) -> Result<Carried, Memory>
        ensures group { IfOk result (λ carried. carried.group ≡ []) }
        ensures balance { IfOk result (λ carried. carried.balance ≡ zeros_of resources) }
    {
        Ok(Carried {
            group: List::new(alloc),
            balance: List::from_vec(zeros(alloc, resources)?),
        })
    }

    /// What a row leaves.
    pub(crate) fn behind(alloc: Global, row: &Row) -> Result<Carried, Memory>
        ensures group { IfOk result (λ carried. carried.group ≡ row.now.group) }
        ensures balance { IfOk result (λ carried. carried.balance ≡ row.now.closing) }
    {
        let group = copied_values(alloc, &row.group)?;
        let balance = copied_numbers(alloc, row.closing.as_slice())?;
        Ok(Carried { group, balance })
    }

    /// The row of sums behind those before it.
    pub(crate) fn row(&self, alloc: Global, resources: usize, sums: UnitSums) -> Result<Row, Memory>
        requires { IsCarried resources self.now.balance (sums ∷ []) }
        ensures { IfOk result (λ row. row
            ≡ row_after resources self.now.group self.now.balance sums) }
    {
        let opening = self.opening(alloc, resources, &sums)?;
        opened_row(alloc, resources, opening, sums)
    }

    // The opening of a row: what is carried to its group, and what stood before the range.
    fn opening(
        &self,
        alloc: Global,
        resources: usize,
        sums: &UnitSums,
    ) -> Result<List<i128>, Memory>
        requires { IsCarried resources self.now.balance (sums.now ∷ []) }
        ensures { IfOk result (λ opening. opening
            ≡ opening_after resources self.now.group self.now.balance sums.now) }
    {
        let (before, _) = split(sums.sums.as_slice(), resources);
        if !is_group(&sums.group, &self.group) {
            return copied_numbers(alloc, before);
        }
        sums_with(alloc, self.balance.as_slice(), before)
    }
}

// The row of sums with its opening.
fn opened_row(
    alloc: Global,
    resources: usize,
    opening: List<i128>,
    sums: UnitSums,
) -> Result<Row, Memory>
    requires { (j : ℕ) → unsigned_abs (number_at opening j)
        + unsigned_abs (number_at (turned resources sums) j) ≤ 2 ^ 63 * 2 ^ 47 }
    ensures { IfOk result (λ row. row ≡ opened resources opening sums) }
{
    let (_, others) = split(sums.sums.as_slice(), resources);
    let (receipt, others) = split(others, resources);
    let (expense, turnover) = split(others, resources);
    let closing = sums_with(alloc, opening.as_slice(), turnover)?;
    let receipt = copied_numbers(alloc, receipt)?;
    let expense = copied_numbers(alloc, expense)?;
    let turnover = copied_numbers(alloc, turnover)?;
    Ok(Row {
        group: sums.group,
        unit: sums.unit,
        opening,
        receipt,
        expense,
        turnover,
        closing,
    })
}

// Whether two groups are the same.
fn is_group(group: &List<Value>, other: &List<Value>) -> bool
    ensures { result ≡ is_eq (values_cmp group.now other.now) }
{
    group.as_slice().cmp(other.as_slice()).is_eq()
}

// So many numbers of 0.
fn zeros(alloc: Global, count: usize) -> Result<Vec<i128>, Memory>
    ensures { IfOk result (λ numbers. numbers.items ≡ zeros_of count) }
{
    let mut numbers = Vec::new(alloc);
    for column in 0..count {
        let _ = column;
        numbers.push(0)?;
    }
    Ok(numbers)
}

// A copy of a group.
fn copied_values(alloc: Global, values: &List<Value>) -> Result<List<Value>, Memory>
    ensures { IfOk result (λ copy. copy ≡ values.now) }
{
    Ok(List::from_slice(alloc, values.as_slice())?)
}

// A copy of numbers.
fn copied_numbers(alloc: Global, numbers: &[i128]) -> Result<List<i128>, Memory>
    ensures { IfOk result (λ copy. copy ≡ numbers.now) }
{
    Ok(List::from_slice(alloc, numbers)?)
}

// Numbers with others added, column by column.
fn sums_with(alloc: Global, numbers: &[i128], others: &[i128]) -> Result<List<i128>, Memory>
    requires { (j : ℕ) → unsigned_abs (number_at numbers.now j)
        + unsigned_abs (number_at others.now j) ≤ 2 ^ 63 * 2 ^ 47 }
    ensures { IfOk result (λ sums. sums ≡ sums_in numbers.now others.now) }
{
    Ok(List::from_vec(added(alloc, numbers, others)?))
}
