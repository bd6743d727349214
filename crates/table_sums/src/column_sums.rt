//! Numbers added to sums, column by column.
ghost use Rattle.std.specs.Prelude.{◌≡◌, ℕ, ◌^◌, ◌+ℤ◌, length, map, IfOk};
ghost use Rattle.std.specs.List.{range_with_len};
ghost use Rattle.table_sums.specs.Additions.{number_at, IsInReach};

use reg_base::Memory;
use std::alloc::Global;

/// The sums with the numbers of their columns added.
pub fn added(alloc: Global, sums: &[i128], numbers: &[i128]) -> Result<Vec<i128>, Memory>
    requires reach { (j : ℕ) → IsInReach (2 ^ 60) (number_at sums.now j) }
    requires small { (j : ℕ) → IsInReach (2 ^ 60) (number_at numbers.now j) }
    ensures { IfOk result (λ totals. totals.items
        ≡ map (λ j. number_at numbers.now j +ℤ number_at sums.now j)
        (range_with_len 0 (length sums.now))) }
{
    let mut totals = Vec::new(alloc);
    for column in 0..sums.len() {
        totals.push(total_in(sums, numbers, column))?;
    }
    Ok(totals)
}

// The sum of a column with its number added.
fn total_in(sums: &[i128], numbers: &[i128], column: usize) -> i128
    requires reach { IsInReach (2 ^ 60) (number_at sums.now column) }
    requires small { IsInReach (2 ^ 60) (number_at numbers.now column) }
    ensures { result ≡ number_at numbers.now column +ℤ number_at sums.now column }
{
    number_in(numbers, column) + number_in(sums, column)
}

// The number of a column, and 0 where there is none.
fn number_in(numbers: &[i128], column: usize) -> i128
    ensures { result ≡ number_at numbers.now column }
{
    numbers.get(column).copied().unwrap_or(0)
}
