//! Sums by group and unit.
//!
//! Kept: a map from each key, a group with a unit, to its sums, which contracts see as rows in
//! order of key. A key stays once something was added to it, also where its sums are 0.
ghost use Rattle.std.specs.Prelude.{◌≡◌, ℕ, [], ◌∷◌, ◌^◌, ◌+ℤ◌, length, map, IfOk};
ghost use Rattle.std.specs.List.{range_with_len};
ghost use Rattle.table_sums.specs.Additions.{number_at, IsInReach, AreInReach, Adds, addition};
ghost use Rattle.table_sums.specs.Rows.{rows_of};

use crate::column_sums::added;
use reg_base::{List, Memory, Unit, Value};
use std::alloc::Global;
use std::collections::BTreeMap;
use std::marker::Model;

/// The sums of a group in a unit: a number per column.
#[derive(Drop)]
pub struct UnitSums {
    pub group: List<Value>,
    pub unit: Unit,
    pub sums: List<i128>,
}

/// Sums by group and unit, seen as rows in order of key.
#[derive(Drop)]
pub struct TableSums {
    sums: BTreeMap<(Vec<Value>, Unit), Vec<i128>>,
}

impl Model for TableSums {
    ghost use Rattle.std.specs.Prelude.{List};
    ghost use Rattle.table_sums.specs.declared.sums.UnitSums.{UnitSums};
    ghost use Rattle.table_sums.specs.Rows.{rows_of};

    ghost Value = { List UnitSums };

    ghost view = { λ s. rows_of s.sums.entries };
}

impl TableSums {
    /// Sums to which nothing is added.
    pub fn new(alloc: Global) -> TableSums
        ensures { result ≡ [] }
    {
        TableSums {
            sums: BTreeMap::new(alloc),
        }
    }

    /// Adds a number per column to the row of a group and a unit, or makes the row.
    pub fn add(
        &mut self,
        alloc: Global,
        group: Vec<Value>,
        unit: Unit,
        numbers: Vec<i128>,
    ) -> Result<(), Memory>
        requires reach { AreInReach (2 ^ 46) self.old }
        requires small { (j : ℕ) → IsInReach 1 (number_at numbers.items j) }
        ensures { IfOk result (λ _. Adds (length numbers.items)
            (addition group.items unit numbers.items ∷ []) self.old self.new) }
    {
        add_to(alloc, &mut self.sums, (group, unit), numbers)
    }

    /// The rows, in order of key.
    pub fn into_rows(self, alloc: Global) -> Result<List<UnitSums>, Memory>
        ensures { IfOk result (λ rows. rows ≡ self) }
    {
        let TableSums { sums } = self;
        listed(alloc, sums)
    }
}

// Adds numbers to the sums of a key, or makes them its sums.
fn add_to(
    alloc: Global,
    sums: &mut BTreeMap<(Vec<Value>, Unit), Vec<i128>>,
    key: (Vec<Value>, Unit),
    numbers: Vec<i128>,
) -> Result<(), Memory>
    requires reach { AreInReach (2 ^ 46) (rows_of sums.old.entries) }
    requires small { (j : ℕ) → IsInReach 1 (number_at numbers.items j) }
    ensures { IfOk result (λ _. Adds (length numbers.items)
        (addition key.0.items key.1 numbers.items ∷ [])
        (rows_of sums.old.entries) (rows_of sums.new.entries)) }
{
    match sums.get_mut(&key) {
        Some(found) => {
            *found = total(alloc, found, &numbers)?;
        }
        None => {
            sums.insert(key, numbers)?;
        }
    }
    Ok(())
}

// The sums with the numbers of their columns added.
fn total(alloc: Global, sums: &Vec<i128>, numbers: &Vec<i128>) -> Result<Vec<i128>, Memory>
    requires reach { (j : ℕ) → IsInReach (2 ^ 60) (number_at sums.now.items j) }
    requires small { (j : ℕ) → IsInReach (2 ^ 60) (number_at numbers.now.items j) }
    ensures { IfOk result (λ totals. totals.items
        ≡ map (λ j. number_at numbers.now.items j +ℤ number_at sums.now.items j)
        (range_with_len 0 (length sums.now.items))) }
{
    added(alloc, sums.as_slice(), numbers.as_slice())
}

// The rows of a map, in order.
fn listed(
    alloc: Global,
    sums: BTreeMap<(Vec<Value>, Unit), Vec<i128>>,
) -> Result<List<UnitSums>, Memory>
    ensures { IfOk result (λ rows. rows ≡ rows_of sums.entries) }
{
    let mut rows = List::new(alloc);
    for ((group, unit), totals) in sums {
        rows.push(UnitSums {
            group: List::from_vec(group),
            unit,
            sums: List::from_vec(totals),
        })?;
    }
    Ok(rows)
}
