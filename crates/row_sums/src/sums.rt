//! Sums by group.
//!
//! Kept: a map from each group to its sums, which contracts see as rows in order of group. A row of
//! zeros may be there or not: what starts from the rows of a balance has none at first.
ghost use Rattle.std.specs.Prelude.{◌≡◌, ℕ, List, [], ◌∷◌, ◌++◌, ◌^◌, ◌<◌, pos, not, filter};
ghost use Rattle.std.specs.Prelude.{Option, Some, IfOk, OnOk};
ghost use Rattle.std.specs.Option.{option_copied};
ghost use Rattle.std.specs.List.{list_any};
ghost use Rattle.std.specs.Ordering.{int_eq};
ghost use Rattle.reg_base.specs.Records.{Booked};
ghost use Rattle.reg_base.specs.Balances.{group_values as values_of_group, total};
ghost use Rattle.reg_base.specs.Balances.{is_shown, sum_rows};
ghost use Rattle.row_sums.specs.Sums.{booked, groups_in, IsRising, AddsUp, AreInReach, Adds};
ghost use Rattle.row_sums.specs.Rows.{rows_of, sums_at, with_row};

use crate::groups::group_values;
use crate::raised::{first_sums, raise, sum_in};
use reg_base::{List, Memory, Rec, SumRow, Value};
use std::alloc::Global;
use std::collections::BTreeMap;
use std::marker::Model;

/// Sums by group, seen as rows in order of group.
#[derive(Drop)]
pub struct RowSums {
    sums: BTreeMap<Vec<Value>, Vec<i128>>,
}

impl Model for RowSums {
    ghost use Rattle.std.specs.Prelude.{List};
    ghost use Rattle.reg_base.specs.declared.records.SumRow.{SumRow};
    ghost use Rattle.row_sums.specs.Rows.{rows_of};

    ghost Value = { List SumRow };

    ghost view = { λ s. rows_of s.sums.entries };
}

impl RowSums {
    /// Sums of no records.
    pub fn new(alloc: Global) -> RowSums
        ensures { result ≡ [] }
    {
        RowSums {
            sums: BTreeMap::new(alloc),
        }
    }

    /// Sums that begin with the rows of a balance.
    pub fn from_rows(alloc: Global, rows: List<SumRow>) -> Result<RowSums, Memory>
        ensures same { (by : Option (List ℕ)) (resources : ℕ) (bs : List Booked)
            → rows ≡ sum_rows resources by bs → IfOk result (λ sums. sums ≡ rows) }
        ensures sums { (by : Option (List ℕ)) (resources : ℕ) (bs : List Booked)
            → rows ≡ sum_rows resources by bs → IfOk result (AddsUp by resources bs) }
    {
        let sums = map_of(alloc, rows)?;
        Ok(RowSums { sums })
    }

    /// Adds a record to the row of its group, or makes the row. A group is the values of the
    /// dimensions named, or all values.
    pub fn add(
        &mut self,
        alloc: Global,
        by: Option<&[u8]>,
        resources: usize,
        rec: &Rec,
    ) -> Result<(), Memory>
        requires { AreInReach (2 ^ 46) self.old }
        ensures { (number : ℕ) → IfOk result (λ _. Adds (option_copied by.entry) resources
            (booked number rec.now ∷ []) self.old self.new) }
    {
        match by {
            None => add_to(alloc, &mut self.sums, rec.values.as_slice(), resources, rec),
            Some(dimensions) => add_grouped(alloc, &mut self.sums, dimensions, resources, rec),
        }
    }

    /// The sum of a group at a resource.
    pub fn sum_of(&self, group: &[Value], resource: usize) -> i128
        ensures { (by : Option (List ℕ)) (resources : ℕ) (bs : List Booked)
            → AddsUp by resources bs self.now → resource < resources
            → result ≡ total by group.now bs resource }
    {
        sum_in(totals_of(&self.sums, group), resource)
    }

    /// The rows that are shown, in order of group.
    pub fn into_shown(self, alloc: Global) -> Result<List<SumRow>, Memory>
        ensures reach { (count : ℕ) → AreInReach count self → IfOk result (AreInReach count) }
        ensures rows { (by : Option (List ℕ)) (resources : ℕ) (bs : List Booked)
            → AddsUp by resources bs self
            → IfOk result (λ rows. rows ≡ sum_rows resources by bs) }
    {
        let RowSums { sums } = self;
        shown_rows(alloc, sums)
    }
}

// The sums of a group's row, and none where it has none.
fn totals_of<'a>(sums: &'a BTreeMap<Vec<Value>, Vec<i128>>, group: &[Value]) -> &'a [i128]
    ensures { result.now ≡ sums_at group.now (rows_of sums.now.entries) }
{
    match sums.get(group) {
        Some(totals) => totals.as_slice(),
        None => &[],
    }
}

// The map of rows by their groups.
fn map_of(alloc: Global, rows: List<SumRow>) -> Result<BTreeMap<Vec<Value>, Vec<i128>>, Memory>
    ensures { IsRising (groups_in rows) → IfOk result (λ sums. rows_of sums.entries ≡ rows) }
{
    let mut sums = BTreeMap::new(alloc);
    for row in rows.into_vec() {
        put_row(&mut sums, row)?;
    }
    Ok(sums)
}

// Puts a row into the map.
fn put_row(sums: &mut BTreeMap<Vec<Value>, Vec<i128>>, row: SumRow) -> Result<(), Memory>
    ensures { IfOk result (λ _.
        rows_of sums.new.entries ≡ with_row row (rows_of sums.old.entries)) }
{
    let SumRow {
        group,
        sums: totals,
    } = row;
    sums.insert(group.into_vec(), totals.into_vec())?;
    Ok(())
}

// Adds a record to the row of the values of some dimensions.
fn add_grouped(
    alloc: Global,
    sums: &mut BTreeMap<Vec<Value>, Vec<i128>>,
    dimensions: &[u8],
    resources: usize,
    rec: &Rec,
) -> Result<(), Memory>
    requires { AreInReach (2 ^ 46) (rows_of sums.old.entries) }
    ensures { (number : ℕ) → IfOk result (λ _. Adds (Some dimensions.now) resources
        (booked number rec.now ∷ []) (rows_of sums.old.entries) (rows_of sums.new.entries)) }
{
    let group = group_values(alloc, dimensions, rec.values.as_slice())?;
    add_to(alloc, sums, &group, resources, rec)
}

// Adds a record to the row of its group, or makes the row.
fn add_to(
    alloc: Global,
    sums: &mut BTreeMap<Vec<Value>, Vec<i128>>,
    group: &[Value],
    resources: usize,
    rec: &Rec,
) -> Result<(), Memory>
    requires { AreInReach (2 ^ 46) (rows_of sums.old.entries) }
    ensures { (by : Option (List ℕ)) (number : ℕ) → group.now ≡ values_of_group by rec.now.values
        → IfOk result (λ _. Adds by resources (booked number rec.now ∷ [])
        (rows_of sums.old.entries) (rows_of sums.new.entries)) }
{
    match sums.get_mut(group) {
        Some(found) => {
            raise(found.as_mut_slice(), rec);
            Ok(())
        }
        None => make_row(alloc, sums, group, resources, rec),
    }
}

// Makes the row of a group that has none.
fn make_row(
    alloc: Global,
    sums: &mut BTreeMap<Vec<Value>, Vec<i128>>,
    group: &[Value],
    resources: usize,
    rec: &Rec,
) -> Result<(), Memory>
    requires { sums_at group.now (rows_of sums.old.entries) ≡ [] }
    ensures { (by : Option (List ℕ)) (number : ℕ) → group.now ≡ values_of_group by rec.now.values
        → IfOk result (λ _. Adds by resources (booked number rec.now ∷ [])
        (rows_of sums.old.entries) (rows_of sums.new.entries)) }
{
    let first = first_sums(alloc, rec, resources)?;
    let key = Vec::from_slice(alloc, group)?;
    sums.insert(key, first)?;
    Ok(())
}

// The rows that are not all zeros, in order.
fn shown_rows(alloc: Global, sums: BTreeMap<Vec<Value>, Vec<i128>>) -> Result<List<SumRow>, Memory>
    ensures { IfOk result (λ rows. rows ≡ filter is_shown (rows_of sums.entries)) }
{
    let mut rows = List::new(alloc);
    for (group, totals) in sums {
        push_shown(&mut rows, group, totals)?;
    }
    Ok(rows)
}

// Puts a row behind the others, unless it is all zeros.
fn push_shown(rows: &mut List<SumRow>, group: Vec<Value>, totals: Vec<i128>) -> Result<(), Memory>
    ensures { OnOk result (rows.new ≡ rows.old
        ++ filter is_shown (record { group = group.items; sums = totals.items } ∷ [])) }
{
    if has_some(&totals) {
        rows.push(SumRow {
            group: List::from_vec(group),
            sums: List::from_vec(totals),
        })?;
    }
    Ok(())
}

// Whether not all of the sums are 0.
fn has_some(sums: &[i128]) -> bool
    ensures { result ≡ list_any (λ s. not (int_eq s (pos 0))) sums.now }
{
    sums.iter().any(|sum| *sum != 0)
}
