//! Balances: the sums of the records inside a cut, by group.
ghost use Rattle.std.specs.Prelude.{◌≡◌, ◌≤◌, ◌<◌, ◌^◌, All, length, IfOk};
ghost use Rattle.std.specs.Option.{option_copied};
ghost use Rattle.reg_base.specs.Tries.{Tries};
ghost use Rattle.reg_base.specs.Records.{records_of};
ghost use Rattle.reg_base.specs.Balances.{balance_of};
ghost use Rattle.virt_tables.specs.Bounds.{HasShortRecords};
ghost use Rattle.reg_base.specs.Turnovers.{limited_rows};

use crate::ask::Ask;
use crate::cuts::{Query, balance_rows};
use crate::limits::limit_rows;
use doc_store::Documents;
use reg_base::{Cut, Fault, List, Memory, SumRow, TableFault};
use std::alloc::Global;

/// The balance of a register of so many resources: the sums of its records inside a cut, by group.
pub fn balance(
    alloc: Global,
    ask: &Ask,
    cut: &Cut,
    resources: usize,
    documents: Documents<'_>,
) -> Result<List<SumRow>, Fault<TableFault>>
    requires few { length documents < 2 ^ 32 }
    requires short { All HasShortRecords documents }
    ensures { Tries result (limited_rows (balance_of resources
        (records_of ask.now.register documents.entry) ask.now.filter ask.now.group cut.now)) }
{
    let rows = asked_rows(alloc, ask, cut, resources, documents)?;
    limit_rows(rows)
}

// The rows of all groups.
fn asked_rows(
    alloc: Global,
    ask: &Ask,
    cut: &Cut,
    resources: usize,
    documents: Documents<'_>,
) -> Result<List<SumRow>, Memory>
    requires few { length documents < 2 ^ 32 }
    requires short { All HasShortRecords documents }
    ensures { IfOk result (λ rows. rows ≡ balance_of resources
        (records_of ask.now.register documents.entry) ask.now.filter ask.now.group cut.now) }
{
    let group = places_of(&ask.group);
    let query = Query::new(ask.register, resources, group, &ask.filter, cut, None);
    balance_rows(alloc, documents, &query)
}

// The places of the dimensions that make a group.
fn places_of(group: &Option<List<u8>>) -> Option<&[u8]>
    ensures { option_copied result ≡ group.now }
{
    match group {
        Some(places) => Some(places.as_slice()),
        None => None,
    }
}
