//! The rows of a balance: the records of documents that it counts, summed by group.
ghost use Rattle.std.specs.Prelude.{◌≡◌, ℕ, ◌≤◌, ◌<◌, ◌^◌, [], ◌∷◌, All, length, map, None, IfOk};
ghost use Rattle.std.specs.List.{flat_map};
ghost use Rattle.std.specs.Option.{option_copied};
ghost use Rattle.reg_base.specs.Records.{booked_by, records_within};
ghost use Rattle.reg_base.specs.Balances.{sum_rows};
ghost use Rattle.row_sums.specs.Sums.{booked, AreInReach};
ghost use Rattle.virt_tables.specs.Bounds.{HasShortRecords};
ghost use Rattle.virt_tables.specs.Cuts.{counts, counted, is_other as is_other_than, AddsFor};

use doc_store::Documents;
use reg_base::{Cut, DocState, Document, Filter, List, Memory, Point, Rec, SumRow, inside};
use row_sums::{RowSums, matches};
use std::alloc::Global;

/// What a balance asks of the documents.
#[derive(Drop)]
pub struct Query<'a> {
    /// The place of the register in the configuration.
    pub register: usize,
    /// How many resources it has.
    pub resources: usize,
    /// The dimensions that make a group; all values do where none are given.
    pub by: Option<&'a [u8]>,
    pub filter: &'a Filter,
    pub cut: &'a Cut,
    /// The number of the document that is left out.
    pub skip: Option<u32>,
}

impl<'a> Query<'a> {
    pub fn new(
        register: usize,
        resources: usize,
        by: Option<&'a [u8]>,
        filter: &'a Filter,
        cut: &'a Cut,
        skip: Option<u32>,
    ) -> Query<'a>
        ensures { result ≡ record {
          register = register;
          resources = resources;
          by = by.entry;
          filter = filter.entry;
          cut = cut.entry;
          skip = skip;
        } }
    {
        Query {
            register,
            resources,
            by,
            filter,
            cut,
            skip,
        }
    }
}

/// The rows of all records inside a cut, a row for each list of values.
pub fn all_rows(
    alloc: Global,
    documents: Documents<'_>,
    register: usize,
    resources: usize,
    cut: &Cut,
) -> Result<List<SumRow>, Memory>
    requires few { length documents < 2 ^ 32 }
    requires short { All HasShortRecords documents }
    ensures { IfOk result (λ rows. rows ≡ sum_rows resources None
        (records_within cut.now (flat_map (booked_by register) documents.entry))) }
{
    let filter = Filter {
        lists: List::new(alloc),
    };
    let query = Query::new(register, resources, None, &filter, cut, None);
    balance_rows(alloc, documents, &query)
}

/// The rows of the records that a balance counts.
pub fn balance_rows(
    alloc: Global,
    documents: Documents<'_>,
    query: &Query<'_>,
) -> Result<List<SumRow>, Memory>
    requires few { length documents < 2 ^ 32 }
    requires short { All HasShortRecords documents }
    ensures { IfOk result (λ rows. rows ≡ sum_rows query.now.resources
        (option_copied query.now.by)
        (counted query.now (flat_map (booked_by query.now.register) documents.entry))) }
{
    let mut sums = RowSums::new(alloc);
    for document in documents {
        let set = counted_set(document, query.register);
        add_set(alloc, &mut sums, set, document.doc.number, query)?;
    }
    sums.into_shown(alloc)
}

/// The records of a document in a register, where they count.
pub(crate) fn counted_set(document: &Document, register: usize) -> &[Rec]
    requires { HasShortRecords document.now }
    ensures value { map (booked document.now.doc.number) result.now
        ≡ booked_by register document.now }
    ensures short { length result.now ≤ 5_000 }
{
    if document.doc.state != DocState::Posted || !document.doc.active {
        return &[];
    }
    match document.sets.registers.get(register) {
        Some(set) => set.as_slice(),
        None => &[],
    }
}

// Adds the records of a set that the balance counts.
fn add_set(
    alloc: Global,
    sums: &mut RowSums,
    set: &[Rec],
    number: u32,
    query: &Query<'_>,
) -> Result<(), Memory>
    requires reach { AreInReach (2 ^ 45) sums.old }
    requires short { length set.now ≤ 5_000 }
    ensures { IfOk result (λ _.
        AddsFor query.now (map (booked number) set.now) sums.old sums.new) }
{
    for rec in set {
        add_counted(alloc, sums, rec, number, query)?;
    }
    Ok(())
}

// Adds a record, where the balance counts it.
fn add_counted(
    alloc: Global,
    sums: &mut RowSums,
    rec: &Rec,
    number: u32,
    query: &Query<'_>,
) -> Result<(), Memory>
    requires { AreInReach (2 ^ 46) sums.old }
    ensures { IfOk result (λ _. AddsFor query.now (booked number rec.now ∷ []) sums.old sums.new) }
{
    if !is_counted(rec, number, query) {
        return Ok(());
    }
    sums.add(alloc, query.by, query.resources, rec)
}

// Whether the balance counts a record.
fn is_counted(rec: &Rec, number: u32, query: &Query<'_>) -> bool
    ensures { result ≡ counts query.now (booked number rec.now) }
{
    let point = Point {
        date: rec.period,
        doc: number,
    };
    is_other(number, query.skip)
        && matches(query.filter, rec.values.as_slice())
        && inside(*query.cut, point)
}

// Whether a document is not the one that is left out.
fn is_other(number: u32, skip: Option<u32>) -> bool
    ensures { result ≡ is_other_than skip number }
{
    match skip {
        Some(skip) => number != skip,
        None => true,
    }
}
