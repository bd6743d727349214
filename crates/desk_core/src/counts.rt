//! How many documents, records and entries a desk has.
ghost use Rattle.std.specs.Prelude.{◌≡◌, ◌≤◌, ◌<◌, ◌^◌, length};
ghost use Rattle.std.specs.List.{All, sum_by};
ghost use Rattle.desk_core.specs.Counts.{counts_of, is_active as is_active_of};
ghost use Rattle.desk_core.specs.Counts.{active_postings as postings_of};
ghost use Rattle.desk_core.specs.Counts.{active_records as records_of};
ghost use Rattle.desk_plans.specs.Bounds.{IsWithinBounds};

use crate::desk::Desk;
use desk_plans::total_len;
use doc_store::Documents;
use reg_base::{Doc, DocState, Document};

/// How many documents there are, and how much of them counts: what posted documents have that are
/// active.
#[derive(Clone, Copy, Debug, PartialEq, Eq)]
pub struct Counts {
    pub documents: u32,
    /// Records of registers that count.
    pub records: u32,
    /// Entries of ledgers that count.
    pub postings: u32,
}

// How many records and entries of documents count.
#[derive(Clone, Copy)]
pub(crate) struct Active {
    records: u64,
    postings: u64,
}

impl Desk {
    /// How many documents the desk has, and how many records and entries of theirs count.
    pub fn counts(&self) -> Counts
        ensures { result ≡ counts_of self.now.desk.serial.documents }
    {
        let active = active_in(self.store.walk());
        Counts {
            documents: self.store.count() as u32,
            records: active.records as u32,
            postings: active.postings as u32,
        }
    }
}

// What counts of documents.
fn active_in(documents: Documents<'_>) -> Active
    requires few { length documents < 2 ^ 32 }
    requires short { All IsWithinBounds documents }
    ensures records { result.records ≡ sum_by records_of documents.entry }
    ensures postings { result.postings ≡ sum_by postings_of documents.entry }
{
    let mut active = Active {
        records: 0,
        postings: 0,
    };
    for document in documents {
        active.records += u64::from(active_records(document));
        active.postings += u64::from(active_postings(document));
    }
    active
}

// How many records of a document count.
fn active_records(document: &Document) -> u32
    requires { IsWithinBounds document.now }
    ensures value { result ≡ records_of document.now }
    ensures few { result ≤ 160_000 }
{
    if is_active(&document.doc) {
        total_len(document.sets.registers.as_slice())
    } else {
        0
    }
}

// How many entries of a document count.
fn active_postings(document: &Document) -> u32
    requires { IsWithinBounds document.now }
    ensures value { result ≡ postings_of document.now }
    ensures few { result ≤ 40_000 }
{
    if is_active(&document.doc) {
        total_len(document.sets.ledgers.as_slice())
    } else {
        0
    }
}

// Whether what a document has counts.
fn is_active(doc: &Doc) -> bool
    ensures { result ≡ is_active_of doc.now }
{
    doc.state == DocState::Posted && doc.active
}
