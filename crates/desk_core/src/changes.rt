//! The changes of a desk: what they leave, and how they are staged.
ghost use Rattle.std.specs.Prelude.{◌≡◌, ◌≤◌, [], OnOk, OnErr};
ghost use Rattle.reg_base.specs.Documents.{with_document, without_document};
ghost use Rattle.desk_model.specs.Limits.{records_in};
ghost use Rattle.desk_core.specs.DeskViews.{IsShortChange};
ghost use Rattle.desk_core.specs.Changes.{DropsBack, IsLeft, Stages};
ghost use Rattle.desk_plans.specs.Bounds.{IsWithinBounds};

use crate::desk::Desk;
use crate::outcome::Change;
use desk_plans::record_count;
use doc_store::Store;
use reg_base::{Date, Document, Memory};

/// What a change leaves of the counts of a desk.
#[derive(Drop)]
pub struct Left {
    pub records: u32,
    pub top: u32,
    pub closed: Date,
}

impl Desk {
    // What a change leaves of the counts.
    pub(crate) fn left_by(&self, change: &Change) -> Left
        requires { IsShortChange change.now }
        ensures value { IsLeft self.now.desk change.now result }
        ensures few { result.records ≤ 8_200_000 }
    {
        match change {
            Change::Put(document) => Left {
                records: self.records_with(document),
                top: self.top.max(document.doc.number),
                closed: self.closed,
            },
            Change::Remove(number) => Left {
                records: self.records_without(*number),
                top: self.top,
                closed: self.closed,
            },
            Change::Close(date) => Left {
                records: self.records,
                top: self.top,
                closed: *date,
            },
        }
    }

    // How many records there are with a document in the place of its number.
    fn records_with(&self, document: &Document) -> u32
        requires { IsWithinBounds document.now }
        ensures value { result
            ≡ records_in (with_document document.now self.now.desk.serial.documents) }
        ensures few { result ≤ 8_200_000 }
    {
        self.records_without(document.doc.number) + record_count(document)
    }

    // How many records there are without the document of a number.
    fn records_without(&self, number: u32) -> u32
        ensures value { result
            ≡ records_in (without_document number self.now.desk.serial.documents) }
        ensures few { result ≤ 8_000_000 }
    {
        match self.store.document(number) {
            Some(document) => self.records - record_count(document),
            None => self.records,
        }
    }
}

// Stages a change of documents; a closed date stages nothing.
pub(crate) fn stage(store: &mut Store, change: Change) -> Result<(), Memory>
    requires { store.old.staged ≡ [] }
    ensures ok { OnOk result (Stages store.old store.new change) }
    ensures err { OnErr result (DropsBack store.old store.new) }
{
    match change {
        Change::Put(document) => stage_document(store, document),
        Change::Remove(number) => store.stage_removal(0, number),
        Change::Close(_) => Ok(()),
    }
}

// Stages a document that is to be put.
fn stage_document(store: &mut Store, document: Document) -> Result<(), Memory>
    requires { store.old.staged ≡ [] }
    ensures ok { OnOk result (Stages store.old store.new (Change.Put document)) }
    ensures err { OnErr result (DropsBack store.old store.new) }
{
    let Document { doc, sets } = document;
    store.room(0, &doc, &sets)?;
    store.stage(0, doc, sets);
    Ok(())
}
