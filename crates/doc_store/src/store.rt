//! A store: committed documents, and what is staged in slot 0.
ghost use Rattle.std.specs.Prelude.{◌≡◌, None, Some, [], ◌∷◌, ◌<◌, ◌^◌};
ghost use Rattle.std.specs.Prelude.{length, map, IfSome, IfOk, OnOk, OnErr};
ghost use Rattle.std.specs.Option.{option_copied, option_map};
ghost use Rattle.reg_base.specs.Documents.{document_at, holder_of as first_holder, AreInOrder};
ghost use Rattle.reg_base.specs.Documents.{documents_between};
ghost use Rattle.doc_store.specs.declared.staged.Staged.TheVariants as StagedIs;
ghost use Rattle.doc_store.specs.Stores.{IsViewer, empty_store, room_of, seen, kept as with_all};

use crate::committed::Committed;
use crate::dates::numbers_between;
use crate::documents::Documents;
use crate::staged::Staged;
use reg_base::{Code, Date, Doc, Document, List, Memory, Sets};
use std::alloc::Global;
use std::marker::Model;
use std::snapshot::Snapshot;

/// Documents by number with their records, and one change that is staged in slot 0.
///
/// To commit a document takes three calls, of which the first alone wants memory: `room`, `stage`,
/// `keep`. Slot 0 is the only slot yet, and holds one change at the most: it is kept or dropped
/// before the next one is staged.
#[derive(Drop)]
pub struct Store {
    alloc: Global,
    committed: Committed,
    staged: Option<Staged>,
    // What there is room for, which contracts alone ask.
    room: Option<Snapshot<Doc>>,
}

impl Model for Store {
    ghost use Rattle.std.specs.Option.{option_map};
    ghost use Rattle.doc_store.specs.Stores.{Stored, room_of};
    ghost use Rattle.doc_store.specs.Kept.{documents_of, option_list, HasRoom};

    ghost Value = { Stored };

    ghost view = { λ s. record {
      documents = documents_of s.committed.places.entries;
      staged = option_list s.staged;
      room = option_map (λ r. room_of r.value) s.room;
    } };

    ghost invariant = { λ s. HasRoom s.committed s.staged
        (option_map (λ r. room_of r.value) s.room) };
}

impl Store {
    /// A store without documents, for a configuration with so many registers and ledgers.
    pub fn new(alloc: Global, _registers: u8, _ledgers: u8) -> Result<Store, Memory>
        ensures { IfOk result (λ store. store ≡ empty_store) }
    {
        Ok(Store {
            alloc,
            committed: Committed::new(alloc),
            staged: None,
            room: None,
        })
    }

    /// Makes the room that to stage this document and to keep it needs. No answer changes.
    pub fn room(&mut self, slot: u8, doc: &Doc, _sets: &Sets) -> Result<(), Memory>
        requires slot { slot ≡ 0 }
        ensures ok { OnOk result
            (self.new ≡ record self.old { room = Some (room_of doc.now) }) }
        ensures err { OnErr result (self.new ≡ self.old) }
    {
        self.committed.make_room(self.alloc, doc.number, doc.key)?;
        self.room = Some(Snapshot::of(doc));
        Ok(())
    }

    /// Stages a document, for which the last `room` was made. It takes no memory.
    pub fn stage(&mut self, slot: u8, doc: Doc, sets: Sets)
        requires slot { slot ≡ 0 }
        requires empty { self.old.staged ≡ [] }
        requires room { self.old.room ≡ Some (room_of doc) }
        ensures { self.new ≡ record self.old {
          staged = StagedIs.Put (record { doc = doc; sets = sets }) ∷ [];
          room = None;
        } }
    {
        self.staged = Some(Staged::Put(Document { doc, sets }));
        self.room = None;
    }

    /// Stages the removal of a document, which no memory is needed to keep.
    pub fn stage_removal(&mut self, slot: u8, number: u32) -> Result<(), Memory>
        requires slot { slot ≡ 0 }
        requires empty { self.old.staged ≡ [] }
        ensures ok { OnOk result
            (self.new ≡ record self.old { staged = StagedIs.Removal number ∷ []; room = None }) }
        ensures err { OnErr result (self.new ≡ self.old) }
    {
        self.staged = Some(Staged::Removal(number));
        self.room = None;
        Ok(())
    }

    /// Commits what is staged. It takes no memory.
    pub fn keep(&mut self, slot: u8)
        requires { slot ≡ 0 }
        ensures { self.new ≡ record {
          documents = with_all self.old.documents self.old.staged;
          staged = [];
          room = None;
        } }
    {
        self.room = None;
        match self.staged.take() {
            Some(Staged::Put(document)) => self.committed.put(document),
            Some(Staged::Removal(number)) => self.committed.remove(number),
            None => {}
        }
    }

    /// Forgets what is staged. It takes no memory.
    pub fn drop_slot(&mut self, slot: u8)
        requires { slot ≡ 0 }
        ensures { self.new ≡ record self.old { staged = []; room = None } }
    {
        self.room = None;
        if let Some(Staged::Put(document)) = self.staged.take() {
            let Document { doc, sets: _ } = document;
            self.committed.give_up_room(doc.number, doc.key);
        }
    }

    /// The head of the document of this number that the viewer sees: None sees committed documents,
    /// slot 0 what is staged there besides.
    pub fn doc(&self, viewer: Option<u8>, number: u32) -> Option<&Doc>
        requires { IsViewer viewer }
        ensures { option_copied result
            ≡ option_map (λ d. d.doc) (document_at number (seen viewer self.now)) }
    {
        match self.seen_document(viewer, number) {
            Some(document) => Some(&document.doc),
            None => None,
        }
    }

    // The document of this number that the viewer sees.
    fn seen_document(&self, viewer: Option<u8>, number: u32) -> Option<&Document>
        requires { IsViewer viewer }
        ensures { option_copied result ≡ document_at number (seen viewer self.now) }
    {
        if viewer.is_none() {
            return self.committed.find(number);
        }
        match &self.staged {
            Some(Staged::Put(document)) => self.committed.find_with(document, number),
            Some(Staged::Removal(removed)) => self.committed.find_without(*removed, number),
            None => self.committed.find(number),
        }
    }

    /// The committed document of this number with its records.
    pub fn document(&self, number: u32) -> Option<&Document>
        ensures value { option_copied result ≡ document_at number self.now.documents }
        ensures numbered { IfSome result (λ document. document.now.doc.number ≡ number) }
    {
        self.committed.find(number)
    }

    /// The least number of a document that the viewer sees and that has this key.
    pub fn by_key(&self, viewer: Option<u8>, key: &Code) -> Option<u32>
        requires { IsViewer viewer }
        ensures { result ≡ first_holder key.now (seen viewer self.now) }
    {
        if viewer.is_none() {
            return self.committed.holder(key, None);
        }
        match &self.staged {
            Some(Staged::Put(document)) => self.committed.holder_with(document, key),
            Some(Staged::Removal(number)) => self.committed.holder(key, Some(*number)),
            None => self.committed.holder(key, None),
        }
    }

    /// The numbers of the committed documents whose dates lie in a range, both ends included, in
    /// order of date and, within a second, of number.
    pub fn documents(&self, from: Date, to: Date) -> Result<List<u32>, Memory>
        ensures { IfOk result (λ numbers. numbers
            ≡ map (λ d. d.doc.number) (documents_between from to self.now.documents)) }
    {
        numbers_between(self.alloc, self.walk(), from, to)
    }

    /// The committed documents in order of number.
    pub fn walk(&self) -> Documents<'_>
        ensures walk { result ≡ self.now.documents }
        ensures ordered { AreInOrder self.now.documents }
        ensures fits { length self.now.documents < 2 ^ 63 }
    {
        self.committed.documents()
    }

    /// How many documents are committed.
    pub fn count(&self) -> usize
        ensures count { result ≡ length self.now.documents }
        ensures ordered { AreInOrder self.now.documents }
    {
        self.committed.count()
    }
}
