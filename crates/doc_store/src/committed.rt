//! The committed documents, with room for those to come.
//!
//! Kept: a place per document by its number, and a pair of key and number per document that has a
//! key. A place without a document and a pair that no document stands behind are room: to commit a
//! document then takes no memory. `spare` counts the places without a document.
//!
//!     places  1: [key a]  2: empty  3: [key b]      keys  (a, 1) (b, 3) (c, 2)      spare  1
//!
//! A pair that no document stands behind does no harm: a look-up by key asks the document itself.
ghost use Rattle.std.specs.Prelude.{◌≡◌, [], ◌+◌, ◌<◌, ◌^◌, length, None, Some, IfOk, OnOk, IsSome};
ghost use Rattle.std.specs.Option.{option_copied, option_flatten, option_map};
ghost use Rattle.std.specs.Ordering.{nat_cmp};
ghost use Rattle.std.specs.BTreeMap.{get, is_at, IsOrdered, Updates};
ghost use Rattle.std.specs.Map.{set_value};
ghost use Rattle.reg_base.specs.Documents.{document_at, with_document, without_document};
ghost use Rattle.reg_base.specs.Documents.{holder_of, AreInOrder};
ghost use Rattle.doc_store.specs.Stores.{Room, room_of};
ghost use Rattle.doc_store.specs.Kept.{IsSound, IsRoomy, documents_in, KeepsRooms, HasPair};
ghost use Rattle.doc_store.specs.Holders.{all_but, has_key_at, least_of, own_number_of};

use crate::documents::Documents;
use crate::index::{KeyPlace, forget_key, is_key};
use crate::place::Place;
use reg_base::{Code, Document, Memory};
use std::alloc::Global;
use std::collections::{BTreeMap, BTreeSet};

#[derive(Drop)]
pub struct Committed {
    pub places: BTreeMap<u32, Place>,
    pub keys: BTreeSet<KeyPlace>,
    pub spare: usize,
}

impl Committed {
    pub fn new(alloc: Global) -> Committed
        ensures sound { IsSound result }
        ensures none { documents_in result ≡ [] }
    {
        Committed {
            places: BTreeMap::new(alloc),
            keys: BTreeSet::new(alloc),
            spare: 0,
        }
    }

    // Makes the room for a document of this number and this key.
    pub fn make_room(&mut self, alloc: Global, number: u32, key: Option<Code>) -> Result<(), Memory>
        requires { IsSound self.old }
        ensures sound { IsSound self.new }
        ensures same { documents_in self.new ≡ documents_in self.old }
        ensures rooms { KeepsRooms self.old self.new }
        ensures ok { OnOk result (IsRoomy self.new (record { number = number; key = key })) }
    {
        self.make_place(alloc, number)?;
        self.make_pair(number, key)
    }

    // Makes the place of a document of this number.
    fn make_place(&mut self, alloc: Global, number: u32) -> Result<(), Memory>
        requires { IsSound self.old }
        ensures sound { IsSound self.new }
        ensures same { documents_in self.new ≡ documents_in self.old }
        ensures rooms { KeepsRooms self.old self.new }
        ensures ok { OnOk result (IsSome (get nat_cmp self.new.places number)) }
    {
        if !self.places.contains_key(&number) {
            let spare = one_more(self.spare)?;
            self.places.insert(number, Place::empty(alloc)?)?;
            self.spare = spare;
        }
        Ok(())
    }

    // Makes the pair of a key with the number of its document.
    fn make_pair(&mut self, number: u32, key: Option<Code>) -> Result<(), Memory>
        requires { IsSound self.old }
        ensures sound { IsSound self.new }
        ensures same { documents_in self.new ≡ documents_in self.old }
        ensures rooms { KeepsRooms self.old self.new }
        ensures places { self.new.places ≡ self.old.places }
        ensures ok { OnOk result (HasPair self.new key number) }
    {
        if let Some(key) = key {
            self.keys.insert(KeyPlace { key, number })?;
        }
        Ok(())
    }

    // Puts a document into its place, for which there is room.
    pub fn put(&mut self, document: Document)
        requires sound { IsSound self.old }
        requires room { IsRoomy self.old (room_of document.doc) }
        ensures sound { IsSound self.new }
        ensures documents { documents_in self.new ≡ with_document document (documents_in self.old) }
    {
        let number = document.doc.number;
        let key = key_of(&document);
        match fill_place(&mut self.places, document) {
            Some(former) => forget_key(&mut self.keys, former, number, key),
            None => self.spare -= 1,
        }
    }

    // Takes a document out with its place.
    pub fn remove(&mut self, number: u32)
        requires { IsSound self.old }
        ensures sound { IsSound self.new }
        ensures documents { documents_in self.new
            ≡ without_document number (documents_in self.old) }
    {
        let Some(place) = self.places.remove(&number) else {
            return;
        };
        match place.document() {
            Some(former) => forget_key(&mut self.keys, former.doc.key, number, None),
            None => self.spare -= 1,
        }
    }

    // Takes back the room of a document that is not put.
    pub fn give_up_room(&mut self, number: u32, key: Option<Code>)
        requires { IsSound self.old }
        ensures sound { IsSound self.new }
        ensures same { documents_in self.new ≡ documents_in self.old }
    {
        match self.find_key(number) {
            Some(stays) => forget_key(&mut self.keys, key, number, stays),
            None => {
                self.remove(number);
                forget_key(&mut self.keys, key, number, None);
            }
        }
    }

    // The key, or none, of the document of a number, where there is one.
    fn find_key(&self, number: u32) -> Option<Option<Code>>
        requires { IsSound self.now }
        ensures { result
            ≡ option_map (λ d. d.doc.key) (document_at number (documents_in self.now)) }
    {
        match self.find(number) {
            Some(document) => Some(document.doc.key),
            None => None,
        }
    }

    pub fn find(&self, number: u32) -> Option<&Document>
        requires { IsSound self.now }
        ensures { option_copied result ≡ document_at number (documents_in self.now) }
    {
        self.places.get(&number)?.document()
    }

    // The document of a number, where this one is put.
    pub fn find_with<'a>(&'a self, document: &'a Document, number: u32) -> Option<&'a Document>
        requires { IsSound self.now }
        ensures { option_copied result
            ≡ document_at number (with_document document.now (documents_in self.now)) }
    {
        if document.doc.number == number {
            Some(document)
        } else {
            self.find(number)
        }
    }

    // The document of a number, where one is taken out.
    pub fn find_without(&self, removed: u32, number: u32) -> Option<&Document>
        requires { IsSound self.now }
        ensures { option_copied result
            ≡ document_at number (without_document removed (documents_in self.now)) }
    {
        if removed == number {
            None
        } else {
            self.find(number)
        }
    }

    // The least number of a document that has the key, where this one is put.
    pub fn holder_with(&self, document: &Document, key: &Code) -> Option<u32>
        requires { IsSound self.now }
        ensures { result
            ≡ holder_of key.now (with_document document.now (documents_in self.now)) }
    {
        let other = self.holder(key, Some(document.doc.number));
        least(own_number(document, key), other)
    }

    // The least number but one of a document that has the key.
    pub fn holder(&self, key: &Code, but: Option<u32>) -> Option<u32>
        requires { IsSound self.now }
        ensures { result ≡ holder_of key.now (all_but but (documents_in self.now)) }
    {
        let first = KeyPlace {
            key: *key,
            number: 0,
        };
        'pairs: for pair in self.keys.range(first..) {
            if pair.key != *key {
                return None;
            }
            if self.has_key(pair.number, key, but) {
                return Some(pair.number);
            }
        }
        None
    }

    // Whether the document of this number, which is not the one left out, has the key.
    fn has_key(&self, number: u32, key: &Code, but: Option<u32>) -> bool
        requires { IsSound self.now }
        ensures { result ≡ has_key_at key.now number (all_but but (documents_in self.now)) }
    {
        if but == Some(number) {
            return false;
        }
        match self.find(number) {
            Some(document) => is_key(key, document.doc.key),
            None => false,
        }
    }

    pub fn documents(&self) -> Documents<'_>
        requires { IsSound self.now }
        ensures walk { result ≡ documents_in self.now }
        ensures ordered { AreInOrder (documents_in self.now) }
        ensures fits { length (documents_in self.now) < 2 ^ 63 }
    {
        Documents::new(self.places.iter())
    }

    pub fn count(&self) -> usize
        requires { IsSound self.now }
        ensures count { result ≡ length (documents_in self.now) }
        ensures ordered { AreInOrder (documents_in self.now) }
    {
        self.places.len() - self.spare
    }
}

// One more than a count.
fn one_more(count: usize) -> Result<usize, Memory>
    ensures { IfOk result (λ more. more ≡ count + 1) }
{
    count.checked_add(1).ok_or(Memory)
}

fn key_of(document: &Document) -> Option<Code>
    ensures { result ≡ document.now.doc.key }
{
    document.doc.key
}

// Puts a document into its place, where there is one. Gives the key, or none, of the document that
// stood there, where one did.
fn fill_place(places: &mut BTreeMap<u32, Place>, document: Document) -> Option<Option<Code>>
    requires { IsSome (get nat_cmp places.old document.doc.number) }
    ensures former { result ≡ option_map (λ d. d.doc.key)
        (option_flatten (get nat_cmp places.old document.doc.number)) }
    ensures places { places.new.entries
        ≡ set_value (is_at (nat_cmp document.doc.number)) places.old.entries (Some document) }
    ensures updates { Updates nat_cmp places.old places.new document.doc.number
        (Some (Some document)) }
    ensures ordered { IsOrdered nat_cmp places.new }
{
    let place = places.get_mut(&document.doc.number)?;
    let former = place.fill(document)?;
    Some(key_of(&former))
}

// The number of a document, where it has the key.
fn own_number(document: &Document, key: &Code) -> Option<u32>
    ensures { result ≡ own_number_of key.now document.now }
{
    if is_key(key, document.doc.key) {
        Some(document.doc.number)
    } else {
        None
    }
}

// The lesser number, where both are there.
fn least(number: Option<u32>, other: Option<u32>) -> Option<u32>
    ensures { result ≡ least_of number other }
{
    match (number, other) {
        (Some(a), Some(b)) if b < a => Some(b),
        (Some(a), _) => Some(a),
        (None, b) => b,
    }
}
