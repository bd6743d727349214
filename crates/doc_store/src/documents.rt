//! The walk over the committed documents.
ghost use Rattle.std.specs.Prelude.{◌≡◌};
ghost use Rattle.std.specs.Iterator.{YieldsFirstRef, item_count};
ghost use Rattle.doc_store.specs.Kept.{documents_of};

use crate::place::Place;
use reg_base::Document;
use std::collections::btree_map;
use std::marker::Model;

/// The documents that a walk has left, in order of number.
#[derive(Drop)]
pub struct Documents<'a> {
    places: btree_map::Iter<'a, u32, Place>,
}

impl<'a> Model for Documents<'a> {
    ghost use Rattle.std.specs.Prelude.{List};
    ghost use Rattle.reg_base.specs.declared.records.Document.{Document};
    ghost use Rattle.doc_store.specs.Kept.{documents_of};

    ghost Value = { List Document };

    ghost view = { λ d. documents_of d.places };
}

impl<'a> Documents<'a> {
    /// A walk over the documents that stand in places.
    pub(crate) fn new(places: btree_map::Iter<'a, u32, Place>) -> Documents<'a>
        ensures { result ≡ documents_of places.entry }
    {
        Documents { places }
    }
}

impl<'a> Iterator for Documents<'a> {
    type Item = &'a Document;

    ghost next_gives = { YieldsFirstRef (λ documents. documents) };

    ghost remaining = { item_count (λ documents. documents) };

    fn next(&mut self) -> Option<&'a Document> {
        while let Some((_, place)) = self.places.next() {
            if let Some(document) = place.document() {
                return Some(document);
            }
        }
        None
    }
}
