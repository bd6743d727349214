//! The place of one document.
ghost use Rattle.std.specs.Prelude.{◌≡◌, None, Some, IfOk};
ghost use Rattle.std.specs.Option.{option_copied};

use reg_base::{Document, Memory};
use std::alloc::Global;
use std::marker::Model;

/// Memory for one document, and the document where one is committed.
#[derive(Drop)]
pub struct Place {
    held: Box<Option<Document>>,
}

impl Model for Place {
    ghost use Rattle.std.specs.Prelude.{Option};
    ghost use Rattle.reg_base.specs.declared.records.Document.{Document};

    ghost Value = { Option Document };

    ghost view = { λ p. p.held.value };
}

impl Place {
    /// A place that no document stands in.
    pub fn empty(alloc: Global) -> Result<Place, Memory>
        ensures { IfOk result (λ place. place ≡ None) }
    {
        let held = Box::new(alloc, None)?;
        Ok(Place { held })
    }

    /// The document that stands here.
    pub fn document(&self) -> Option<&Document>
        ensures { option_copied result ≡ self.now }
    {
        self.held.as_ref().as_ref()
    }

    /// Puts a document here, and gives the one that stood here.
    pub fn fill(&mut self, document: Document) -> Option<Document>
        ensures old { result ≡ self.old }
        ensures new { self.new ≡ Some document }
    {
        Box::replace(&mut self.held, Some(document))
    }
}
