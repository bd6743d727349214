//! The records of a desk's documents, asked for by their sums.
ghost use Rattle.std.specs.Prelude.{◌≡◌};
ghost use Rattle.reg_base.specs.Records.{records_of};
ghost use Rattle.desk_core.specs.Books.{AreSummed, resources_at as resources_of};

use cfg_model::Config;
use doc_store::{Balances, Store};
use reg_base::{Cut, Filter, List, Memory, SumRow};
use std::alloc::Global;
use std::marker::Model;
use virt_tables::{Query, balance_rows};

/// The documents of a desk under its configuration.
#[derive(Drop)]
pub(crate) struct Books<'a> {
    config: &'a Config,
    store: &'a Store,
}

impl<'a> Model for Books<'a> {
    ghost use Rattle.desk_core.specs.Books.{BooksView, AreSummed};

    ghost Value = { BooksView };

    ghost view = { λ b. record { config = b.config.now; documents = b.store.now.documents } };

    ghost invariant = { λ b. AreSummed b.store.now.documents };
}

impl<'a> Books<'a> {
    pub(crate) fn new(config: &'a Config, store: &'a Store) -> Books<'a>
        requires { AreSummed store.now.documents }
        ensures { result ≡ record {
          config = config.now;
          documents = store.now.documents;
        } }
    {
        Books { config, store }
    }

    // How many resources a register has.
    fn resources_at(&self, register: usize) -> usize
        ensures { result ≡ resources_of self.now.config register }
    {
        match self.config.registers.get(register) {
            Some(register) => register.resources.len(),
            None => 0,
        }
    }
}

impl<'a> Balances for Books<'a> {
    ghost books = { λ b register. records_of register b.documents };

    ghost resources = { λ b register. resources_of b.config register };

    fn sums(
        &self,
        alloc: Global,
        register: u8,
        filter: &Filter,
        group: &[u8],
        cut: &Cut,
        skip: u32,
    ) -> Result<List<SumRow>, Memory> {
        let register = usize::from(register);
        let resources = self.resources_at(register);
        let query = Query::new(register, resources, Some(group), filter, cut, Some(skip));
        balance_rows(alloc, self.store.walk(), &query)
    }
}
