//! The groups of a configuration file: tables whose entries are read in byte order of names.
ghost use Rattle.std.specs.Prelude.{◌≡◌, ℕ, List, map, Result, IfOk};
ghost use Rattle.toml.specs.Data.{Data};
ghost use Rattle.toml.specs.View.{view, table_view};
ghost use Rattle.reg_base.specs.Results.{Gives};
ghost use Rattle.cfg_model.specs.declared.config.Config.{Config};
ghost use Rattle.cfg_model.specs.declared.fault.CfgFault.{CfgFault};
ghost use Rattle.cfg_model.specs.declared.fault.CfgFault.TheVariants.{Memory};
ghost use Rattle.cfg_model.specs.Resolving.{AreAscending};
ghost use Rattle.cfg_model.specs.Walk.{read_group as group_of, each_entry as each_of, member_keys};

use crate::walk::group_entries;
use crate::{CfgFault, Config};
use reg_base::List;
use std::alloc::Global;
use toml::{Table, Value};

// What an entry of a group holds.
pub(crate) trait FromEntry: Drop {
    ghost reads: { Config → List ℕ → Data → Result Self CfgFault };

    ghost entry_name: { Self → List ℕ };

    // Reads an entry, given the groups that were read before.
    fn read(alloc: Global, config: &Config, name: &str, value: &Value) -> Result<Self, CfgFault>
        ensures read { Gives Memory result (reads config.now name.now (view value.now)) }
        ensures named { IfOk result (λ x. entry_name x ≡ name.now) };
}

// The entries of a group of a file, given the groups that were read before.
#[tactic(auto, unfolding(crate::specs::Walk::read_group, crate::specs::Walk::each_entry))]
pub(crate) fn read_group<E: FromEntry>(
    alloc: Global,
    top: &Table,
    group: &str,
    limit: usize,
    config: &Config,
) -> Result<List<E>, CfgFault>
    ensures read { let found = table_view top.now in
        Gives Memory result (group_of group.now limit (E.reads config.now) found) }
    ensures in_order { IfOk result (λ xs. AreAscending (map E.entry_name xs)) }
{
    match group_entries(alloc, top, group, limit)? {
        Some(entries) => {
            keys_ascend(entries);
            each_entry(alloc, entries, config)
        }
        None => Ok(List::new(alloc)),
    }
}

// The keys of a table stand in byte order, each once.
fn keys_ascend(entries: &Table)
    ensures { AreAscending (member_keys (table_view entries.now)) }
{
    let _ = entries.iter();
}

#[tactic(auto, using(crate::proofs::Walks::walks))]
fn each_entry<E: FromEntry>(
    alloc: Global,
    entries: &Table,
    config: &Config,
) -> Result<List<E>, CfgFault>
    ensures read { Gives Memory result (each_of (E.reads config.now) (table_view entries.now)) }
    ensures names { IfOk result (λ xs. map E.entry_name xs ≡ member_keys (table_view entries.now)) }
{
    let mut found = Vec::new(alloc);
    'entries: for (name, value) in entries.iter() {
        found.push(E::read(alloc, config, name.as_str(), value)?)?;
    }
    Ok(List::from_vec(found))
}
