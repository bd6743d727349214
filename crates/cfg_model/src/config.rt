//! The configuration, and how it is read from the bytes of a file.
ghost use Rattle.std.specs.Prelude.{◌≡◌, [], IfOk, Ok as Accepted};
ghost use Rattle.toml.specs.View.{table_view};
ghost use Rattle.reg_base.specs.Results.{Gives, GivesAs, some_or};
ghost use Rattle.cfg_model.specs.declared.fault.CfgFault.TheVariants.{Memory, NotToml};
ghost use Rattle.cfg_model.specs.Limits.{IsWithinLimits};
ghost use Rattle.cfg_model.specs.Places.{clerk_place, kind_place, ledger_place, register_place};
ghost use Rattle.cfg_model.specs.Reading.{read_config, config_of, toml_document};
ghost use Rattle.cfg_model.specs.Resolving.{HasNamesInOrder, IsInOrder, NamesResolve};
ghost use Rattle.cfg_model.specs.Walk.{known_keys};
ghost use Rattle.cfg_model.specs.Words.{group_keys};

use crate::group::read_group;
use crate::walk::known_keys;
use crate::{CfgFault, Chart, Clerk, Kind, Register, Sequence};
use reg_base::{List, Name};
use std::alloc::Global;
use std::str;
use toml::Table;

/// How many registers a configuration has at the most.
pub const REGISTER_LIMIT: usize = 32;

/// How many ledgers a configuration has at the most.
pub const LEDGER_LIMIT: usize = 8;

/// How many document types a configuration has at the most.
pub const DOCUMENT_LIMIT: usize = 64;

/// How many sequences a configuration has at the most.
pub const SEQUENCE_LIMIT: usize = 16;

/// How many clerks a configuration has at the most.
pub const CLERK_LIMIT: usize = 64;

// The keys of the top level, in the order in which their groups are read.
const GROUP_KEYS: [&str; 5] = ["register", "ledger", "document", "sequence", "clerk"];

/// What a desk is set up for, each list in byte order of names.
#[derive(Drop)]
pub struct Config {
    pub registers: List<Register>,
    pub ledgers: List<Chart>,
    pub kinds: List<Kind>,
    pub sequences: List<Sequence>,
    pub clerks: List<Clerk>,
}

impl Config {
    fn empty(alloc: Global) -> Config
        ensures registers { result.registers ≡ [] }
        ensures ledgers { result.ledgers ≡ [] }
        ensures kinds { result.kinds ≡ [] }
        ensures sequences { result.sequences ≡ [] }
        ensures clerks { result.clerks ≡ [] }
    {
        Config {
            registers: List::new(alloc),
            ledgers: List::new(alloc),
            kinds: List::new(alloc),
            sequences: List::new(alloc),
            clerks: List::new(alloc),
        }
    }

    /// The configuration that a file holds, or the first fault on the walk through its bytes.
    #[tactic(auto, unfolding(crate::specs::Reading::read_config))]
    pub fn read(alloc: Global, bytes: &[u8]) -> Result<Config, CfgFault>
        ensures read { Gives Memory result (read_config bytes.now) }
        ensures limits { IfOk result IsWithinLimits }
        ensures in_order { IfOk result IsInOrder }
        ensures resolves { IfOk result NamesResolve }
    {
        let top = read_document(alloc, bytes)?;
        config_of(alloc, &top)
    }

    // Reads the groups of a table whose keys are known, each given those before it.
    #[tactic(auto, unfolding(crate::specs::Reading::config_of))]
    fn read_groups(&mut self, alloc: Global, top: &Table) -> Result<(), CfgFault>
        requires { let keys = table_view top.now in known_keys group_keys keys ≡ Accepted keys }
        ensures read { GivesAs Memory (λ _. self.new) result (config_of (table_view top.now)) }
        ensures in_order { IfOk result (λ _. HasNamesInOrder self.new) }
    {
        self.registers = read_group(alloc, top, "register", REGISTER_LIMIT, self)?;
        self.ledgers = read_group(alloc, top, "ledger", LEDGER_LIMIT, self)?;
        self.kinds = read_group(alloc, top, "document", DOCUMENT_LIMIT, self)?;
        self.sequences = read_group(alloc, top, "sequence", SEQUENCE_LIMIT, self)?;
        self.clerks = read_group(alloc, top, "clerk", CLERK_LIMIT, self)?;
        Ok(())
    }

    /// The place of the register of this name, counted from 0.
    pub fn register_place(&self, name: &Name) -> Option<usize>
        ensures { result ≡ register_place name.now self.now.registers }
    {
        self.registers
            .as_slice()
            .iter()
            .position(|r| r.name == *name)
    }

    /// The place of the ledger of this name, counted from 0.
    pub fn ledger_place(&self, name: &Name) -> Option<usize>
        ensures { result ≡ ledger_place name.now self.now.ledgers }
    {
        self.ledgers.as_slice().iter().position(|l| l.name == *name)
    }

    /// The place of the document type of this name, counted from 0.
    pub fn kind_place(&self, name: &Name) -> Option<usize>
        ensures { result ≡ kind_place name.now self.now.kinds }
    {
        self.kinds.as_slice().iter().position(|k| k.name == *name)
    }

    /// The place of the clerk of this name, counted from 0.
    pub fn clerk_place(&self, name: &Name) -> Option<usize>
        ensures { result ≡ clerk_place name.now self.now.clerks }
    {
        self.clerks.as_slice().iter().position(|c| c.name == *name)
    }
}

#[tactic(auto, unfolding(crate::specs::Reading::toml_document))]
fn read_document(alloc: Global, bytes: &[u8]) -> Result<Table, CfgFault>
    ensures { let top = some_or (toml_document bytes.now) NotToml in
        GivesAs Memory (λ t. table_view t) result top }
{
    let Ok(text) = str::from_utf8(bytes) else {
        return Err(CfgFault::NotToml);
    };
    match toml::table_from_str(alloc, text) {
        Ok(top) => Ok(top),
        Err(e) if e.is_memory() => Err(CfgFault::Memory),
        Err(_) => Err(CfgFault::NotToml),
    }
}

#[tactic(auto, unfolding(crate::specs::Reading::config_of))]
fn config_of(alloc: Global, top: &Table) -> Result<Config, CfgFault>
    ensures read { Gives Memory result (config_of (table_view top.now)) }
    ensures in_order { IfOk result HasNamesInOrder }
{
    known_keys(alloc, &GROUP_KEYS, top)?;
    let mut config = Config::empty(alloc);
    config.read_groups(alloc, top)?;
    Ok(config)
}
