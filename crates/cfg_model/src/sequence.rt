//! A sequence: documents whose posting has to keep the order of their points.
ghost use Rattle.std.specs.Prelude.{◌≡◌, codes, IfOk};
ghost use Rattle.std.specs.List.{list_all};
ghost use Rattle.toml.specs.View.{view, table_view};
ghost use Rattle.reg_base.specs.Results.{Gives, GivesAs};
ghost use Rattle.cfg_model.specs.declared.fault.CfgFault.TheVariants.{Memory};
ghost use Rattle.cfg_model.specs.Sequences.{read_sequence, sequence_of, read_names};
ghost use Rattle.cfg_model.specs.Sequences.{read_some_names};
ghost use Rattle.cfg_model.specs.Sequences.{read_documents, read_affecting, is_shared as shared_by};
ghost use Rattle.cfg_model.specs.Sequences.{all_shared};
ghost use Rattle.cfg_model.specs.Sequences.{has_kind as kind_known, has_register as register_known};
ghost use Rattle.cfg_model.specs.Sequences.{has_balances as balances_known};
ghost use Rattle.cfg_model.specs.Sequences.{has_head_code as head_code_known};
ghost use Rattle.cfg_model.specs.Sequences.{has_code_dimension as code_dimension_known};
ghost use Rattle.cfg_model.specs.Walk.{all_known};

use crate::element::all_distinct;
use crate::group::FromEntry;
use crate::walk::{Entry, entry_keys, has_register, unknown};
use crate::{CfgFault, Config, Kind, Register};
use reg_base::{List, Name};
use std::alloc::Global;
use toml::Value;

/// A sequence of documents.
#[derive(Drop)]
pub struct Sequence {
    pub name: Name,
    /// The document types that stand in it, one at the least.
    pub kinds: List<Name>,
    /// The registers whose records affect it, one at the least.
    pub registers: List<Name>,
    /// The dimensions that tell its keys apart.
    pub dimensions: List<Name>,
}

impl FromEntry for Sequence {
    ghost reads = { λ config. read_sequence config.registers config.kinds };

    ghost entry_name = { λ sequence. sequence.name };

    #[tactic(auto, unfolding(crate::specs::Sequences::read_sequence))]
    fn read(
        alloc: Global,
        config: &Config,
        name: &str,
        value: &Value,
    ) -> Result<Sequence, CfgFault> {
        let known = ["documents", "registers", "dimensions"];
        let keys = entry_keys(alloc, "sequence", &[], &known, name, value)?;
        let entry = Entry {
            group: "sequence",
            name,
            keys,
        };
        sequence_of(alloc, &entry, config, Name::parse(name).unwrap())
    }
}

#[tactic(auto, unfolding(crate::specs::Sequences::sequence_of))]
fn sequence_of(
    alloc: Global,
    entry: &Entry,
    config: &Config,
    name: Name,
) -> Result<Sequence, CfgFault>
    requires group { entry.now.group.now ≡ codes "sequence" }
    requires name { name ≡ entry.now.name.now }
    ensures read { let keys = table_view entry.now.keys.now in
        let registers = config.now.registers in
        Gives Memory result (sequence_of registers config.now.kinds entry.now.name.now keys) }
    ensures named { IfOk result (λ s. s.name ≡ name) }
{
    let kinds = read_documents(alloc, entry, config)?;
    let registers = read_affecting(alloc, entry, config)?;
    let dimensions = read_names(alloc, entry, "dimensions")?;
    let shared = Shared {
        config,
        kinds: kinds.as_slice(),
        registers: registers.as_slice(),
    };
    all_shared(alloc, &shared, dimensions.as_slice())?;
    Ok(Sequence {
        name,
        kinds,
        registers,
        dimensions,
    })
}

#[tactic(auto, unfolding(crate::specs::Sequences::read_names))]
fn read_names(alloc: Global, entry: &Entry, key: &str) -> Result<List<Name>, CfgFault>
    requires { entry.now.group.now ≡ codes "sequence" }
    ensures { let keys = table_view entry.now.keys.now in
        Gives Memory result (read_names entry.now.name.now key.now keys) }
{
    let names = entry.elements(alloc, key)?;
    all_distinct(alloc, names)
}

#[tactic(auto, unfolding(crate::specs::Sequences::read_some_names))]
fn read_some_names(alloc: Global, entry: &Entry, key: &str) -> Result<List<Name>, CfgFault>
    requires { entry.now.group.now ≡ codes "sequence" }
    ensures { let keys = table_view entry.now.keys.now in
        Gives Memory result (read_some_names entry.now.name.now key.now keys) }
{
    let names = entry.elements(alloc, key)?;
    if names.is_empty() {
        return Err(entry.wrong(alloc, key));
    }
    all_distinct(alloc, names)
}

#[tactic(auto, unfolding(crate::specs::Sequences::read_documents))]
fn read_documents(alloc: Global, entry: &Entry, config: &Config) -> Result<List<Name>, CfgFault>
    requires { entry.now.group.now ≡ codes "sequence" }
    ensures { let keys = table_view entry.now.keys.now in
        Gives Memory result (read_documents config.now.kinds entry.now.name.now keys) }
{
    let kinds = read_some_names(alloc, entry, "documents")?;
    all_kinds(alloc, config.kinds.as_slice(), kinds.as_slice())?;
    Ok(kinds)
}

#[tactic(auto, unfolding(crate::specs::Sequences::read_affecting))]
fn read_affecting(alloc: Global, entry: &Entry, config: &Config) -> Result<List<Name>, CfgFault>
    requires { entry.now.group.now ≡ codes "sequence" }
    ensures { let keys = table_view entry.now.keys.now in
        Gives Memory result (read_affecting config.now.registers entry.now.name.now keys) }
{
    let registers = read_some_names(alloc, entry, "registers")?;
    all_registers(alloc, config.registers.as_slice(), registers.as_slice())?;
    if !all_have_balances(config.registers.as_slice(), registers.as_slice()) {
        return Err(entry.wrong(alloc, "registers"));
    }
    Ok(registers)
}

// Refuses the first name that is no document type's.
#[tactic(auto, unfolding(crate::specs::Walk::all_known))]
fn all_kinds(alloc: Global, kinds: &[Kind], names: &[Name]) -> Result<(), CfgFault>
    ensures { Gives Memory result (all_known (kind_known kinds.now) names.now) }
{
    'names: for name in names {
        if !has_kind(kinds, name.as_str()) {
            return Err(unknown(alloc, name.as_str()));
        }
    }
    Ok(())
}

// Refuses the first name that is no register's.
#[tactic(auto, unfolding(crate::specs::Walk::all_known))]
fn all_registers(alloc: Global, registers: &[Register], names: &[Name]) -> Result<(), CfgFault>
    ensures { Gives Memory result (all_known (register_known registers.now) names.now) }
{
    'names: for name in names {
        if !has_register(registers, name.as_str()) {
            return Err(unknown(alloc, name.as_str()));
        }
    }
    Ok(())
}

fn all_have_balances(registers: &[Register], names: &[Name]) -> bool
    ensures { result ≡ list_all (balances_known registers.now) names.now }
{
    names.iter().all(|name| has_balances(registers, name))
}

fn has_balances(registers: &[Register], name: &Name) -> bool
    ensures { result ≡ balances_known registers.now name.now }
{
    registers.iter().any(|r| r.name == *name && r.balance)
}

fn has_kind(kinds: &[Kind], name: &str) -> bool
    ensures { result ≡ kind_known kinds.now name.now }
{
    'kinds: for kind in kinds {
        if kind.name.as_str() == name {
            return true;
        }
    }
    false
}

// What the dimensions of a sequence have to stand in.
#[derive(Clone, Copy)]
struct Shared<'a> {
    config: &'a Config,
    kinds: &'a [Name],
    registers: &'a [Name],
}

impl Shared<'_> {
    // Whether the head of each type has the dimension as a code, and each register too.
    fn has(&self, dimension: &Name) -> bool
        ensures { result ≡ shared_by self.now.config.now.registers self.now.config.now.kinds
            self.now.kinds.now self.now.registers.now dimension.now }
    {
        self.all_heads_have(dimension) && self.all_registers_have(dimension)
    }

    fn all_heads_have(&self, dimension: &Name) -> bool
        ensures { let kinds = self.now.config.now.kinds in
            result ≡ list_all (head_code_known kinds dimension.now) self.now.kinds.now }
    {
        let kinds = self.config.kinds.as_slice();
        self.kinds
            .iter()
            .all(|name| has_head_code(kinds, dimension, name))
    }

    fn all_registers_have(&self, dimension: &Name) -> bool
        ensures { let registers = self.now.config.now.registers in
            let has = code_dimension_known registers dimension.now in
            result ≡ list_all has self.now.registers.now }
    {
        let registers = self.config.registers.as_slice();
        self.registers
            .iter()
            .all(|name| has_code_dimension(registers, dimension, name))
    }
}

fn has_head_code(kinds: &[Kind], field: &Name, name: &Name) -> bool
    ensures { result ≡ head_code_known kinds.now field.now name.now }
{
    kinds
        .iter()
        .any(|kind| kind.name == *name && kind.has_head_code(field))
}

fn has_code_dimension(registers: &[Register], dimension: &Name, name: &Name) -> bool
    ensures { result ≡ code_dimension_known registers.now dimension.now name.now }
{
    registers
        .iter()
        .any(|r| r.name == *name && r.has_code_dimension(dimension))
}

// Refuses the first dimension that is not shared by the types and registers of the sequence.
#[tactic(auto, unfolding(crate::specs::Sequences::all_shared, crate::specs::Walk::all_known))]
fn all_shared(alloc: Global, shared: &Shared, dimensions: &[Name]) -> Result<(), CfgFault>
    ensures { let registers = shared.now.config.now.registers in
        let kinds = shared.now.config.now.kinds in
        Gives Memory result (all_shared registers kinds shared.now.kinds.now
        shared.now.registers.now dimensions.now) }
{
    'dimensions: for dimension in dimensions {
        if !shared.has(dimension) {
            return Err(unknown(alloc, dimension.as_str()));
        }
    }
    Ok(())
}
