//! A register: the dimensions by which its records are told apart, and the numbers they bring.
ghost use Rattle.std.specs.Prelude.{◌≡◌, codes, false, IfOk};
ghost use Rattle.toml.specs.View.{view, table_view};
ghost use Rattle.reg_base.specs.Results.{Gives};
ghost use Rattle.cfg_model.specs.declared.fault.CfgFault.TheVariants.{Memory};
ghost use Rattle.cfg_model.specs.Elements.{toml_dimension, toml_lot, toml_resource, toml_scale};
ghost use Rattle.cfg_model.specs.Registers.{read_register, register_of, read_balance};
ghost use Rattle.cfg_model.specs.Registers.{keeps_balances};
ghost use Rattle.cfg_model.specs.Registers.{read_dimensions, read_resources};
ghost use Rattle.cfg_model.specs.Sequences.{has_codes};

use crate::element::{Element, all_distinct};
use crate::group::FromEntry;
use crate::walk::{Entry, entry_keys};
use crate::{CfgFault, Config};
use reg_base::{List, Name, Scale};
use std::alloc::Global;
use toml::Value;

/// How many dimensions a register has at the most.
pub const DIMENSION_LIMIT: usize = 8;

/// How many resources a register has at the most.
pub const RESOURCE_LIMIT: usize = 8;

/// A register of records.
#[derive(Drop)]
pub struct Register {
    pub name: Name,
    /// Whether its records are receipts and expenses, and not turns alone.
    pub balance: bool,
    pub dimensions: List<Dimension>,
    /// One at the least.
    pub resources: List<Resource>,
    /// Whether its locks begin as splitting ones.
    pub split: bool,
}

/// One value of each record of a register.
#[derive(Drop)]
pub struct Dimension {
    pub name: Name,
    /// Whether its values are points of documents, and not codes.
    pub lot: bool,
}

/// One number of each record of a register.
#[derive(Drop)]
pub struct Resource {
    pub name: Name,
    /// The decimals that its numbers are counted in.
    pub scale: Scale,
}

impl Register {
    /// Whether it has a dimension of codes of this name.
    pub fn has_code_dimension(&self, dimension: &Name) -> bool
        ensures { result ≡ has_codes dimension.now self.now }
    {
        self.dimensions
            .as_slice()
            .iter()
            .any(|d| d.name == *dimension && !d.lot)
    }
}

impl Element for Dimension {
    ghost reads = { toml_dimension };

    ghost label_of = { λ d. d.name };

    ghost sole = { λ d. d.lot };

    #[tactic(auto, unfolding(crate::specs::Elements::toml_dimension))]
    fn parse(text: &str) -> Option<Dimension> {
        let (name, sort) = text.split_once(':')?;
        let name = Name::parse(name)?;
        let lot = parse_lot(sort)?;
        Some(Dimension { name, lot })
    }

    fn label(&self) -> &str {
        self.name.as_str()
    }

    fn is_sole(&self) -> bool {
        self.lot
    }
}

impl Element for Resource {
    ghost reads = { toml_resource };

    ghost label_of = { λ r. r.name };

    ghost sole = { λ r. false };

    #[tactic(auto, unfolding(crate::specs::Elements::toml_resource))]
    fn parse(text: &str) -> Option<Resource> {
        let (name, digit) = text.split_once(':')?;
        let name = Name::parse(name)?;
        let scale = parse_scale(digit)?;
        Some(Resource { name, scale })
    }

    fn label(&self) -> &str {
        self.name.as_str()
    }

    fn is_sole(&self) -> bool {
        false
    }
}

#[tactic(auto, unfolding(crate::specs::Elements::toml_lot))]
fn parse_lot(word: &str) -> Option<bool>
    ensures { result ≡ toml_lot word.now }
{
    match word {
        "code" => Some(false),
        "lot" => Some(true),
        _ => None,
    }
}

// The scale that one digit spells.
#[tactic(auto, unfolding(crate::specs::Elements::toml_scale))]
pub(crate) fn parse_scale(text: &str) -> Option<Scale>
    ensures { result ≡ toml_scale text.now }
{
    match text.as_bytes() {
        [digit] if *digit >= b'0' => Scale::new(*digit - b'0'),
        _ => None,
    }
}

impl FromEntry for Register {
    ghost reads = { λ config. read_register };

    ghost entry_name = { λ register. register.name };

    #[tactic(auto, unfolding(crate::specs::Registers::read_register))]
    fn read(
        alloc: Global,
        _config: &Config,
        name: &str,
        value: &Value,
    ) -> Result<Register, CfgFault> {
        let known = ["kind", "dimensions", "resources", "split"];
        let keys = entry_keys(alloc, "register", &[], &known, name, value)?;
        let entry = Entry {
            group: "register",
            name,
            keys,
        };
        register_of(alloc, &entry, Name::parse(name).unwrap())
    }
}

// The register that the keys of an entry say.
fn register_of(alloc: Global, entry: &Entry, name: Name) -> Result<Register, CfgFault>
    requires group { entry.now.group.now ≡ codes "register" }
    requires name { name ≡ entry.now.name.now }
    ensures read { let keys = table_view entry.now.keys.now in
        Gives Memory result (register_of entry.now.name.now keys) }
    ensures named { IfOk result (λ register. register.name ≡ name) }
{
    let balance = read_balance(alloc, entry)?;
    let dimensions = read_dimensions(alloc, entry)?;
    let resources = read_resources(alloc, entry)?;
    let split = entry.split(alloc)?;
    Ok(Register {
        name,
        balance,
        dimensions,
        resources,
        split,
    })
}

// Whether the register has balances.
#[tactic(auto, unfolding(crate::specs::Registers::read_balance))]
fn read_balance(alloc: Global, entry: &Entry) -> Result<bool, CfgFault>
    requires { entry.now.group.now ≡ codes "register" }
    ensures { let keys = table_view entry.now.keys.now in
        Gives Memory result (read_balance entry.now.name.now keys) }
{
    let Some(word) = entry.text("kind") else {
        return Err(entry.wrong(alloc, "kind"));
    };
    let Some(balance) = parse_balance(word) else {
        return Err(entry.wrong(alloc, "kind"));
    };
    Ok(balance)
}

#[tactic(auto, unfolding(crate::specs::Registers::keeps_balances))]
fn parse_balance(word: &str) -> Option<bool>
    ensures { result ≡ keeps_balances word.now }
{
    match word {
        "balance" => Some(true),
        "turnover" => Some(false),
        _ => None,
    }
}

#[tactic(auto, unfolding(crate::specs::Registers::read_dimensions))]
fn read_dimensions(alloc: Global, entry: &Entry) -> Result<List<Dimension>, CfgFault>
    requires { entry.now.group.now ≡ codes "register" }
    ensures { let keys = table_view entry.now.keys.now in
        Gives Memory result (read_dimensions entry.now.name.now keys) }
{
    let dimensions = entry.elements(alloc, "dimensions")?;
    entry.at_most(alloc, "dimensions", DIMENSION_LIMIT, dimensions.len())?;
    all_distinct(alloc, dimensions)
}

#[tactic(auto, unfolding(crate::specs::Registers::read_resources))]
fn read_resources(alloc: Global, entry: &Entry) -> Result<List<Resource>, CfgFault>
    requires { entry.now.group.now ≡ codes "register" }
    ensures { let keys = table_view entry.now.keys.now in
        Gives Memory result (read_resources entry.now.name.now keys) }
{
    let resources = entry.elements(alloc, "resources")?;
    if resources.is_empty() {
        return Err(entry.wrong(alloc, "resources"));
    }
    entry.at_most(alloc, "resources", RESOURCE_LIMIT, resources.len())?;
    all_distinct(alloc, resources)
}
