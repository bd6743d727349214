//! A document type: its fields and its posting rules.
ghost use Rattle.std.specs.Prelude.{◌≡◌, codes, false, IfOk};
ghost use Rattle.toml.specs.Data.{as_str};
ghost use Rattle.toml.specs.View.{view, table_view};
ghost use Rattle.reg_base.specs.Results.{Gives, some_or};
ghost use Rattle.cfg_model.specs.declared.fault.CfgFault.TheVariants.{Memory, Field as AtPath};
ghost use Rattle.cfg_model.specs.Elements.{toml_field, toml_field_scale};
ghost use Rattle.cfg_model.specs.Kinds.{read_kind, kind_of, read_fields};
ghost use Rattle.cfg_model.specs.Sequences.{has_code_field};
ghost use Rattle.cfg_model.specs.Walk.{of_shape};
ghost use Rattle.cfg_model.specs.Words.{key_path};

use crate::element::{Element, all_distinct};
use crate::group::FromEntry;
use crate::register::parse_scale;
use crate::walk::{Entry, entry_keys};
use crate::{CfgFault, Config};
use reg_base::{List, Name, Scale, Text};
use std::alloc::Global;
use toml::Value;

/// How many fields a head has at the most, and as many the lines.
pub const FIELD_LIMIT: usize = 16;

/// A document type.
#[derive(Drop)]
pub struct Kind {
    pub name: Name,
    pub head: List<Field>,
    pub lines: List<Field>,
    /// The text of its posting rules.
    pub rules: Text,
}

/// A field of a document's head or of its lines.
#[derive(Drop)]
pub struct Field {
    pub name: Name,
    /// The decimals of a number, or none for a code.
    pub scale: Option<Scale>,
}

impl Kind {
    /// Whether the head has a code field of this name.
    pub fn has_head_code(&self, field: &Name) -> bool
        ensures { result ≡ has_code_field field.now self.now }
    {
        self.head
            .as_slice()
            .iter()
            .any(|f| f.name == *field && f.scale.is_none())
    }
}

impl Element for Field {
    ghost reads = { toml_field };

    ghost label_of = { λ f. f.name };

    ghost sole = { λ f. false };

    #[tactic(auto, unfolding(crate::specs::Elements::toml_field))]
    fn parse(text: &str) -> Option<Field> {
        let (name, sort) = text.split_once(':')?;
        let name = Name::parse(name)?;
        let scale = parse_field_scale(sort)?;
        Some(Field { name, scale })
    }

    fn label(&self) -> &str {
        self.name.as_str()
    }

    fn is_sole(&self) -> bool {
        false
    }
}

// The scale of a field's numbers, or none for codes.
#[tactic(auto, unfolding(crate::specs::Elements::toml_field_scale))]
fn parse_field_scale(word: &str) -> Option<Option<Scale>>
    ensures { result ≡ toml_field_scale word.now }
{
    if word == "code" {
        return Some(None);
    }
    let scale = parse_scale(word)?;
    Some(Some(scale))
}

impl FromEntry for Kind {
    ghost reads = { λ config. read_kind };

    ghost entry_name = { λ kind. kind.name };

    #[tactic(auto, unfolding(crate::specs::Kinds::read_kind))]
    fn read(alloc: Global, _config: &Config, name: &str, value: &Value) -> Result<Kind, CfgFault> {
        let known = ["head", "lines", "rules"];
        let keys = entry_keys(alloc, "document", &[], &known, name, value)?;
        let entry = Entry {
            group: "document",
            name,
            keys,
        };
        kind_of(alloc, &entry, Name::parse(name).unwrap())
    }
}

// The document type that the keys of an entry say.
fn kind_of(alloc: Global, entry: &Entry, name: Name) -> Result<Kind, CfgFault>
    requires group { entry.now.group.now ≡ codes "document" }
    requires name { name ≡ entry.now.name.now }
    ensures read { let keys = table_view entry.now.keys.now in
        Gives Memory result (kind_of entry.now.name.now keys) }
    ensures named { IfOk result (λ kind. kind.name ≡ name) }
{
    let head = read_fields(alloc, entry, "head")?;
    let lines = read_fields(alloc, entry, "lines")?;
    let rules = read_rules(alloc, entry)?;
    Ok(Kind {
        name,
        head,
        lines,
        rules,
    })
}

#[tactic(auto, unfolding(crate::specs::Kinds::read_fields))]
fn read_fields(alloc: Global, entry: &Entry, key: &str) -> Result<List<Field>, CfgFault>
    requires { entry.now.group.now ≡ codes "document" }
    ensures { let keys = table_view entry.now.keys.now in
        Gives Memory result (read_fields entry.now.name.now key.now keys) }
{
    let fields = entry.elements(alloc, key)?;
    entry.at_most(alloc, key, FIELD_LIMIT, fields.len())?;
    all_distinct(alloc, fields)
}

fn read_rules(alloc: Global, entry: &Entry) -> Result<Text, CfgFault>
    requires { entry.now.group.now ≡ codes "document" }
    ensures { let path = key_path (codes "document") entry.now.name.now (codes "rules") in
        let found = of_shape as_str (codes "rules") (table_view entry.now.keys.now) in
        Gives Memory result (some_or found (AtPath path)) }
{
    let Some(rules) = entry.text("rules") else {
        return Err(entry.wrong(alloc, "rules"));
    };
    Ok(Text::from_str(alloc, rules)?)
}
