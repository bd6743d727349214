//! Lists of texts, each of which spells an element.
ghost use Rattle.std.specs.Prelude.{◌≡◌, ℕ, Bool, true, not, List, [], Option, option_map, IfOk};
ghost use Rattle.std.specs.Prelude.{if◌then◌else◌};
ghost use Rattle.std.specs.Str.{bytes_eq};
ghost use Rattle.toml.specs.View.{array_view, table_view, view};
ghost use Rattle.reg_base.specs.Results.{Gives, GivesAs, some_or};
ghost use Rattle.cfg_model.specs.declared.fault.CfgFault.TheVariants.{Memory, Field};
ghost use Rattle.cfg_model.specs.Elements.{toml_name};
ghost use Rattle.cfg_model.specs.Labels.{has_label};
ghost use Rattle.cfg_model.specs.Words.{key_path};
ghost use Rattle.cfg_model.specs.Walk.{of_shape, toml_each, toml_text, toml_texts, distinct};
ghost use Rattle.cfg_model.specs.Walk.{first_second};

use crate::CfgFault;
use crate::walk::{Entry, twice};
use reg_base::{List, Name};
use std::alloc::{AllocError, Global};
use std::collections::BTreeSet;
use toml::Value;
use toml::value::Array;

// What a text in a list spells.
pub(crate) trait Element: Drop {
    ghost reads: { List ℕ → Option Self };

    ghost label_of: { Self → List ℕ };

    ghost sole: { Self → Bool };

    fn parse(text: &str) -> Option<Self>
        ensures { result ≡ reads text.now };

    // What no two elements of a list share.
    fn label(&self) -> &str
        ensures { result.now ≡ label_of self.now };

    // Whether it is of the sort that stands in a list once at the most.
    fn is_sole(&self) -> bool
        ensures { result ≡ sole self.now };
}

impl Element for Name {
    ghost use Rattle.std.specs.Prelude.{false};

    ghost reads = { toml_name };

    ghost label_of = { λ name. name };

    ghost sole = { λ name. false };

    fn parse(text: &str) -> Option<Name> {
        Name::parse(text)
    }

    fn label(&self) -> &str {
        self.as_str()
    }

    fn is_sole(&self) -> bool {
        false
    }
}

impl Entry<'_> {
    // The elements that the list of texts under a key spells.
    pub(crate) fn elements<E: Element>(&self, alloc: Global, key: &str) -> Result<List<E>, CfgFault>
        ensures { let path = key_path self.now.group.now self.now.name.now key.now in
            let found = of_shape (toml_texts E.reads) key.now (table_view self.now.keys.now) in
            Gives Memory result (some_or found (Field path)) }
    {
        let Some(value) = self.get(key) else {
            return Err(self.wrong(alloc, key));
        };
        let Some(found) = elements_of(alloc, value)? else {
            return Err(self.wrong(alloc, key));
        };
        Ok(found)
    }
}

// What a list of texts spells.
pub(crate) fn elements_of<E: Element>(
    alloc: Global,
    value: &Value,
) -> Result<Option<List<E>>, AllocError>
    ensures { IfOk result (λ found. found ≡ toml_texts E.reads (view value.now)) }
{
    match value.as_array() {
        Some(array) => spelled(alloc, array),
        None => Ok(None),
    }
}

// What the texts of a list spell, where each is a text and spells an element.
fn spelled<E: Element>(alloc: Global, array: &Array) -> Result<Option<List<E>>, AllocError>
    ensures { IfOk result (λ found. found ≡ toml_each (toml_text E.reads) (array_view array.now)) }
{
    let mut found = Vec::new(alloc);
    'items: for item in array {
        let Some(element) = element_of(item) else {
            return Ok(None);
        };
        found.push(element)?;
    }
    Ok(Some(List::from_vec(found)))
}

// What a text spells.
fn element_of<E: Element>(value: &Value) -> Option<E>
    ensures { result ≡ toml_text E.reads (view value.now) }
{
    E::parse(value.as_str()?)
}

// The same list, in which no element stands twice.
pub(crate) fn all_distinct<E: Element>(alloc: Global, found: List<E>) -> Result<List<E>, CfgFault>
    ensures { Gives Memory result (distinct E.label_of E.sole found) }
{
    distinct(alloc, found.as_slice())?;
    Ok(found)
}

// Refuses a list in which an element stands twice.
pub(crate) fn distinct<E: Element>(alloc: Global, found: &[E]) -> Result<(), CfgFault>
    ensures { GivesAs Memory (λ _. found.now) result (distinct E.label_of E.sole found.now) }
{
    match first_second(alloc, found)? {
        Some(element) => Err(twice(alloc, element.label())),
        None => Ok(()),
    }
}

// The first element that may not stand behind those before it.
fn first_second<E: Element>(alloc: Global, found: &[E]) -> Result<Option<&E>, AllocError>
    ensures { let second = first_second E.label_of E.sole [] found.now in
        IfOk result (λ told. option_map (λ e. e.now) told ≡ second) }
{
    let mut labels = BTreeSet::new(alloc);
    let mut has_sole = false;
    'elements: for element in found {
        let is_new = put_label(&mut labels, element.label())?;
        if !is_new || (element.is_sole() && has_sole) {
            return Ok(Some(element));
        }
        has_sole = has_sole || element.is_sole();
    }
    Ok(None)
}

// Puts a label among those that are kept, and says whether it is a new one.
fn put_label<'a>(labels: &mut BTreeSet<&'a str>, label: &'a str) -> Result<bool, AllocError>
    ensures new { IfOk result (λ is_new. is_new ≡ not (has_label label.now labels.old.keys)) }
    ensures labels { IfOk result (λ _. (q : List ℕ) → has_label q labels.new.keys
        ≡ (if bytes_eq label.now q then true else has_label q labels.old.keys)) }
{
    Ok(labels.insert(label)?)
}
