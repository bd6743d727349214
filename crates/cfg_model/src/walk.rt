//! The steps of the walk through a file that all groups share.
ghost use Rattle.std.specs.Prelude.{◌≡◌, true, false, map, IfOk, option_map};
ghost use Rattle.toml.specs.Data.{get_member, as_str, as_bool};
ghost use Rattle.toml.specs.View.{view, table_view};
ghost use Rattle.reg_base.specs.Codes.{is_name};
ghost use Rattle.reg_base.specs.Results.{Gives, GivesAs, Says};
ghost use Rattle.cfg_model.specs.declared.fault.CfgFault.TheVariants.{Memory, Field, Twice};
ghost use Rattle.cfg_model.specs.declared.fault.CfgFault.TheVariants.{Unknown};
ghost use Rattle.cfg_model.specs.Words.{texts, is_one_of, first_unknown_key, entry_path, key_path};
ghost use Rattle.cfg_model.specs.Walk.{members_or_none, group_entries, entry_keys, known_keys};
ghost use Rattle.cfg_model.specs.Walk.{at_most, is_taken, of_shape, shape_or};
ghost use Rattle.cfg_model.specs.Registers.{read_split};

use crate::{CfgFault, Register};
use reg_base::{Name, Text};
use std::alloc::{AllocError, Global};
use toml::{Table, Value};

// Names of spaces and of one clerk, which no entry may take.
const RESERVED_NAMES: [&str; 5] = ["doc", "key", "closed", "batch", "documents"];

// An entry of a group: its name, and the table of its keys.
#[derive(Clone, Copy)]
pub(crate) struct Entry<'a> {
    pub(crate) group: &'a str,
    pub(crate) name: &'a str,
    pub(crate) keys: &'a Table,
}

impl Entry<'_> {
    // What a key of the entry holds.
    pub(crate) fn get(&self, key: &str) -> Option<&Value>
        ensures { let keys = table_view self.now.keys.now in
            option_map (λ v. view v.now) result ≡ get_member key.now keys }
    {
        find(self.keys, key)
    }

    // The text that a key of the entry holds.
    pub(crate) fn text(&self, key: &str) -> Option<&str>
        ensures { let keys = table_view self.now.keys.now in
            option_map (λ t. t.now) result ≡ of_shape as_str key.now keys }
    {
        text_at(self.keys, key)
    }

    // Whether the locks of the entry begin as splitting ones.
    #[tactic(auto, unfolding(crate::specs::Registers::read_split))]
    pub(crate) fn split(&self, alloc: Global) -> Result<bool, CfgFault>
        ensures { let keys = table_view self.now.keys.now in
            Gives Memory result (read_split self.now.group.now self.now.name.now keys) }
    {
        match flag_at(self.keys, "split") {
            Some(split) => Ok(split),
            None => Err(self.wrong(alloc, "split")),
        }
    }

    // The fault of a key that is missing or of a wrong shape.
    pub(crate) fn wrong(&self, alloc: Global, key: &str) -> CfgFault
        ensures { let path = key_path self.now.group.now self.now.name.now key.now in
            Says Memory result (Field path) }
    {
        match self.path(alloc, key) {
            Ok(path) => CfgFault::Field { path },
            Err(_) => CfgFault::Memory,
        }
    }

    // Refuses more elements under a key than its limit.
    pub(crate) fn at_most(
        &self,
        alloc: Global,
        key: &str,
        limit: usize,
        number: usize,
    ) -> Result<(), CfgFault>
        ensures { let path = key_path self.now.group.now self.now.name.now key.now in
            Gives Memory result (at_most limit path number) }
    {
        if number <= limit {
            return Ok(());
        }
        let what = self.path(alloc, key)?;
        Err(CfgFault::Count { what, number })
    }

    fn path(&self, alloc: Global, key: &str) -> Result<Text, AllocError>
        ensures { IfOk result (λ t. t ≡ key_path self.now.group.now self.now.name.now key.now) }
    {
        let group = self.group;
        let name = self.name;
        let path = format!(in alloc; "{group}.{name}.{key}")?;
        Ok(Text::from_string(path))
    }
}

// The entries of a group, or none where the file has no such group.
#[tactic(auto, using(crate::proofs::Walks::walks), unfolding(crate::specs::Walk::group_entries))]
pub(crate) fn group_entries<'a>(
    alloc: Global,
    top: &'a Table,
    group: &str,
    limit: usize,
) -> Result<Option<&'a Table>, CfgFault>
    ensures { let found = get_member group.now (table_view top.now) in
        GivesAs Memory members_or_none result (group_entries group.now limit found) }
{
    let Some(value) = find(top, group) else {
        return Ok(None);
    };
    let Some(entries) = value.as_table() else {
        return Err(wrong_at(alloc, group));
    };
    if entries.len() > limit {
        let what = Text::from_str(alloc, group)?;
        return Err(CfgFault::Count {
            what,
            number: entries.len(),
        });
    }
    Ok(Some(entries))
}

// The table of an entry's keys: the entry has a name that is free, and no key that is unknown.
#[tactic(auto, unfolding(crate::specs::Walk::entry_keys))]
pub(crate) fn entry_keys<'a>(
    alloc: Global,
    group: &str,
    registers: &[Register],
    known: &[&str],
    name: &str,
    value: &'a Value,
) -> Result<&'a Table, CfgFault>
    ensures keys { let known_names = texts known.now in
        let keys = entry_keys group.now registers.now known_names name.now (view value.now) in
        GivesAs Memory (λ t. table_view t.now) result keys }
    ensures named { IfOk result (λ _. is_name name.now ≡ true) }
{
    if Name::parse(name).is_none() {
        return Err(wrong_entry(alloc, group, name));
    }
    let Some(keys) = value.as_table() else {
        return Err(wrong_entry(alloc, group, name));
    };
    if is_taken(registers, name) {
        return Err(twice(alloc, name));
    }
    known_keys(alloc, known, keys)?;
    Ok(keys)
}

// Whether the name is a reserved one, or that of a register.
fn is_taken(registers: &[Register], name: &str) -> bool
    ensures { result ≡ is_taken registers.now name.now }
{
    is_one_of(&RESERVED_NAMES, name) || has_register(registers, name)
}

// Whether there is a register of this name.
pub(crate) fn has_register(registers: &[Register], name: &str) -> bool
    ensures { result ≡ is_one_of (map (λ r. r.name) registers.now) name.now }
{
    'registers: for register in registers {
        if register.name.as_str() == name {
            return true;
        }
    }
    false
}

// Refuses the least key that is not known.
pub(crate) fn known_keys(alloc: Global, known: &[&str], keys: &Table) -> Result<(), CfgFault>
    ensures { let found = table_view keys.now in
        GivesAs Memory (λ _. found) result (known_keys (texts known.now) found) }
{
    let Some(key) = first_unknown_key(keys, known) else {
        return Ok(());
    };
    Err(unknown(alloc, key))
}

// The fault of a name that is taken.
pub(crate) fn twice(alloc: Global, name: &str) -> CfgFault
    ensures { Says Memory result (Twice name.now) }
{
    match Text::from_str(alloc, name) {
        Ok(name) => CfgFault::Twice { name },
        Err(_) => CfgFault::Memory,
    }
}

// The fault of a name that stands for nothing.
pub(crate) fn unknown(alloc: Global, name: &str) -> CfgFault
    ensures { Says Memory result (Unknown name.now) }
{
    match Text::from_str(alloc, name) {
        Ok(name) => CfgFault::Unknown { name },
        Err(_) => CfgFault::Memory,
    }
}

fn wrong_at(alloc: Global, path: &str) -> CfgFault
    ensures { Says Memory result (Field path.now) }
{
    match Text::from_str(alloc, path) {
        Ok(path) => CfgFault::Field { path },
        Err(_) => CfgFault::Memory,
    }
}

fn wrong_entry(alloc: Global, group: &str, name: &str) -> CfgFault
    ensures { Says Memory result (Field (entry_path group.now name.now)) }
{
    match format!(in alloc; "{group}.{name}") {
        Ok(path) => CfgFault::Field {
            path: Text::from_string(path),
        },
        Err(_) => CfgFault::Memory,
    }
}

// What a table has under a key.
pub(crate) fn find<'a>(table: &'a Table, key: &str) -> Option<&'a Value>
    ensures { option_map (λ v. view v.now) result ≡ get_member key.now (table_view table.now) }
{
    table.get(key)
}

// The text under a key.
pub(crate) fn text_at<'a>(table: &'a Table, key: &str) -> Option<&'a str>
    ensures { option_map (λ t. t.now) result ≡ of_shape as_str key.now (table_view table.now) }
{
    find(table, key)?.as_str()
}

// The flag under a key: false where the key is absent, none where it is no flag.
pub(crate) fn flag_at(table: &Table, key: &str) -> Option<bool>
    ensures { let found = get_member key.now (table_view table.now) in
        result ≡ shape_or as_bool false found }
{
    match find(table, key) {
        Some(value) => value.as_bool(),
        None => Some(false),
    }
}

// The first key of a table that is not known: tables go in byte order of keys.
pub(crate) fn first_unknown_key<'a>(table: &'a Table, known: &[&str]) -> Option<&'a str>
    ensures { let keys = table_view table.now in
        option_map (λ k. k.now) result ≡ first_unknown_key (texts known.now) keys }
{
    'keys: for (key, _) in table.iter() {
        if !is_one_of(known, key.as_str()) {
            return Some(key.as_str());
        }
    }
    None
}

fn is_one_of(words: &[&str], text: &str) -> bool
    ensures { result ≡ is_one_of (texts words.now) text.now }
{
    'words: for word in words {
        if *word == text {
            return true;
        }
    }
    false
}
