//! An account of a ledger, and the table that holds it.
ghost use Rattle.std.specs.Prelude.{◌≡◌, codes, [], None as Absent, option_map, Some as There, ℕ};
ghost use Rattle.std.specs.Prelude.{IfOk};
ghost use Rattle.std.specs.List.{list_all};
ghost use Rattle.toml.specs.Data.{get_member};
ghost use Rattle.toml.specs.View.{view, table_view};
ghost use Rattle.cfg_model.specs.Accounts.{toml_account, toml_account_keys, parent_code};
ghost use Rattle.cfg_model.specs.Elements.{toml_code, toml_name, toml_account_name, toml_nature};
ghost use Rattle.cfg_model.specs.Elements.{is_printable as printable};
ghost use Rattle.cfg_model.specs.Walk.{of_shape, shape_or, toml_text, toml_texts};

use crate::element::elements_of;
use crate::walk::{find, first_unknown_key, flag_at, text_at};
use reg_base::{Code, List, Name, Text};
use std::alloc::{AllocError, Global};
use toml::{Table, Value};

// The longest name of an account, in bytes.
const LONGEST_NAME: usize = 32;

// The keys of an account's table.
const ACCOUNT_KEYS: [&str; 6] = ["code", "name", "kind", "off", "parent", "extras"];

/// An account of a ledger.
#[derive(Drop)]
pub struct Account {
    pub code: Code,
    /// 1 to 32 printable ASCII bytes.
    pub name: Text,
    pub nature: Nature,
    /// Whether entries may name it with no account on the other side.
    pub off: bool,
    /// The code of the account of the same ledger that sums it.
    pub parent: Option<Code>,
    /// The names of the values that its entries bring.
    pub extras: List<Name>,
}

/// The side on which an account shows its net.
#[derive(Clone, Copy, PartialEq, Eq, Debug)]
pub enum Nature {
    Active,
    Passive,
    Both,
}

impl Account {
    // The account that a table holds, where the table is of the right shape.
    #[tactic(auto, unfolding(crate::specs::Accounts::toml_account))]
    pub(crate) fn from_value(alloc: Global, value: &Value) -> Result<Option<Account>, AllocError>
        ensures { IfOk result (λ found. found ≡ toml_account (view value.now)) }
    {
        let Some(keys) = value.as_table() else {
            return Ok(None);
        };
        if first_unknown_key(keys, &ACCOUNT_KEYS).is_some() {
            return Ok(None);
        }
        Account::from_keys(alloc, keys)
    }

    #[tactic(auto, unfolding(crate::specs::Accounts::toml_account_keys))]
    fn from_keys(alloc: Global, keys: &Table) -> Result<Option<Account>, AllocError>
        ensures { IfOk result (λ found. found ≡ toml_account_keys (table_view keys.now)) }
    {
        let Some(code) = code_at(keys) else {
            return Ok(None);
        };
        let Some(name) = name_at(keys) else {
            return Ok(None);
        };
        let Some(nature) = nature_at(keys) else {
            return Ok(None);
        };
        let Some(off) = flag_at(keys, "off") else {
            return Ok(None);
        };
        let Some(parent) = parent_at(keys) else {
            return Ok(None);
        };
        let Some(extras) = extras_at(alloc, keys)? else {
            return Ok(None);
        };
        Ok(Some(Account {
            code,
            name: Text::from_str(alloc, name)?,
            nature,
            off,
            parent,
            extras,
        }))
    }
}

fn code_at(keys: &Table) -> Option<Code>
    ensures { result ≡ of_shape (toml_text toml_code) (codes "code") (table_view keys.now) }
{
    Code::parse(text_at(keys, "code")?)
}

#[tactic(auto, unfolding(crate::specs::Elements::toml_account_name))]
fn name_at(keys: &Table) -> Option<&str>
    ensures { let keys = table_view keys.now in
        let found = of_shape (toml_text toml_account_name) (codes "name") keys in
        option_map (λ n. n.now) result ≡ found }
{
    let name = text_at(keys, "name")?;
    if !name.is_empty() && name.len() <= LONGEST_NAME && are_printable(name.as_bytes()) {
        Some(name)
    } else {
        None
    }
}

fn are_printable(text: &[u8]) -> bool
    ensures { result ≡ list_all printable text.now }
{
    text.iter().all(|b| is_printable(*b))
}

fn is_printable(byte: u8) -> bool
    ensures { result ≡ printable byte }
{
    (b' '..=b'~').contains(&byte)
}

fn nature_at(keys: &Table) -> Option<Nature>
    ensures { result ≡ of_shape (toml_text toml_nature) (codes "kind") (table_view keys.now) }
{
    parse_nature(text_at(keys, "kind")?)
}

#[tactic(auto, unfolding(crate::specs::Elements::toml_nature))]
fn parse_nature(word: &str) -> Option<Nature>
    ensures { result ≡ toml_nature word.now }
{
    match word {
        "active" => Some(Nature::Active),
        "passive" => Some(Nature::Passive),
        "both" => Some(Nature::Both),
        _ => None,
    }
}

fn parent_at(keys: &Table) -> Option<Option<Code>>
    ensures { let found = get_member (codes "parent") (table_view keys.now) in
        result ≡ shape_or parent_code Absent found }
{
    let Some(value) = find(keys, "parent") else {
        return Some(None);
    };
    let code = Code::parse(value.as_str()?)?;
    Some(Some(code))
}

fn extras_at(alloc: Global, keys: &Table) -> Result<Option<List<Name>>, AllocError>
    ensures { let found = get_member (codes "extras") (table_view keys.now) in
        IfOk result (λ extras. extras ≡ shape_or (toml_texts toml_name) [] found) }
{
    match find(keys, "extras") {
        Some(value) => elements_of(alloc, value),
        None => Ok(Some(List::new(alloc))),
    }
}
