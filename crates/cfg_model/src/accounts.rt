//! The chart of accounts of a ledger: its list of tables, and what has to hold of all of them.
ghost use Rattle.std.specs.Prelude.{◌≡◌, codes, List, ℕ, [], map, option_map, IfOk};
ghost use Rattle.std.specs.Prelude.{Some as There, if◌then◌else◌};
ghost use Rattle.cfg_model.specs.declared.account.Account.{Account};
ghost use Rattle.std.specs.Str.{bytes_eq};
ghost use Rattle.toml.specs.View.{array_view, table_view};
ghost use Rattle.reg_base.specs.Results.{Gives, GivesAs, some_or};
ghost use Rattle.cfg_model.specs.declared.fault.CfgFault.TheVariants.{Memory, Field};
ghost use Rattle.cfg_model.specs.Places.{account_at as at_code};
ghost use Rattle.cfg_model.specs.Words.{is_one_of, key_path};
ghost use Rattle.cfg_model.specs.Walk.{of_shape, toml_list, toml_each};
ghost use Rattle.cfg_model.specs.Accounts.{read_accounts, toml_account, each_checked, each_once};
ghost use Rattle.cfg_model.specs.Accounts.{check_accounts, check_parents};
ghost use Rattle.cfg_model.specs.Accounts.{parent_known, has_known_parent, has_parents_off};
ghost use Rattle.cfg_model.specs.Accounts.{few_extras as few_extras_at, agrees_in_off as agrees};
ghost use Rattle.cfg_model.specs.Accounts.{put_account, by_code as by_code_of};
ghost use Rattle.cfg_model.specs.AccountMaps.{AreKeyed, values_of, place_at, LeadsToPlaces};

use crate::element::distinct;
use crate::parents::none_circular;
use crate::walk::{Entry, twice, unknown};
use crate::{Account, CfgFault};
use reg_base::{Code, List};
use std::alloc::{AllocError, Global};
use std::collections::BTreeMap;
use toml::value::Array;

/// How many accounts a ledger has at the most.
pub const ACCOUNT_LIMIT: usize = 512;

/// How many extras an account has at the most.
pub const EXTRA_LIMIT: usize = 3;

// The accounts of a ledger, in byte order of codes.
#[tactic(auto, unfolding(crate::specs::Accounts::read_accounts))]
pub(crate) fn read_accounts(alloc: Global, entry: &Entry) -> Result<List<Account>, CfgFault>
    requires { entry.now.group.now ≡ codes "ledger" }
    ensures { let keys = table_view entry.now.keys.now in
        Gives Memory result (read_accounts entry.now.name.now keys) }
{
    let accounts = accounts_at(alloc, entry)?;
    entry.at_most(alloc, "accounts", ACCOUNT_LIMIT, accounts.len())?;
    check_accounts(alloc, entry, accounts.as_slice())?;
    Ok(by_code(alloc, accounts)?)
}

// Refuses accounts that do not fit each other, or have too many extras.
#[tactic(auto, unfolding(crate::specs::Accounts::check_accounts))]
fn check_accounts(alloc: Global, entry: &Entry, accounts: &[Account]) -> Result<(), CfgFault>
    requires { entry.now.group.now ≡ codes "ledger" }
    ensures { let path = key_path (codes "ledger") entry.now.name.now (codes "accounts") in
        Gives Memory result (check_accounts path accounts.now) }
{
    few_extras(alloc, entry, accounts)?;
    let places = places_of(alloc, accounts)?;
    check_parents(alloc, entry, accounts, &places)
}

// Refuses a parent that is no account, that leads back, or that differs in `off`.
#[tactic(auto, unfolding(crate::specs::Accounts::check_parents))]
fn check_parents(
    alloc: Global,
    entry: &Entry,
    accounts: &[Account],
    places: &BTreeMap<Code, usize>,
) -> Result<(), CfgFault>
    requires group { entry.now.group.now ≡ codes "ledger" }
    requires places { LeadsToPlaces places.now.entries accounts.now }
    ensures { let path = key_path (codes "ledger") entry.now.name.now (codes "accounts") in
        Gives Memory result (check_parents path accounts.now) }
{
    all_parents_known(alloc, accounts, places)?;
    none_circular(alloc, accounts, places)?;
    all_agree_in_off(alloc, entry, accounts, places)
}

// The accounts that the list under the key holds, in its order.
fn accounts_at(alloc: Global, entry: &Entry) -> Result<List<Account>, CfgFault>
    requires { entry.now.group.now ≡ codes "ledger" }
    ensures { let path = key_path (codes "ledger") entry.now.name.now (codes "accounts") in
        let keys = table_view entry.now.keys.now in
        let found = of_shape (toml_list toml_account) (codes "accounts") keys in
        Gives Memory result (some_or found (Field path)) }
{
    let Some(value) = entry.get("accounts") else {
        return Err(entry.wrong(alloc, "accounts"));
    };
    let Some(array) = value.as_array() else {
        return Err(entry.wrong(alloc, "accounts"));
    };
    let Some(found) = accounts_of(alloc, array)? else {
        return Err(entry.wrong(alloc, "accounts"));
    };
    Ok(found)
}

fn accounts_of(alloc: Global, array: &Array) -> Result<Option<List<Account>>, AllocError>
    ensures { IfOk result (λ found. found ≡ toml_each toml_account (array_view array.now)) }
{
    let mut found = Vec::new(alloc);
    'items: for item in array {
        let Some(account) = Account::from_value(alloc, item)? else {
            return Ok(None);
        };
        found.push(account)?;
    }
    Ok(Some(List::from_vec(found)))
}

// Refuses an account with too many extras.
#[tactic(auto, unfolding(crate::specs::Accounts::each_checked))]
fn few_extras(alloc: Global, entry: &Entry, accounts: &[Account]) -> Result<(), CfgFault>
    requires { entry.now.group.now ≡ codes "ledger" }
    ensures { let path = key_path (codes "ledger") entry.now.name.now (codes "accounts") in
        Gives Memory result (each_checked (few_extras_at path) accounts.now) }
{
    'accounts: for account in accounts {
        entry.at_most(alloc, "accounts", EXTRA_LIMIT, account.extras.len())?;
    }
    Ok(())
}

// The places of accounts by their codes; refuses a code that stands before, and an extra that
// stands twice.
#[tactic(auto, unfolding(crate::specs::Accounts::each_once))]
fn places_of(alloc: Global, accounts: &[Account]) -> Result<BTreeMap<Code, usize>, CfgFault>
    ensures once { GivesAs Memory (λ _. tt) result (each_once [] accounts.now) }
    ensures places { IfOk result (λ places. LeadsToPlaces places.entries accounts.now) }
{
    let mut places = BTreeMap::new(alloc);
    'accounts: for (index, account) in accounts.iter().enumerate() {
        if has_code(&places, &account.code) {
            return Err(twice(alloc, account.code.as_str()));
        }
        distinct(alloc, account.extras.as_slice())?;
        put_place(&mut places, account.code, index)?;
    }
    Ok(places)
}

// Whether one of the accounts that the map leads to has the code.
fn has_code(places: &BTreeMap<Code, usize>, code: &Code) -> bool
    ensures { (accounts : List Account) → LeadsToPlaces places.now.entries accounts
        → result ≡ is_one_of (map (λ a. a.code) accounts) code.now }
{
    place_of(places, code).is_some()
}

// The place that the map has under a code.
fn place_of(places: &BTreeMap<Code, usize>, code: &Code) -> Option<usize>
    ensures { result ≡ place_at code.now places.now.entries }
{
    places.get(code).copied()
}

fn put_place(places: &mut BTreeMap<Code, usize>, code: Code, place: usize) -> Result<(), AllocError>
    ensures { IfOk result (λ _. (q : List ℕ) → place_at q places.new.entries
        ≡ (if bytes_eq code q then There place else place_at q places.old.entries)) }
{
    places.insert(code, place)?;
    Ok(())
}

// The account of a code.
pub(crate) fn account_at<'a>(
    accounts: &'a [Account],
    places: &BTreeMap<Code, usize>,
    code: &Code,
) -> Option<&'a Account>
    requires { LeadsToPlaces places.now.entries accounts.now }
    ensures { option_map (λ a. a.now) result ≡ at_code code.now accounts.now }
{
    accounts.get(place_of(places, code)?)
}

// Refuses a parent that is no account.
#[tactic(auto, unfolding(crate::specs::Accounts::each_checked))]
fn all_parents_known(
    alloc: Global,
    accounts: &[Account],
    places: &BTreeMap<Code, usize>,
) -> Result<(), CfgFault>
    requires { LeadsToPlaces places.now.entries accounts.now }
    ensures { Gives Memory result (each_checked (has_known_parent accounts.now) accounts.now) }
{
    'accounts: for account in accounts {
        check_parent(alloc, accounts, places, &account.parent)?;
    }
    Ok(())
}

#[tactic(auto, unfolding(crate::specs::Accounts::parent_known))]
fn check_parent(
    alloc: Global,
    accounts: &[Account],
    places: &BTreeMap<Code, usize>,
    parent: &Option<Code>,
) -> Result<(), CfgFault>
    requires { LeadsToPlaces places.now.entries accounts.now }
    ensures { Gives Memory result (parent_known accounts.now parent.now) }
{
    let Some(code) = parent else {
        return Ok(());
    };
    if account_at(accounts, places, code).is_none() {
        return Err(unknown(alloc, code.as_str()));
    }
    Ok(())
}

// Refuses an account that is off-balance where its parent is not, or the other way round.
#[tactic(auto, unfolding(crate::specs::Accounts::each_checked))]
fn all_agree_in_off(
    alloc: Global,
    entry: &Entry,
    accounts: &[Account],
    places: &BTreeMap<Code, usize>,
) -> Result<(), CfgFault>
    requires group { entry.now.group.now ≡ codes "ledger" }
    requires places { LeadsToPlaces places.now.entries accounts.now }
    ensures { let path = key_path (codes "ledger") entry.now.name.now (codes "accounts") in
        Gives Memory result (each_checked (has_parents_off path accounts.now) accounts.now) }
{
    'accounts: for account in accounts {
        if !agrees_in_off(accounts, places, account) {
            return Err(entry.wrong(alloc, "accounts"));
        }
    }
    Ok(())
}

#[tactic(auto, unfolding(crate::specs::Accounts::agrees_in_off))]
fn agrees_in_off(accounts: &[Account], places: &BTreeMap<Code, usize>, account: &Account) -> bool
    requires { LeadsToPlaces places.now.entries accounts.now }
    ensures { result ≡ agrees accounts.now account.now.off account.now.parent }
{
    let Some(parent) = &account.parent else {
        return true;
    };
    match account_at(accounts, places, parent) {
        Some(found) => found.off == account.off,
        None => false,
    }
}

// The accounts in byte order of codes.
fn by_code(alloc: Global, accounts: List<Account>) -> Result<List<Account>, AllocError>
    ensures { IfOk result (λ sorted. sorted ≡ by_code_of accounts) }
{
    let mut by_code = BTreeMap::new(alloc);
    'accounts: for account in accounts.into_vec() {
        enter(&mut by_code, account)?;
    }
    accounts_in_order(alloc, by_code)
}

// Puts an account under its code.
fn enter(by_code: &mut BTreeMap<Code, Account>, account: Account) -> Result<(), AllocError>
    requires { AreKeyed by_code.old.entries }
    ensures values { IfOk result (λ _. values_of by_code.new.entries
        ≡ put_account account (values_of by_code.old.entries)) }
    ensures keyed { IfOk result (λ _. AreKeyed by_code.new.entries) }
{
    by_code.insert(account.code, account)?;
    Ok(())
}

fn accounts_in_order(
    alloc: Global,
    by_code: BTreeMap<Code, Account>,
) -> Result<List<Account>, AllocError>
    ensures { IfOk result (λ sorted. sorted ≡ values_of by_code.entries) }
{
    let mut sorted = List::new(alloc);
    for (_, account) in by_code {
        sorted.push(account)?;
    }
    Ok(sorted)
}
