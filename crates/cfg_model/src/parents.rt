//! The way from an account to its parents.
ghost use Rattle.std.specs.Prelude.{◌≡◌, length};
ghost use Rattle.reg_base.specs.Results.{Gives};
ghost use Rattle.cfg_model.specs.declared.fault.CfgFault.TheVariants.{Memory};
ghost use Rattle.cfg_model.specs.Accounts.{each_checked, not_circular, leads_to, parent_of};
ghost use Rattle.cfg_model.specs.AccountMaps.{LeadsToPlaces};

use crate::accounts::account_at;
use crate::walk::twice;
use crate::{Account, CfgFault};
use reg_base::Code;
use std::alloc::Global;
use std::collections::BTreeMap;

// Refuses an account whose parents lead back to it.
#[tactic(auto, unfolding(crate::specs::Accounts::each_checked))]
pub(crate) fn none_circular(
    alloc: Global,
    accounts: &[Account],
    places: &BTreeMap<Code, usize>,
) -> Result<(), CfgFault>
    requires { LeadsToPlaces places.now.entries accounts.now }
    ensures { Gives Memory result (each_checked (not_circular accounts.now) accounts.now) }
{
    'accounts: for account in accounts {
        if leads_back(accounts, places, &account.code, &account.parent) {
            return Err(twice(alloc, account.code.as_str()));
        }
    }
    Ok(())
}

// Whether the way from a parent on comes to the code. No way is longer than the list, unless it
// goes round without the code: so as many steps are enough.
#[tactic(auto, unfolding(crate::specs::Accounts::leads_to))]
fn leads_back(
    accounts: &[Account],
    places: &BTreeMap<Code, usize>,
    code: &Code,
    parent: &Option<Code>,
) -> bool
    requires { LeadsToPlaces places.now.entries accounts.now }
    ensures { let steps = length accounts.now in
        result ≡ leads_to steps accounts.now code.now parent.now }
{
    let mut next = *parent;
    'steps: for _ in 0..accounts.len() {
        let Some(above) = next else {
            return false;
        };
        if above == *code {
            return true;
        }
        next = parent_of(accounts, places, &above);
    }
    false
}

// The code of the parent of the account of this code.
fn parent_of(accounts: &[Account], places: &BTreeMap<Code, usize>, code: &Code) -> Option<Code>
    requires { LeadsToPlaces places.now.entries accounts.now }
    ensures { result ≡ parent_of accounts.now code.now }
{
    account_at(accounts, places, code)?.parent
}
