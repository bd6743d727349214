//! Whether a chart of accounts accepts an entry.
ghost use Rattle.std.specs.Prelude.{◌≡◌, option_map};
ghost use Rattle.std.specs.List.{list_any};
ghost use Rattle.cfg_model.specs.Places.{account_at as at_code};
ghost use Rattle.cfg_model.specs.Entries.{entry_check, of_side, has_account, is_leaf, has_extras};
ghost use Rattle.cfg_model.specs.Entries.{is_off_balance, is_parent, sides_fit};

use crate::{Account, Chart};
use reg_base::{Code, EntryFault, Side};

/// Accepts an entry of a ledger, or says the first of its faults. It takes no memory.
#[tactic(auto, unfolding(crate::specs::Entries::entry_check))]
pub fn check_entry(
    chart: &Chart,
    debit: &Option<Side>,
    credit: &Option<Side>,
) -> Result<(), EntryFault>
    ensures { result ≡ entry_check chart.now debit.now credit.now }
{
    if !chart.has_account_of(debit) || !chart.has_account_of(credit) {
        return Err(EntryFault::UnknownAccount);
    }
    if !chart.has_leaf_of(debit) || !chart.has_leaf_of(credit) {
        return Err(EntryFault::GroupAccount);
    }
    if !chart.has_extras_of(debit) || !chart.has_extras_of(credit) {
        return Err(EntryFault::ExtraCount);
    }
    if !chart.sides_fit(debit, credit) {
        return Err(EntryFault::Sides);
    }
    Ok(())
}

impl Chart {
    fn has_account_of(&self, side: &Option<Side>) -> bool
        ensures { result ≡ of_side (has_account self.now) side.now }
    {
        match side {
            Some(side) => self.account(&side.account).is_some(),
            None => true,
        }
    }

    fn has_leaf_of(&self, side: &Option<Side>) -> bool
        ensures { result ≡ of_side (is_leaf self.now) side.now }
    {
        match side {
            Some(side) => !self.has_parent(&side.account),
            None => true,
        }
    }

    fn has_parent(&self, code: &Code) -> bool
        ensures { result ≡ list_any (is_parent code.now) self.now.accounts }
    {
        self.accounts
            .as_slice()
            .iter()
            .any(|account| has_parent(account, code))
    }

    fn has_extras_of(&self, side: &Option<Side>) -> bool
        ensures { result ≡ of_side (has_extras self.now) side.now }
    {
        match side {
            Some(side) => self.has_extras(side),
            None => true,
        }
    }

    fn has_extras(&self, side: &Side) -> bool
        ensures { result ≡ has_extras self.now side.now }
    {
        match self.account(&side.account) {
            Some(account) => side.extras.len() == account.extras.len(),
            None => false,
        }
    }

    fn sides_fit(&self, debit: &Option<Side>, credit: &Option<Side>) -> bool
        ensures { result ≡ sides_fit self.now debit.now credit.now }
    {
        match (debit, credit) {
            (None, None) => false,
            (Some(side), None) | (None, Some(side)) => self.is_off_balance(side),
            (Some(debit), Some(credit)) => {
                self.is_off_balance(debit) == self.is_off_balance(credit)
            }
        }
    }

    fn is_off_balance(&self, side: &Side) -> bool
        ensures { result ≡ is_off_balance self.now side.now }
    {
        match self.account(&side.account) {
            Some(account) => account.off,
            None => false,
        }
    }
}

// Whether this is the code of the account's parent.
fn has_parent(account: &Account, code: &Code) -> bool
    ensures { result ≡ is_parent code.now account.now }
{
    match &account.parent {
        Some(parent) => *parent == *code,
        None => false,
    }
}

/// The first account of a code.
#[tactic(auto, unfolding(crate::specs::Places::account_at))]
pub(crate) fn account_at<'a>(accounts: &'a [Account], code: &Code) -> Option<&'a Account>
    ensures { option_map (λ a. a.now) result ≡ at_code code.now accounts.now }
{
    'accounts: for account in accounts {
        if account.code == *code {
            return Some(account);
        }
    }
    None
}
