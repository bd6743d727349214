//! Which accounts stand below which.
ghost use Rattle.std.specs.Prelude.{◌≡◌, length, option_map};
ghost use Rattle.cfg_model.specs.Places.{account_at as at_code};
ghost use Rattle.cfg_model.specs.Accounts.{leads_to as leads_to_code, parent_of as parent_in};
ghost use Rattle.cfg_model.specs.AccountTables.{is_at_or_below as at_or_below};

use crate::entry::account_at;
use crate::{Account, Chart};
use reg_base::Code;

impl Chart {
    /// The account of this code.
    pub fn account(&self, code: &Code) -> Option<&Account>
        ensures { option_map (λ a. a.now) result ≡ at_code code.now self.now.accounts }
    {
        account_at(self.accounts.as_slice(), code)
    }

    /// Whether an account is this one or stands below it.
    pub fn is_at_or_below(&self, top: &Code, code: &Code) -> bool
        ensures { result ≡ at_or_below self.now top.now code.now }
    {
        *top == *code || leads_to(self.accounts.as_slice(), top, code)
    }
}

// Whether the way from an account to its parents comes to another one. No way is longer than the
// chart, unless it goes round without it: so as many steps are enough.
#[tactic(auto, unfolding(crate::specs::Accounts::leads_to))]
fn leads_to(accounts: &[Account], top: &Code, code: &Code) -> bool
    ensures { let steps = length accounts.now in
        result ≡ leads_to_code steps accounts.now top.now (parent_in accounts.now code.now) }
{
    let mut next = parent_of(accounts, code);
    'steps: for _ in 0..accounts.len() {
        let Some(above) = next else {
            return false;
        };
        if above == *top {
            return true;
        }
        next = parent_of(accounts, &above);
    }
    false
}

// The code of the parent of the account of this code.
fn parent_of(accounts: &[Account], code: &Code) -> Option<Code>
    ensures { result ≡ parent_in accounts.now code.now }
{
    account_at(accounts, code)?.parent
}
