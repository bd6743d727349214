//! Sums of the sides of entries, by account and extras.
//!
//! Kept: a map from each account with extras to the sums of its debits and its credits, in order.
ghost use Rattle.std.specs.Prelude.{◌≡◌, ◌+◌, ◌<◌, ◌≤◌, ◌*◌, ◌^◌, ◌∷◌, [], ◌++◌, All, length, IfOk};
ghost use Rattle.std.specs.Prelude.{OnOk, filter, map};
ghost use Rattle.std.specs.List.{flat_map};
ghost use Rattle.reg_base.specs.BookedEntries.{entered_by};
ghost use Rattle.ledger_reg.specs.declared.walk.Span.TheVariants.{Inside as InsideIs};
ghost use Rattle.ledger_reg.specs.Sizes.{size_of};
ghost use Rattle.ledger_reg.specs.Walks.{HasShortLedgers, counts};
ghost use Rattle.ledger_reg.specs.Sides.{SumsSides, RaisesSide, sides_size, place_in, sides_in};
ghost use Rattle.ledger_reg.specs.Sides.{amounts_at as found_at, amounts_of, account_sum};
ghost use Rattle.ledger_reg.specs.Sides.{account_sums, is_moved as has_moved, AddsSide};
ghost use Rattle.ledger_reg.specs.Balances.{sums_size};

use crate::walk::{Gathers, Span, add_documents};
use doc_store::Documents;
use reg_base::{Code, Cut, List, Memory, Posting, Side};
use std::alloc::Global;
use std::collections::BTreeMap;

/// An account with extras.
#[derive(PartialEq, Eq, PartialOrd, Ord, Drop)]
pub(crate) struct SideKey {
    pub account: Code,
    pub extras: Vec<Code>,
}

/// The sums of debits and of credits.
#[derive(Clone, Copy)]
pub(crate) struct Amounts {
    pub debit: i128,
    pub credit: i128,
}

/// Sums by account and extras.
#[derive(Drop)]
pub(crate) struct SideSums {
    sums: BTreeMap<SideKey, Amounts>,
}

/// The sums of an account with extras, of which not both are 0.
#[derive(Drop)]
pub(crate) struct AccountSum {
    pub account: Code,
    pub extras: List<Code>,
    pub debit: i128,
    pub credit: i128,
}

/// The sums of the entries inside a cut, in order of account and extras.
pub(crate) fn cut_sums(
    alloc: Global,
    ledger: usize,
    cut: &Cut,
    documents: Documents<'_>,
) -> Result<List<AccountSum>, Memory>
    requires few { length documents < 2 ^ 32 }
    requires short { All HasShortLedgers documents }
    ensures value { IfOk result (λ sums. sums ≡ account_sums
        (filter (counts (InsideIs cut.now)) (flat_map (entered_by ledger) documents.entry))) }
    ensures small { IfOk result (λ sums. sums_size sums ≤ 2 ^ 64 * 2 ^ 46) }
{
    let mut sums = SideSums::new(alloc);
    let span = Span::Inside(*cut);
    add_documents(alloc, &mut sums, documents, ledger, &span)?;
    sums.into_moved(alloc)
}

impl SideSums {
    // Sums of no entries.
    fn new(alloc: Global) -> SideSums
        ensures { result.sums.entries ≡ [] }
    {
        SideSums {
            sums: BTreeMap::new(alloc),
        }
    }

    // The sums at an account with extras, and zeros where no entry has it.
    fn amounts_at(&self, key: &SideKey) -> Amounts
        ensures { result ≡ found_at (place_in key.now) (sides_in self.now.sums.entries) }
    {
        let none = Amounts {
            debit: 0,
            credit: 0,
        };
        self.sums.get(key).copied().unwrap_or(none)
    }

    // Adds to the sums at an account with extras.
    fn raise(
        &mut self,
        account: Code,
        extras: Vec<Code>,
        debit: i64,
        credit: i64,
    ) -> Result<(), Memory>
        requires { sides_size self.old ≤ 2 ^ 64 * 2 ^ 47 }
        ensures { IfOk result (λ _. RaisesSide (record {
          place = record { account = account; extras = extras.items };
          debit = debit;
          credit = credit;
        }) self.old self.new) }
    {
        let key = SideKey { account, extras };
        let before = self.amounts_at(&key);
        let after = Amounts {
            debit: i128::from(debit) + before.debit,
            credit: i128::from(credit) + before.credit,
        };
        self.sums.insert(key, after)?;
        Ok(())
    }

    // Adds a side, where it is there.
    fn add_side(
        &mut self,
        alloc: Global,
        side: &Option<Side>,
        debit: i64,
        credit: i64,
    ) -> Result<(), Memory>
        requires { sides_size self.old ≤ 2 ^ 64 * 2 ^ 47 }
        ensures { IfOk result (λ _. AddsSide (amounts_of side.now debit credit)
            (size_of debit + size_of credit) self.old self.new) }
    {
        match side {
            Some(side) => {
                let extras = Vec::from_slice(alloc, side.extras.as_slice())?;
                self.raise(side.account, extras, debit, credit)
            }
            None => Ok(()),
        }
    }

    // The sums that are not both 0, in order.
    fn into_moved(self, alloc: Global) -> Result<List<AccountSum>, Memory>
        ensures { IfOk result (λ rows. rows
            ≡ filter has_moved (map account_sum (sides_in self.sums.entries))) }
    {
        let SideSums { sums } = self;
        let mut rows = List::new(alloc);
        for (key, amounts) in sums {
            push_moved(&mut rows, key, amounts)?;
        }
        Ok(rows)
    }
}

impl Gathers for SideSums {
    ghost holds = { λ span. SumsSides };

    ghost size = { sides_size };

    fn add(&mut self, alloc: Global, posting: &Posting, _span: &Span) -> Result<(), Memory> {
        self.add_side(alloc, &posting.debit, posting.amount, 0)?;
        self.add_side(alloc, &posting.credit, 0, posting.amount)
    }
}

// Puts sums behind the others, unless both are 0.
fn push_moved(rows: &mut List<AccountSum>, key: SideKey, amounts: Amounts) -> Result<(), Memory>
    ensures { OnOk result (rows.new ≡ rows.old
        ++ filter has_moved (account_sum (place_in key, amounts) ∷ [])) }
{
    let SideKey { account, extras } = key;
    let sum = AccountSum {
        account,
        extras: List::from_vec(extras),
        debit: amounts.debit,
        credit: amounts.credit,
    };
    if is_moved(&sum) {
        rows.push(sum)?;
    }
    Ok(())
}

// Whether not both sums are 0.
fn is_moved(sum: &AccountSum) -> bool
    ensures { result ≡ has_moved sum.now }
{
    sum.debit != 0 || sum.credit != 0
}
