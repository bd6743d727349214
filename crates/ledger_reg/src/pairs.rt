//! Sums of entries by the pair of accounts that they join.
ghost use Rattle.std.specs.Prelude.{◌≡◌, ℕ, ◌<◌, ◌≤◌, ◌*◌, ◌^◌, ◌∷◌, [], All, length, IfOk};
ghost use Rattle.std.specs.List.{flat_map};
ghost use Rattle.reg_base.specs.Tries.{Tries};
ghost use Rattle.reg_base.specs.BookedEntries.{entries_of};
ghost use Rattle.reg_base.specs.Turnovers.{table_of, limited_rows};
ghost use Rattle.cfg_model.specs.AccountTables.{dr_cr_of};
ghost use Rattle.cfg_model.specs.AccountTables.{joins_asked as are_joined, has_asked as is_shown};
ghost use Rattle.cfg_model.specs.AccountTables.{account_of_side as account_on};
ghost use Rattle.ledger_reg.specs.Walks.{HasShortLedgers};
ghost use Rattle.ledger_reg.specs.Pairs.{SumsPairs, RaisesPair, pairs_size, pair_in, pairs_in};
ghost use Rattle.ledger_reg.specs.Pairs.{sum_at, shown_pair};
ghost use Rattle.ledger_reg.specs.RowLists.{Puts};

use crate::ask::AccountAsk;
use crate::rows::{check_range, put_row};
use crate::walk::{Gathers, Span, add_documents};
use cfg_model::Chart;
use doc_store::Documents;
use reg_base::{Code, Fault, List, Memory, PairRow, Posting, Range, Side, TableFault};
use std::alloc::Global;
use std::collections::BTreeMap;

/// The accounts of an entry, an absent one first.
#[derive(Clone, Copy, PartialEq, Eq, PartialOrd, Ord)]
pub(crate) struct PairKey {
    debit: Option<Code>,
    credit: Option<Code>,
}

/// Sums by pair, in order.
#[derive(Drop)]
pub(crate) struct PairSums {
    sums: BTreeMap<PairKey, i128>,
}

/// The sums of the entries of a range by their pairs of accounts.
pub fn dr_cr(
    alloc: Global,
    ask: &AccountAsk,
    range: &Range,
    documents: Documents<'_>,
    chart: &Chart,
) -> Result<List<PairRow>, Fault<TableFault>>
    requires few { length documents < 2 ^ 32 }
    requires short { All HasShortLedgers documents }
    ensures { Tries result (table_of range.now (dr_cr_of chart.now
        (entries_of ask.now.ledger documents.entry) ask.now.account range.now)) }
{
    check_range(range)?;
    let mut sums = PairSums::new(alloc);
    let span = Span::During(*range);
    add_documents(alloc, &mut sums, documents, ask.ledger, &span)?;
    pair_rows(alloc, &sums, &ask.account, chart)
}

impl PairSums {
    // Sums of no entries.
    fn new(alloc: Global) -> PairSums
        ensures { result.sums.entries ≡ [] }
    {
        PairSums {
            sums: BTreeMap::new(alloc),
        }
    }

    // The sum of a pair, and 0 where no entry has it.
    fn sum_of(&self, pair: &PairKey) -> i128
        ensures { result ≡ sum_at (pair_in pair.now) (pairs_in self.now.sums.entries) }
    {
        self.sums.get(pair).copied().unwrap_or(0)
    }

    // Adds an amount to the sum of a pair.
    fn raise(
        &mut self,
        debit: Option<Code>,
        credit: Option<Code>,
        amount: i64,
    ) -> Result<(), Memory>
        requires { pairs_size self.old ≤ 2 ^ 64 * 2 ^ 46 }
        ensures { IfOk result (λ _. RaisesPair (record { debit = debit; credit = credit }) amount
            self.old self.new) }
    {
        let pair = PairKey { debit, credit };
        let sum = i128::from(amount) + self.sum_of(&pair);
        self.sums.insert(pair, sum)?;
        Ok(())
    }
}

impl Gathers for PairSums {
    ghost holds = { λ span. SumsPairs };

    ghost size = { pairs_size };

    fn add(&mut self, _alloc: Global, posting: &Posting, _span: &Span) -> Result<(), Memory> {
        let debit = account_of(&posting.debit);
        let credit = account_of(&posting.credit);
        self.raise(debit, credit, posting.amount)
    }
}

// The account of a side, where it is there.
fn account_of(side: &Option<Side>) -> Option<Code>
    ensures { result ≡ account_on side.now }
{
    match side {
        Some(side) => Some(side.account),
        None => None,
    }
}

// The rows of the pairs that are shown.
fn pair_rows(
    alloc: Global,
    sums: &PairSums,
    asked: &Option<Code>,
    chart: &Chart,
) -> Result<List<PairRow>, Fault<TableFault>>
    ensures { Tries result (limited_rows (flat_map (shown_pair chart.now asked.now)
        (pairs_in sums.now.sums.entries))) }
{
    let mut rows = List::new(alloc);
    for (pair, amount) in sums.sums.iter() {
        put_pair(&mut rows, pair, amount, asked, chart)?;
    }
    Ok(rows)
}

// Puts the row of a pair, where it is shown.
fn put_pair(
    rows: &mut List<PairRow>,
    pair: &PairKey,
    amount: &i128,
    asked: &Option<Code>,
    chart: &Chart,
) -> Result<(), Fault<TableFault>>
    ensures { Puts result (shown_pair chart.now asked.now (pair_in pair.now, amount.now))
        rows.old rows.new }
{
    if *amount == 0 || !joins_asked(chart, asked, pair) {
        return Ok(());
    }
    put_row(
        rows,
        PairRow {
            debit: pair.debit,
            credit: pair.credit,
            amount: *amount,
        },
    )
}

// Whether either account of a pair is the one asked for or stands below it.
fn joins_asked(chart: &Chart, asked: &Option<Code>, pair: &PairKey) -> bool
    ensures { result ≡ are_joined chart.now asked.now (pair_in pair.now) }
{
    has_asked(chart, asked, &pair.debit) || has_asked(chart, asked, &pair.credit)
}

// Whether an account is there and is asked for.
fn has_asked(chart: &Chart, asked: &Option<Code>, account: &Option<Code>) -> bool
    ensures { result ≡ is_shown chart.now asked.now account.now }
{
    match (asked, account) {
        (None, _) => true,
        (Some(_), None) => false,
        (Some(top), Some(code)) => chart.is_at_or_below(top, code),
    }
}
