//! Sums of the sides of entries, by account, extras and unit.
//!
//! Kept: a map from each account with extras and a slot to the sums of its debits and its credits,
//! in order. A slot is one more than the second at which a unit starts, and 0 is what lies before
//! the range.
ghost use Rattle.std.specs.Prelude.{◌≡◌, ◌+◌, ◌≤◌, ◌*◌, ◌^◌, ◌∷◌, [], IfOk};
ghost use Rattle.ledger_reg.specs.Sides.{amounts_size};
ghost use Rattle.ledger_reg.specs.Slots.{SumsSlots, AddsSlots, slots_size, slot_in, slots_in};
ghost use Rattle.ledger_reg.specs.Slots.{slot_amounts, slot_side, slot_at as slot_in_range};
ghost use Rattle.ledger_reg.specs.Slots.{amount_to as amount_in_range, slot_of as slot_in_span};
ghost use Rattle.ledger_reg.specs.Slots.{amount_in as amount_in_span};

use crate::sides::Amounts;
use crate::walk::{Gathers, Span};
use reg_base::{Code, Date, Memory, Posting, Range, Side, unit_start};
use std::alloc::Global;
use std::collections::BTreeMap;

/// An account with extras, and the slot of a unit.
#[derive(PartialEq, Eq, PartialOrd, Ord, Drop)]
pub(crate) struct SlotKey {
    pub account: Code,
    pub extras: Vec<Code>,
    pub slot: u32,
}

/// Sums by account, extras and slot.
#[derive(Drop)]
pub(crate) struct SlotSums {
    pub sums: BTreeMap<SlotKey, Amounts>,
}

impl SlotSums {
    /// Sums of nothing.
    pub(crate) fn new(alloc: Global) -> SlotSums
        ensures { result.sums.entries ≡ [] }
    {
        SlotSums {
            sums: BTreeMap::new(alloc),
        }
    }

    /// The sums at a place, and zeros where there are none.
    pub(crate) fn amounts_at(&self, key: &SlotKey) -> Amounts
        ensures { result ≡ slot_amounts (slot_in key.now) (slots_in self.now.sums.entries) }
    {
        let none = Amounts {
            debit: 0,
            credit: 0,
        };
        self.sums.get(key).copied().unwrap_or(none)
    }

    /// Adds to the sums at a place.
    pub(crate) fn raise(&mut self, key: SlotKey, more: &Amounts) -> Result<(), Memory>
        requires reach { slots_size self.old ≤ 2 ^ 64 * 2 ^ 47 }
        requires small { amounts_size more.now ≤ 2 ^ 64 * 2 ^ 47 }
        ensures { IfOk result (λ _. AddsSlots ((slot_in key, more.now) ∷ [])
            (amounts_size more.now) self.old self.new) }
    {
        let before = self.amounts_at(&key);
        let after = Amounts {
            debit: more.debit + before.debit,
            credit: more.credit + before.credit,
        };
        self.sums.insert(key, after)?;
        Ok(())
    }

    // Adds a side, where it is there.
    fn add_side(
        &mut self,
        alloc: Global,
        side: &Option<Side>,
        slot: u32,
        more: &Amounts,
    ) -> Result<(), Memory>
        requires reach { slots_size self.old ≤ 2 ^ 64 * 2 ^ 47 }
        requires small { amounts_size more.now ≤ 2 ^ 64 * 2 ^ 47 }
        ensures { IfOk result (λ _. AddsSlots (slot_side slot side.now more.now)
            (amounts_size more.now) self.old self.new) }
    {
        match side {
            Some(side) => {
                let key = SlotKey {
                    account: side.account,
                    extras: Vec::from_slice(alloc, side.extras.as_slice())?,
                    slot,
                };
                self.raise(key, more)
            }
            None => Ok(()),
        }
    }
}

impl Gathers for SlotSums {
    ghost holds = { SumsSlots };

    ghost size = { slots_size };

    fn add(&mut self, alloc: Global, posting: &Posting, span: &Span) -> Result<(), Memory> {
        let slot = slot_of(span, posting.period);
        let amount = i128::from(amount_in(span, posting.period, posting.amount));
        let debit = Amounts {
            debit: amount,
            credit: 0,
        };
        let credit = Amounts {
            debit: 0,
            credit: amount,
        };
        self.add_side(alloc, &posting.debit, slot, &debit)?;
        self.add_side(alloc, &posting.credit, slot, &credit)
    }
}

// The slot of a date in a span.
fn slot_of(span: &Span, date: Date) -> u32
    ensures { result ≡ slot_in_span span.now date }
{
    match span {
        Span::Inside(_) => 0,
        Span::During(range) => slot_at(range, date),
        Span::Through(range) => slot_at(range, date),
    }
}

// The slot of a date in a range, and 0 out of it.
fn slot_at(range: &Range, date: Date) -> u32
    ensures { result ≡ slot_in_range range.now date }
{
    if date < range.from || range.to < date {
        return 0;
    }
    unit_start(range.by, date).seconds() + 1
}

// The amount that an entry of a span adds.
fn amount_in(span: &Span, date: Date, amount: i64) -> i64
    ensures { result ≡ amount_in_span span.now date amount }
{
    match span {
        Span::Inside(_) => amount,
        Span::During(range) => amount_to(range, date, amount),
        Span::Through(range) => amount_to(range, date, amount),
    }
}

// The amount of an entry, and nothing behind a range.
fn amount_to(range: &Range, date: Date, amount: i64) -> i64
    ensures { result ≡ amount_in_range range.now date amount }
{
    if date < range.from || date <= range.to {
        amount
    } else {
        0
    }
}
