//! The rows of an account, or of an account with extras, per unit of a range.
ghost use Rattle.std.specs.Prelude.{◌≡◌, ◌+◌, ◌≤◌, ◌*◌, ◌^◌, ◌∷◌, [], not, length, IfOk};
ghost use Rattle.reg_base.specs.Sums.{has_number as has_number_in};
ghost use Rattle.cfg_model.specs.AccountTables.{account_row, by_nature};
ghost use Rattle.cfg_model.specs.declared.account.Nature.TheVariants.{Both};
ghost use Rattle.ledger_reg.specs.Sides.{amounts_size, place_in};
ghost use Rattle.ledger_reg.specs.Sizes.{size_of};
ghost use Rattle.ledger_reg.specs.RowLists.{Puts};
ghost use Rattle.ledger_reg.specs.Slots.{slot_in, slots_in, slots_size};
ghost use Rattle.ledger_reg.specs.UnitRows.{place_of, in_slot, shown_net, shown_row, unit_row};
ghost use Rattle.ledger_reg.specs.UnitRows.{place_rows, unit_rows, key_of_place, net_of};
ghost use Rattle.ledger_reg.specs.UnitRows.{net_after as net_with};

use crate::rows::put_row;
use crate::sides::{Amounts, SideKey};
use crate::slots::{SlotKey, SlotSums};
use crate::units::{Units, unit_at};
use cfg_model::Nature;
use reg_base::{AccountRow, Date, Fault, List, Memory, TableFault, Unit};
use std::alloc::Global;

/// Puts the rows of an account with extras, one for each unit in which it has something to show.
pub(crate) fn put_rows(
    alloc: Global,
    rows: &mut List<AccountRow>,
    units: &Units,
    nature: Nature,
    sums: &SlotSums,
    key: &SideKey,
) -> Result<(), Fault<TableFault>>
    requires few { length units.now.starts ≤ 36_525 }
    requires small { slots_size sums.now ≤ 2 ^ 64 * 2 ^ 46 }
    ensures { Puts result (place_rows units.now nature (slots_in sums.now.sums.entries)
        (place_in key.now)) rows.old rows.new }
{
    let mut at = first_slot(alloc, key)?;
    let opening = amounts_in(sums, &mut at, 0);
    put_from(alloc, rows, units, nature, sums, at, &difference(&opening))
}

// Puts the rows of a place, from the net before the first unit.
fn put_from(
    alloc: Global,
    rows: &mut List<AccountRow>,
    units: &Units,
    nature: Nature,
    sums: &SlotSums,
    first: SlotKey,
    opening: &i128,
) -> Result<(), Fault<TableFault>>
    requires few { length units.now.starts ≤ 36_525 }
    requires small { slots_size sums.now ≤ 2 ^ 64 * 2 ^ 46 }
    requires opening { size_of opening.now ≤ 2 ^ 64 * 2 ^ 46 }
    ensures { Puts result (unit_rows units.now nature (slots_in sums.now.sums.entries)
        (place_of (slot_in first)) opening.now units.now.starts) rows.old rows.new }
{
    let mut at = first;
    let mut net = *opening;
    for start in units.starts.as_slice() {
        let moved = amounts_in(sums, &mut at, start.seconds() + 1);
        put_unit(alloc, rows, units, nature, &at, *start, &net, &moved)?;
        net = net_after(&net, &moved);
    }
    Ok(())
}

// The place of an account with extras in slot 0.
fn first_slot(alloc: Global, key: &SideKey) -> Result<SlotKey, Memory>
    ensures { IfOk result (λ at. place_of (slot_in at) ≡ place_in key.now) }
{
    Ok(SlotKey {
        account: key.account,
        extras: Vec::from_slice(alloc, key.extras.as_slice())?,
        slot: 0,
    })
}

// The sums of an account with extras in a slot, to which the place is moved.
fn amounts_in(sums: &SlotSums, at: &mut SlotKey, slot: u32) -> Amounts
    ensures value { result
        ≡ in_slot (slots_in sums.now.sums.entries) (place_of (slot_in at.new)) slot }
    ensures same { place_of (slot_in at.new) ≡ place_of (slot_in at.old) }
    ensures small { amounts_size result ≤ slots_size sums.now }
{
    at.slot = slot;
    sums.amounts_at(at)
}

// Debit minus credit.
fn difference(sums: &Amounts) -> i128
    requires { amounts_size sums.now ≤ 2 ^ 64 * 2 ^ 46 }
    ensures value { result ≡ net_of sums.now }
    ensures small { size_of result ≤ 2 ^ 64 * 2 ^ 46 }
{
    sums.debit - sums.credit
}

// A net with what moved.
fn net_after(net: &i128, moved: &Amounts) -> i128
    requires { size_of net.now + amounts_size moved.now ≤ 2 ^ 64 * 2 ^ 62 }
    ensures value { result ≡ net_with net.now moved.now }
    ensures small { size_of result ≤ size_of net.now + amounts_size moved.now }
{
    *net + moved.debit - moved.credit
}

// Puts the row of a unit, where it has something to show.
fn put_unit(
    alloc: Global,
    rows: &mut List<AccountRow>,
    units: &Units,
    nature: Nature,
    at: &SlotKey,
    start: Date,
    net: &i128,
    moved: &Amounts,
) -> Result<(), Fault<TableFault>>
    requires { size_of net.now + amounts_size moved.now ≤ 2 ^ 64 * 2 ^ 62 }
    ensures { Puts result (shown_row (unit_row units.now nature (place_of (slot_in at.now))
        net.now start moved.now)) rows.old rows.new }
{
    let after = net_after(net, moved);
    let opening = balance(units.nets, nature, net);
    let closing = balance(units.nets, nature, &after);
    if !has_amount(&opening, moved, &closing) {
        return Ok(());
    }
    let row = row_of(
        alloc,
        at,
        unit_at(units.by, start),
        &opening,
        moved,
        &closing,
    )?;
    put_row(rows, row)
}

// A net as it is shown, where nets are.
fn balance(nets: bool, nature: Nature, net: &i128) -> (i128, i128)
    requires { size_of net.now ≤ 2 ^ 64 * 2 ^ 62 }
    ensures { result ≡ shown_net nets nature net.now }
{
    if !nets {
        return (0, 0);
    }
    match nature {
        Nature::Active => (*net, 0),
        Nature::Passive => (0, -*net),
        Nature::Both => on_its_side(net),
    }
}

// A net on the side where it is not below zero.
fn on_its_side(net: &i128) -> (i128, i128)
    requires { size_of net.now ≤ 2 ^ 64 * 2 ^ 62 }
    ensures { result ≡ by_nature Both net.now }
{
    if *net > 0 { (*net, 0) } else { (0, -*net) }
}

// Whether some number of a row is not 0.
fn has_amount(opening: &(i128, i128), moved: &Amounts, closing: &(i128, i128)) -> bool
    ensures { result ≡ has_number_in (opening.now.0 ∷ opening.now.1 ∷ moved.now.debit
        ∷ moved.now.credit ∷ closing.now.0 ∷ closing.now.1 ∷ []) }
{
    has_number(&[
        opening.0,
        opening.1,
        moved.debit,
        moved.credit,
        closing.0,
        closing.1,
    ])
}

// Whether not all of the numbers are 0.
fn has_number(numbers: &[i128]) -> bool
    ensures { result ≡ has_number_in numbers.now }
{
    numbers.iter().any(|number| *number != 0)
}

// The row of an account with extras in a unit.
fn row_of(
    alloc: Global,
    at: &SlotKey,
    unit: Unit,
    opening: &(i128, i128),
    moved: &Amounts,
    closing: &(i128, i128),
) -> Result<AccountRow, Memory>
    ensures { IfOk result (λ row. row ≡ account_row (key_of_place (place_of (slot_in at.now))) unit
        opening.now moved.now.debit moved.now.credit closing.now) }
{
    Ok(AccountRow {
        account: at.account,
        extras: List::from_slice(alloc, at.extras.as_slice())?,
        unit,
        open_dr: opening.0,
        open_cr: opening.1,
        turn_dr: moved.debit,
        turn_cr: moved.credit,
        close_dr: closing.0,
        close_cr: closing.1,
    })
}
