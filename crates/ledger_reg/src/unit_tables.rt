//! Turnovers of accounts, and balances with turnovers, by unit of a range.
ghost use Rattle.std.specs.Prelude.{◌≡◌, ◌<◌, ◌≤◌, ◌*◌, ◌^◌, [], ◌∷◌, All, length, map, filter};
ghost use Rattle.std.specs.Prelude.{IfOk};
ghost use Rattle.std.specs.Prelude.{OnOk};
ghost use Rattle.std.specs.List.{flat_map};
ghost use Rattle.std.specs.Ordering.{is_eq};
ghost use Rattle.reg_base.specs.Tries.{Tries};
ghost use Rattle.reg_base.specs.BookedEntries.{entries_of, entered_by};
ghost use Rattle.reg_base.specs.Turnovers.{table_of};
ghost use Rattle.cfg_model.specs.AccountTables.{account_turnovers_of, account_both_of};
ghost use Rattle.ledger_reg.specs.Walks.{HasShortLedgers, counts};
ghost use Rattle.ledger_reg.specs.Sides.{amounts_size, place_in, place_cmp};
ghost use Rattle.ledger_reg.specs.RowLists.{Puts};
ghost use Rattle.reg_base.specs.Turnovers.{limited_rows};
ghost use Rattle.ledger_reg.specs.Slots.{slot_in, slots_in, slots_size, slot_sums, slots_of};
ghost use Rattle.ledger_reg.specs.Slots.{AddsSlots};
ghost use Rattle.ledger_reg.specs.UnitRows.{asked_rows, ends_with as has_last};
ghost use Rattle.ledger_reg.specs.UnitRows.{put_place as with_place, put_places};
ghost use Rattle.ledger_reg.specs.UnitRows.{account_place, table_places as places_of};
ghost use Rattle.ledger_reg.specs.UnitRows.{unit_table, rolled_at, rolled_if};
ghost use Rattle.cfg_model.specs.AccountTables.{is_at_or_below as at_or_below};
ghost use Rattle.ledger_reg.specs.UnitRows.{place_of};

use crate::ask::{AccountAsk, asks_for};
use crate::balances::nature_of;
use crate::rows::check_range;
use crate::sides::{Amounts, SideKey};
use crate::slots::{SlotKey, SlotSums};
use crate::unit_rows::put_rows;
use crate::units::{Units, range_starts};
use crate::walk::{Span, add_documents};
use cfg_model::Chart;
use doc_store::Documents;
use reg_base::{AccountRow, Code, Fault, List, Memory, Range, TableFault};
use std::alloc::Global;

// Whether an account is another one or stands below it.
#[derive(Clone, Copy)]
struct Below {
    account: Code,
    counts: bool,
}

/// The turnovers of accounts, a row for each account, or account with extras, and unit.
pub fn account_turnovers(
    alloc: Global,
    ask: &AccountAsk,
    range: &Range,
    documents: Documents<'_>,
    chart: &Chart,
) -> Result<List<AccountRow>, Fault<TableFault>>
    requires few { length documents < 2 ^ 32 }
    requires short { All HasShortLedgers documents }
    ensures { Tries result (table_of range.now (account_turnovers_of chart.now
        (entries_of ask.now.ledger documents.entry) ask.now.account ask.now.extras range.now)) }
{
    check_range(range)?;
    let units = Units {
        by: range.by,
        nets: false,
        starts: range_starts(alloc, range)?,
    };
    let span = Span::During(*range);
    table_rows(alloc, ask, &span, &units, documents, chart)
}

/// The balances and turnovers of accounts, a row for each account, or account with extras, and
/// unit.
pub fn account_both(
    alloc: Global,
    ask: &AccountAsk,
    range: &Range,
    documents: Documents<'_>,
    chart: &Chart,
) -> Result<List<AccountRow>, Fault<TableFault>>
    requires few { length documents < 2 ^ 32 }
    requires short { All HasShortLedgers documents }
    ensures { Tries result (table_of range.now (account_both_of chart.now
        (entries_of ask.now.ledger documents.entry) ask.now.account ask.now.extras range.now)) }
{
    check_range(range)?;
    let units = Units {
        by: range.by,
        nets: true,
        starts: range_starts(alloc, range)?,
    };
    let span = Span::Through(*range);
    table_rows(alloc, ask, &span, &units, documents, chart)
}

// The rows of a table over the entries that a span counts.
fn table_rows(
    alloc: Global,
    ask: &AccountAsk,
    span: &Span,
    units: &Units,
    documents: Documents<'_>,
    chart: &Chart,
) -> Result<List<AccountRow>, Fault<TableFault>>
    requires few { length documents < 2 ^ 32 }
    requires short { All HasShortLedgers documents }
    requires units { length units.now.starts ≤ 36_525 }
    ensures { Tries result (limited_rows (unit_table chart.now ask.now units.now
        (slot_sums (flat_map (slots_of span.now) (filter (counts span.now)
        (flat_map (entered_by ask.now.ledger) documents.entry)))))) }
{
    let sums = span_sums(alloc, ask.ledger, span, documents)?;
    let places = table_places(alloc, ask.extras, &sums, chart)?;
    rows_of(alloc, ask, units, &sums, places.as_slice(), chart)
}

// The sums of the entries that a span counts.
fn span_sums(
    alloc: Global,
    ledger: usize,
    span: &Span,
    documents: Documents<'_>,
) -> Result<SlotSums, Memory>
    requires few { length documents < 2 ^ 32 }
    requires short { All HasShortLedgers documents }
    ensures value { IfOk result (λ sums. slots_in sums.sums.entries
        ≡ slot_sums (flat_map (slots_of span.now) (filter (counts span.now)
        (flat_map (entered_by ledger) documents.entry)))) }
    ensures small { IfOk result (λ sums. slots_size sums ≤ 2 ^ 64 * 2 ^ 46) }
{
    let mut sums = SlotSums::new(alloc);
    add_documents(alloc, &mut sums, documents, ledger, span)?;
    Ok(sums)
}

// The places of a table: those of its sums, or its accounts.
fn table_places(
    alloc: Global,
    extras: bool,
    sums: &SlotSums,
    chart: &Chart,
) -> Result<List<SideKey>, Memory>
    ensures { IfOk result (λ places. map place_in places
        ≡ places_of chart.now extras (slots_in sums.now.sums.entries)) }
{
    if extras {
        sum_places(alloc, sums)
    } else {
        account_places(alloc, chart)
    }
}

// The accounts of a chart as places.
fn account_places(alloc: Global, chart: &Chart) -> Result<List<SideKey>, Memory>
    ensures { IfOk result (λ places. map place_in places
        ≡ map account_place chart.now.accounts) }
{
    let mut places = List::new(alloc);
    for account in chart.accounts.as_slice() {
        places.push(SideKey {
            account: account.code,
            extras: Vec::new(alloc),
        })?;
    }
    Ok(places)
}

// The places of sums, each once.
fn sum_places(alloc: Global, sums: &SlotSums) -> Result<List<SideKey>, Memory>
    ensures { IfOk result (λ places. map place_in places
        ≡ put_places [] (slots_in sums.now.sums.entries)) }
{
    let mut places = List::new(alloc);
    for (key, _) in sums.sums.iter() {
        push_place(alloc, &mut places, key)?;
    }
    Ok(places)
}

// Puts a place behind the others, unless it is the last one.
fn push_place(alloc: Global, places: &mut List<SideKey>, key: &SlotKey) -> Result<(), Memory>
    ensures { OnOk result (map place_in places.new
        ≡ with_place (map place_in places.old) (place_of (slot_in key.now))) }
{
    if ends_with(places.as_slice(), key) {
        return Ok(());
    }
    places.push(SideKey {
        account: key.account,
        extras: Vec::from_slice(alloc, key.extras.as_slice())?,
    })?;
    Ok(())
}

// Whether a place is the last one.
fn ends_with(places: &[SideKey], key: &SlotKey) -> bool
    ensures { result ≡ has_last (map place_in places.now) (place_of (slot_in key.now)) }
{
    if places.is_empty() {
        return false;
    }
    is_same_place(&places[places.len() - 1], key)
}

// Whether a place is that of a key.
fn is_same_place(place: &SideKey, key: &SlotKey) -> bool
    ensures { result
        ≡ is_eq (place_cmp (place_in place.now) (place_of (slot_in key.now))) }
{
    place.account.cmp(&key.account).is_eq() && place.extras.cmp(&key.extras).is_eq()
}

// The rows of places.
fn rows_of(
    alloc: Global,
    ask: &AccountAsk,
    units: &Units,
    sums: &SlotSums,
    places: &[SideKey],
    chart: &Chart,
) -> Result<List<AccountRow>, Fault<TableFault>>
    requires few { length units.now.starts ≤ 36_525 }
    requires small { slots_size sums.now ≤ 2 ^ 64 * 2 ^ 46 }
    ensures { Tries result (limited_rows (flat_map
        (asked_rows chart.now ask.now units.now (slots_in sums.now.sums.entries))
        (map place_in places.now))) }
{
    let mut rows = List::new(alloc);
    for place in places {
        put_place(alloc, &mut rows, ask, units, sums, place, chart)?;
    }
    Ok(rows)
}

// Puts the rows of a place, where its account is asked for.
fn put_place(
    alloc: Global,
    rows: &mut List<AccountRow>,
    ask: &AccountAsk,
    units: &Units,
    sums: &SlotSums,
    place: &SideKey,
    chart: &Chart,
) -> Result<(), Fault<TableFault>>
    requires few { length units.now.starts ≤ 36_525 }
    requires small { slots_size sums.now ≤ 2 ^ 64 * 2 ^ 46 }
    ensures { Puts result (asked_rows chart.now ask.now units.now
        (slots_in sums.now.sums.entries) (place_in place.now)) rows.old rows.new }
{
    if !asks_for(chart, &ask.account, &place.account) {
        return Ok(());
    }
    let nature = nature_of(chart, &place.account);
    if ask.extras {
        return put_rows(alloc, rows, units, nature, sums, place);
    }
    let rolled = roll_up(alloc, &place.account, sums, chart)?;
    put_rows(alloc, rows, units, nature, &rolled, place)
}

// The sums of an account and those below it, as its own.
fn roll_up(alloc: Global, top: &Code, sums: &SlotSums, chart: &Chart) -> Result<SlotSums, Memory>
    requires { slots_size sums.now ≤ 2 ^ 64 * 2 ^ 46 }
    ensures value { IfOk result (λ rolled. slots_in rolled.sums.entries
        ≡ slot_sums (flat_map (rolled_at chart.now top.now) (slots_in sums.now.sums.entries))) }
    ensures small { IfOk result (λ rolled. slots_size rolled ≤ 2 ^ 64 * 2 ^ 46) }
{
    let mut rolled = SlotSums::new(alloc);
    let mut last = Below {
        account: *top,
        counts: chart.is_at_or_below(top, top),
    };
    for (key, amounts) in sums.sums.iter() {
        last = find_below(chart, top, &key.account, &last);
        add_rolled(alloc, &mut rolled, top, key, amounts, last.counts)?;
    }
    Ok(rolled)
}

// Whether an account counts at another one, which is known where it is the last one asked about.
fn find_below(chart: &Chart, top: &Code, account: &Code, last: &Below) -> Below
    requires { last.now.counts ≡ at_or_below chart.now top.now last.now.account }
    ensures account { result.account ≡ account.now }
    ensures counts { result.counts ≡ at_or_below chart.now top.now account.now }
{
    if last.account == *account {
        return *last;
    }
    Below {
        account: *account,
        counts: chart.is_at_or_below(top, account),
    }
}

// Adds sums as those of an account, where they count at it.
fn add_rolled(
    alloc: Global,
    rolled: &mut SlotSums,
    top: &Code,
    key: &SlotKey,
    amounts: &Amounts,
    counts: bool,
) -> Result<(), Memory>
    requires reach { slots_size rolled.old ≤ 2 ^ 64 * 2 ^ 47 }
    requires small { amounts_size amounts.now ≤ 2 ^ 64 * 2 ^ 47 }
    ensures { IfOk result (λ _. AddsSlots
        (rolled_if counts top.now (slot_in key.now, amounts.now))
        (amounts_size amounts.now) rolled.old rolled.new) }
{
    if !counts {
        return Ok(());
    }
    let at = SlotKey {
        account: *top,
        extras: Vec::new(alloc),
        slot: key.slot,
    };
    rolled.raise(at, amounts)
}
