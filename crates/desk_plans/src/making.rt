//! The records and entries that are made of those given.
ghost use Rattle.std.specs.Prelude.{◌≡◌, ◌≤◌, [], length, map, slice_set, slice_get, IfOk, filter};
ghost use Rattle.desk_model.specs.declared.plan.GivenSet.TheVariants.{Records, Entries};
ghost use Rattle.desk_model.specs.RecordSets.{is_made as is_made_of, record_set as record_set_of};
ghost use Rattle.desk_model.specs.RecordSets.{no_sets as no_sets_of, with_set as with_set_of};
ghost use Rattle.desk_model.specs.RecordSets.{given_by_hand as given_by_hand_of};
ghost use Rattle.desk_model.specs.RecordSets.{with_given as with_given_of};
ghost use Rattle.desk_model.specs.RecordSets.{with_lines as with_lines_of};
ghost use Rattle.desk_model.specs.Entries.{entry_set as entry_set_of};
ghost use Rattle.reg_base.specs.Tries.{Tries};

use crate::entries::{entry_set, too_many_records};
use crate::tried::Tried;
use cfg_model::Config;
use desk_model::{Given, GivenEntry, GivenSet};
use reg_base::{Date, List, Memory, Posting, Rec, Sets};
use std::alloc::Global;

// How many records a set has at the most.
const MOST_RECORDS: usize = 5_000;

// The records and entries of a document whose sets are given by hand.
pub(crate) fn given_by_hand(
    alloc: Global,
    config: &Config,
    date: Date,
    given: List<GivenSet>,
) -> Tried<Sets>
    ensures { Tries result (given_by_hand_of config.now date given) }
{
    let sets = no_sets(alloc, config)?;
    with_given(alloc, config, date, sets, given)
}

// No records and no entries: an empty list per register and per ledger.
pub(crate) fn no_sets(alloc: Global, config: &Config) -> Result<Sets, Memory>
    ensures { IfOk result (λ sets. sets ≡ no_sets_of config.now) }
{
    let registers = empty_lists(alloc, config.registers.as_slice())?;
    let ledgers = empty_lists(alloc, config.ledgers.as_slice())?;
    Ok(Sets { registers, ledgers })
}

// An empty list for each element of another one.
fn empty_lists<A, X: Drop>(alloc: Global, others: &[A]) -> Result<List<List<X>>, Memory>
    ensures { IfOk result (λ lists. lists ≡ map (λ _. []) others.now) }
{
    let mut lists = Vec::new(alloc);
    'others: for _ in others {
        lists.push(List::new(alloc))?;
    }
    Ok(List::from_vec(lists))
}

// The sets with those that are made of each given, one after another.
fn with_given(
    alloc: Global,
    config: &Config,
    date: Date,
    mut sets: Sets,
    given: List<GivenSet>,
) -> Tried<Sets>
    ensures { Tries result (with_given_of config.now date sets given) }
{
    'given: for set in given.into_vec() {
        sets = with_set(alloc, config, date, sets, set)?;
    }
    Ok(sets)
}

// The sets with the one that is made of one given, in the place of its register or ledger.
fn with_set(alloc: Global, config: &Config, date: Date, sets: Sets, set: GivenSet) -> Tried<Sets>
    ensures { Tries result (with_set_of config.now date sets set) }
{
    match set {
        GivenSet::Records { place, records } => with_records(
            alloc, config, date, sets, place, records,
        ),
        GivenSet::Entries { place, entries } => with_entries(
            alloc, config, date, sets, place, entries,
        ),
    }
}

fn with_records(
    alloc: Global,
    config: &Config,
    date: Date,
    sets: Sets,
    place: usize,
    given: List<Given>,
) -> Tried<Sets>
    ensures { Tries result (with_set_of config.now date sets (Records place given)) }
{
    let records = record_set(alloc, date, given)?;
    let Sets { registers, ledgers } = sets;
    Ok(Sets {
        registers: put_at(registers, place, records),
        ledgers,
    })
}

fn with_entries(
    alloc: Global,
    config: &Config,
    date: Date,
    sets: Sets,
    place: usize,
    given: List<GivenEntry>,
) -> Tried<Sets>
    ensures { Tries result (with_set_of config.now date sets (Entries place given)) }
{
    let entries = entries_at(alloc, config, place, date, given)?;
    let Sets { registers, ledgers } = sets;
    Ok(Sets {
        registers,
        ledgers: put_at(ledgers, place, entries),
    })
}

// A list with another element at a place, where there is such a place.
fn put_at<X: Drop>(list: List<X>, place: usize, x: X) -> List<X>
    ensures { result ≡ slice_set list place x }
{
    let mut items = list.into_vec();
    if place < items.len() {
        items[place] = x;
    }
    List::from_vec(items)
}

// The entries of the ledger at a place, and none where there is no such place.
fn entries_at(
    alloc: Global,
    config: &Config,
    place: usize,
    date: Date,
    given: List<GivenEntry>,
) -> Tried<List<Posting>>
    ensures { Tries result (entry_set_of (slice_get config.now.ledgers place) date given) }
{
    match config.ledgers.get(place) {
        Some(chart) => entry_set(alloc, chart, date, given),
        None => Ok(List::new(alloc)),
    }
}

#[tactic(auto, unfolding(desk_model::specs::RecordSets::record_set))]
fn record_set(alloc: Global, date: Date, given: List<Given>) -> Tried<List<Rec>>
    ensures { Tries result (record_set_of date given) }
{
    if made_count(given.as_slice()) > MOST_RECORDS {
        return Err(too_many_records());
    }
    let records = with_lines(alloc, date, given)?;
    Ok(records)
}

// How many records are made of those given. They are counted before any is made, so that a set
// that is refused takes no memory.
fn made_count(given: &[Given]) -> usize
    ensures { result ≡ length (filter is_made_of given.now) }
{
    given.iter().filter(|g| is_made(g)).count()
}

// A record is made where not all of its numbers are zero.
fn is_made(given: &Given) -> bool
    ensures { result ≡ is_made_of given.now }
{
    given.sums.as_slice().iter().any(|n| *n != 0)
}

// The records that are made, under the lines from 1 on.
fn with_lines(alloc: Global, date: Date, given: List<Given>) -> Result<List<Rec>, Memory>
    requires { length (filter is_made_of given) ≤ 5_000 }
    ensures { IfOk result (λ records. records ≡ with_lines_of 1 date (filter is_made_of given)) }
{
    let mut records = Vec::new(alloc);
    'given: for g in given.into_vec() {
        if is_made(&g) {
            let line = records.len() as u16 + 1;
            records.push(record_at(line, date, g))?;
        }
    }
    Ok(List::from_vec(records))
}

// The record that is made of one given.
fn record_at(line: u16, date: Date, given: Given) -> Rec
    ensures { result ≡ record {
      line = line;
      period = date;
      mark = given.mark;
      values = given.values;
      sums = given.sums;
    } }
{
    let Given { mark, values, sums } = given;
    Rec {
        line,
        period: date,
        mark,
        values,
        sums,
    }
}
