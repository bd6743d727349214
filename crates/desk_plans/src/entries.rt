//! The entries of a ledger that are made of those given.
ghost use Rattle.std.specs.Prelude.{◌≡◌, ◌≤◌, filter, OnOk};
ghost use Rattle.desk_words.specs.declared.reply.Refusal.TheVariants.{Rule};
ghost use Rattle.reg_base.specs.declared.fault.PostFault.TheVariants.{TooManyRecords};
ghost use Rattle.cfg_model.specs.Entries.{entry_check};
ghost use Rattle.desk_model.specs.Entries.{is_entry_made as is_made_of, entry_at as entry_at_line};
ghost use Rattle.desk_model.specs.Entries.{or_entry_fault, entries_from};
ghost use Rattle.reg_base.specs.declared.tried.Fault.TheVariants.{Refused};
ghost use Rattle.reg_base.specs.Tries.{Tries};

use crate::tried::{PartFault, Tried};
use cfg_model::{Chart, check_entry};
use desk_model::GivenEntry;
use desk_words::Refusal;
use reg_base::{Date, List, PostFault, Posting};
use std::alloc::Global;

// How many entries a set has at the most.
const MOST_ENTRIES: u16 = 5_000;

// The entries that are made, under the lines from 1 on.
pub(crate) fn entry_set(
    alloc: Global,
    chart: &Chart,
    date: Date,
    given: List<GivenEntry>,
) -> Tried<List<Posting>>
    ensures { Tries result (entries_from chart.now date 1 (filter is_made_of given)) }
{
    let mut entries = Vec::new(alloc);
    'given: for g in given.into_vec() {
        if !is_made(&g) {
            continue;
        }
        let line = entries.len() as u16 + 1;
        let entry = entry_at(chart, date, line, g)?;
        entries.push(entry)?;
    }
    Ok(List::from_vec(entries))
}

// An entry is made where its amount is not zero.
fn is_made(given: &GivenEntry) -> bool
    ensures { result ≡ is_made_of given.now }
{
    given.amount != 0
}

// The entry that is made of one given: the chart takes it, and the set has room.
#[tactic(auto, unfolding(desk_model::specs::Entries::entry_at))]
fn entry_at(chart: &Chart, date: Date, line: u16, given: GivenEntry) -> Tried<Posting>
    ensures value { Tries result (entry_at_line chart.now date line given) }
    ensures within { OnOk result (line ≤ 5_000) }
{
    is_accepted(chart, line, &given)?;
    if line > MOST_ENTRIES {
        return Err(too_many_records());
    }
    let GivenEntry {
        debit,
        credit,
        amount,
    } = given;
    Ok(Posting {
        line,
        period: date,
        debit,
        credit,
        amount,
    })
}

// The chart takes the entry that would get this line.
fn is_accepted(chart: &Chart, line: u16, given: &GivenEntry) -> Tried<()>
    ensures { Tries result
        (or_entry_fault line (entry_check chart.now given.now.debit given.now.credit)) }
{
    match check_entry(chart, &given.debit, &given.credit) {
        Ok(()) => Ok(()),
        Err(fault) => Err(PartFault::Refused(Refusal::Rule {
            fault: PostFault::Entry {
                rule: 0,
                line: u32::from(line),
                fault,
            },
            scale: None,
        })),
    }
}

// The refusal of a set with too many records or entries.
pub(crate) fn too_many_records() -> PartFault
    ensures { result ≡ Refused (Rule TooManyRecords None) }
{
    PartFault::Refused(Refusal::Rule {
        fault: PostFault::TooManyRecords,
        scale: None,
    })
}
