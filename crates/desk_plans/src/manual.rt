//! What `manual` makes of the records that it gives, read for registers and ledgers.
ghost use Rattle.std.specs.Prelude.{◌≡◌, length, All, IfOk};
ghost use Rattle.std.specs.List.{list_any};
ghost use Rattle.reg_base.specs.Results.{each};
ghost use Rattle.desk_model.specs.Manuals.{space_of as space_of_set, given_set as given_of_set};
ghost use Rattle.desk_model.specs.Manuals.{sets_in as given_in, given_sets as given_of_sets};
ghost use Rattle.desk_model.specs.Manuals.{is_space as is_same};
ghost use Rattle.desk_model.specs.Manuals.{are_distinct as are_distinct_spaces};
ghost use Rattle.desk_model.specs.Manuals.{manual_doc as manual_doc_of};
ghost use Rattle.desk_model.specs.Manuals.{plan_manual as plan_of_manual};
ghost use Rattle.desk_model.specs.declared.plan.Space.TheVariants as SpaceIs;
ghost use Rattle.desk_plans.specs.Bounds.{GivesNumbersIn};
ghost use Rattle.desk_plans.specs.Sights.{sight_view, Suits};
ghost use Rattle.reg_base.specs.Tries.{Tries};

use crate::copies::comment_or_empty;
use crate::given::{ReadsRecord, wrong};
use crate::sight::Sight;
use crate::states::{
    dates_are_open, key_is_free, key_with, named_is_seen, number_with, takes_posted_manual,
};
use crate::tried::Tried;
use cfg_model::Config;
use desk_model::{GivenSet, Plan, Source, Space};
use desk_words::{Field, Manual, RecordText, SetText};
use reg_base::{Doc, DocState, List, Memory, what_is_read_is_in_range};
use std::alloc::Global;

/// What `manual` makes of the records that it gives, or the first of its refusals.
#[tactic(auto, unfolding(desk_model::specs::Manuals::plan_manual))]
pub fn plan_manual(
    alloc: Global,
    config: &Config,
    manual: &Manual,
    sight: &Sight<'_>,
) -> Tried<Plan>
    ensures value { Tries result (plan_of_manual config.now manual.now (sight_view sight.now)) }
    ensures suits { IfOk result (Suits (sight_view sight.now)) }
{
    named_is_seen(manual.doc, sight)?;
    takes_posted_manual(sight)?;
    let given = given_sets(alloc, config, manual.sets.as_slice())?;
    key_is_free(sight)?;
    dates_are_open(sight, manual.date)?;
    let doc = manual_doc(alloc, manual, sight)?;
    Ok(Plan {
        doc,
        source: Source::ByHand(given),
    })
}

// The document of a request by hand: posted and active, without a type.
fn manual_doc(alloc: Global, manual: &Manual, sight: &Sight<'_>) -> Result<Doc, Memory>
    ensures { IfOk result (λ doc. doc ≡ manual_doc_of manual.now (sight_view sight.now)) }
{
    let comment = comment_or_empty(alloc, &manual.comment)?;
    Ok(Doc {
        number: number_with(sight),
        kind: None,
        date: manual.date,
        head: List::new(alloc),
        lines: List::new(alloc),
        comment,
        key: key_with(&manual.key, sight),
        state: DocState::Posted,
        active: true,
    })
}

// The records and entries that the sets give, or the first refusal.
#[tactic(auto, unfolding(desk_model::specs::Manuals::given_sets))]
pub(crate) fn given_sets(alloc: Global, config: &Config, sets: &[SetText]) -> Tried<List<GivenSet>>
    ensures value { Tries result (given_of_sets config.now sets.now) }
    ensures numbers { IfOk result (All GivesNumbersIn) }
{
    what_is_read_is_in_range();
    let spaces = spaces_of(alloc, config, sets)?;
    let given = sets_in(alloc, config, spaces.as_slice(), sets)?;
    if !are_distinct(spaces.as_slice()) {
        return Err(wrong(Field::Space));
    }
    Ok(given)
}

// The registers and ledgers that the sets name.
fn spaces_of(alloc: Global, config: &Config, sets: &[SetText]) -> Tried<List<Space>>
    ensures { Tries result (each (space_of_set config.now) sets.now) }
{
    let mut spaces = Vec::new(alloc);
    'sets: for set in sets {
        let space = space_of(config, set)?;
        spaces.push(space)?;
    }
    Ok(List::from_vec(spaces))
}

#[tactic(auto, unfolding(desk_model::specs::Manuals::space_of))]
fn space_of(config: &Config, set: &SetText) -> Tried<Space>
    ensures { Tries result (space_of_set config.now set.now) }
{
    if let Some(place) = config.register_place(&set.space) {
        return Ok(Space::Register(place));
    }
    match config.ledger_place(&set.space) {
        Some(place) => Ok(Space::Ledger(place)),
        None => Err(wrong(Field::Space)),
    }
}

// The sets, each read for the space of its place.
fn sets_in(
    alloc: Global,
    config: &Config,
    spaces: &[Space],
    sets: &[SetText],
) -> Tried<List<GivenSet>>
    requires { length spaces.now ≡ length sets.now }
    ensures { Tries result (given_in config.now spaces.now sets.now) }
{
    let mut given = Vec::new(alloc);
    'sets: for (index, set) in sets.iter().enumerate() {
        let one = given_set(alloc, config, &spaces[index], set)?;
        given.push(one)?;
    }
    Ok(List::from_vec(given))
}

fn given_set(alloc: Global, config: &Config, space: &Space, set: &SetText) -> Tried<GivenSet>
    ensures { Tries result (given_of_set config.now space.now set.now) }
{
    match space {
        Space::Register(place) => records_of_set(alloc, config, *place, set),
        Space::Ledger(place) => entries_of_set(alloc, config, *place, set),
    }
}

// The records of a set, each read for the register at a place.
#[tactic(auto, unfolding(desk_model::specs::Manuals::given_set))]
fn records_of_set(alloc: Global, config: &Config, place: usize, set: &SetText) -> Tried<GivenSet>
    ensures { Tries result (given_of_set config.now (SpaceIs.Register place) set.now) }
{
    let Some(register) = config.registers.get(place) else {
        return Err(wrong(Field::Space));
    };
    let records = read_each(alloc, register, set.records.as_slice())?;
    Ok(GivenSet::Records { place, records })
}

// The entries of a set, each read for the ledger at a place.
#[tactic(auto, unfolding(desk_model::specs::Manuals::given_set))]
fn entries_of_set(alloc: Global, config: &Config, place: usize, set: &SetText) -> Tried<GivenSet>
    ensures { Tries result (given_of_set config.now (SpaceIs.Ledger place) set.now) }
{
    let Some(chart) = config.ledgers.get(place) else {
        return Err(wrong(Field::Space));
    };
    let entries = read_each(alloc, chart, set.records.as_slice())?;
    Ok(GivenSet::Entries { place, entries })
}

// The records of a set, each read for its register or ledger.
fn read_each<X: Drop, S: ReadsRecord<X>>(
    alloc: Global,
    space: &S,
    texts: &[RecordText],
) -> Tried<List<X>>
    ensures { Tries result (each (S.reads space.now) texts.now) }
{
    let mut records = Vec::new(alloc);
    'texts: for text in texts {
        let record = space.read(alloc, text)?;
        records.push(record)?;
    }
    Ok(List::from_vec(records))
}

// Whether no space stands twice. Two of more spaces than there are in a configuration are the
// same, so no more of them are set against the others than there are.
fn are_distinct(spaces: &[Space]) -> bool
    ensures { result ≡ are_distinct_spaces spaces.now }
{
    'spaces: for (index, space) in spaces.iter().enumerate() {
        if has_space(&spaces[index + 1..], space) {
            return false;
        }
    }
    true
}

fn has_space(spaces: &[Space], space: &Space) -> bool
    ensures { result ≡ list_any (is_same space.now) spaces.now }
{
    spaces.iter().any(|other| is_space(space, other))
}

// Whether two spaces are one.
fn is_space(space: &Space, other: &Space) -> bool
    ensures { result ≡ is_same space.now other.now }
{
    match (space, other) {
        (Space::Register(place), Space::Register(other)) => *place == *other,
        (Space::Ledger(place), Space::Ledger(other)) => *place == *other,
        _ => false,
    }
}
