//! Records behind those made so far.
ghost use Rattle.std.specs.Prelude.{◌≡◌, pos, set, slice_get, unwrap_or, [], List, All, map};
ghost use Rattle.std.specs.Prelude.{true, IfOk, Ok};
ghost use Rattle.std.specs.List.{list_all};
ghost use Rattle.post_model.specs.Scenes.{is_number as is_number_of};
ghost use Rattle.post_model.specs.Makes.{mark_of as mark_for, are_zero as are_all_zero, at_place};
ghost use Rattle.post_model.specs.Makes.{record_behind as record_behind_of, with_registers};
ghost use Rattle.post_model.specs.Makes.{record_made as record_made_of};
ghost use Rattle.post_rules.specs.SceneViews.{scene_view};
ghost use Rattle.reg_base.specs.Tries.{Tries};
ghost use Rattle.post_rules.specs.Onward.{onward};

use crate::fault::Tried;
use crate::scene::Scene;
use crate::terms::is_number;
use post_model::Made;
use reg_base::{Fault, List, Mark, Memory, PostFault, Rec, Sets, Value};
use rule_lang::Verb;
use std::alloc::Global;
use std::mem;

// The most records or entries of one register or ledger.
pub(crate) const MOST_RECORDS: usize = 5_000;

// The mark of what a verb makes.
pub(crate) fn mark_of(verb: Verb) -> Mark
    ensures { result ≡ mark_for verb }
{
    match verb {
        Verb::Receipt => Mark::Receipt,
        Verb::Expense => Mark::Expense,
        Verb::Turn => Mark::Turn,
    }
}

// A record made, unless its numbers are all zero: none of them is past the largest number, and the
// register has room.
#[tactic(auto, unfolding(post_model::specs::Makes::record_made))]
pub(crate) fn record_made(
    alloc: Global,
    scene: &Scene,
    register: u8,
    mark: Mark,
    values: List<Value>,
    numbers: List<i128>,
    made: Made,
) -> Tried<Made>
    ensures { Tries result
        (record_made_of (scene_view scene.now) register mark values numbers made) }
{
    if !are_numbers(numbers.as_slice()) {
        return Err(scene.overflow());
    }
    if are_zero(numbers.as_slice()) {
        return Ok(made);
    }
    let sums = units_of(alloc, numbers.as_slice())?;
    record_put(alloc, scene, register, mark, values, sums, made)
}

// Whether no number is past the largest one.
fn are_numbers(numbers: &[i128]) -> bool
    ensures { result ≡ list_all is_number_of numbers.now }
{
    numbers.iter().all(|n| is_number(*n))
}

// Whether all numbers are zero.
fn are_zero(numbers: &[i128]) -> bool
    ensures { result ≡ are_all_zero numbers.now }
{
    numbers.iter().all(|n| *n == 0)
}

// The same numbers, as a record has them.
fn units_of(alloc: Global, numbers: &[i128]) -> Result<List<i64>, Memory>
    requires { list_all is_number_of numbers.now ≡ true }
    ensures { IfOk result (λ units. units ≡ numbers.now) }
{
    let mut units = Vec::new(alloc);
    'numbers: for number in numbers {
        units.push(*number as i64)?;
    }
    Ok(List::from_vec(units))
}

// What was made, with a record put behind the others of its register.
fn record_put(
    alloc: Global,
    scene: &Scene,
    register: u8,
    mark: Mark,
    values: List<Value>,
    sums: List<i64>,
    made: Made,
) -> Tried<Made>
    ensures { Tries result (onward (at_place register made.sets.registers
        (record_behind_of (scene_view scene.now) mark values sums))
        (λ registers. Ok (with_registers made registers))) }
{
    let Made {
        sets,
        reads,
        controls,
        cost,
    } = made;
    let Sets { registers, ledgers } = sets;
    let place = usize::from(register);
    let registers = register_changed(alloc, scene, place, mark, values, sums, registers)?;
    Ok(Made {
        sets: Sets { registers, ledgers },
        reads,
        controls,
        cost,
    })
}

// The records of all registers with one more behind those of a register.
#[tactic(auto, unfolding(post_model::specs::Makes::at_place))]
fn register_changed(
    alloc: Global,
    scene: &Scene,
    place: usize,
    mark: Mark,
    values: List<Value>,
    sums: List<i64>,
    registers: List<List<Rec>>,
) -> Tried<List<List<Rec>>>
    ensures { Tries result (at_place place registers
        (record_behind_of (scene_view scene.now) mark values sums)) }
{
    let mut lists = registers.into_vec();
    let recs = taken_out(alloc, &mut lists, place);
    let recs = record_behind(scene, mark, values, sums, recs)?;
    Ok(put_back(lists, place, recs))
}

// A record behind the others of its register, with the next line number.
fn record_behind(
    scene: &Scene,
    mark: Mark,
    values: List<Value>,
    sums: List<i64>,
    recs: List<Rec>,
) -> Tried<List<Rec>>
    ensures { Tries result (record_behind_of (scene_view scene.now) mark values sums recs) }
{
    let mut recs = recs.into_vec();
    if recs.len() >= MOST_RECORDS {
        return Err(Fault::Refused(PostFault::TooManyRecords));
    }
    let line = recs.len() as u16 + 1;
    recs.push(Rec {
        line,
        period: scene.doc.date,
        mark,
        values,
        sums,
    })?;
    Ok(List::from_vec(recs))
}

// The list at a place, and an empty one where there is no such place; an empty one stands there
// then.
#[tactic(auto, using(crate::proofs::PlaceLemmas::set_twice))]
pub(crate) fn taken_out<X: Drop>(alloc: Global, lists: &mut Vec<List<X>>, place: usize) -> List<X>
    ensures list { result ≡ unwrap_or (slice_get lists.old.items place) [] }
    ensures others { (xs : List X) → set lists.new.items place xs ≡ set lists.old.items place xs }
{
    if place >= lists.len() {
        return List::new(alloc);
    }
    mem::replace(&mut lists[place], List::new(alloc))
}

// The lists with another one at a place, where there is such a place.
pub(crate) fn put_back<X: Drop>(lists: Vec<List<X>>, place: usize, list: List<X>) -> List<List<X>>
    ensures { result ≡ set lists.items place list }
{
    let mut lists = lists;
    if place < lists.len() {
        lists[place] = list;
    }
    List::from_vec(lists)
}
