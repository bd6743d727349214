//! Controls: what must not be below zero behind a post by rules.
ghost use Rattle.std.specs.Prelude.{◌≡◌, ℕ, ◌≤◌, ◌<◌, ◌^◌, ◌&&◌, pos, Some, None, List, [], length};
ghost use Rattle.std.specs.Prelude.{map, slice_get, int_lt, IfOk};
ghost use Rattle.std.specs.List.{All, flat_map, prefix_len};
ghost use Rattle.std.specs.Option.{ForSome, option_copied};
ghost use Rattle.std.specs.Ordering.{is_lt};
ghost use Rattle.reg_base.specs.Documents.{with_document, AreInOrder};
ghost use Rattle.reg_base.specs.Records.{Booked, booked_by, put as put_in_order, records_of};
ghost use Rattle.reg_base.specs.Balances.{sum_rows};
ghost use Rattle.row_sums.specs.Sums.{booked, groups_in, sum_at, AddsUp, Adds, AreInReach};
ghost use Rattle.desk_model.specs.Controls.{control_cmp, control_at, control_refusal};
ghost use Rattle.desk_model.specs.Controls.{controlled_by as controlled_by_act, controls_in};
ghost use Rattle.desk_model.specs.Controls.{first_below as first_below_of, first_control};
ghost use Rattle.desk_plans.specs.Bounds.{IsWithinBounds};
ghost use Rattle.desk_core.specs.Controls.{AreChanges, booked_by_other, changes_of};
ghost use Rattle.desk_core.specs.Controls.{change_of as change_of_record};
ghost use Rattle.desk_core.specs.Controls.{own_set as own_set_of, opposite as opposite_of};

use cfg_model::{Config, Register, Resource};
use desk_words::Refusal;
use doc_store::{Documents, Store};
use reg_base::{DocState, Document, List, Mark, Memory, Rec, SumRow};
use row_sums::RowSums;
use rule_lang::{Act, Statement};
use std::alloc::Global;

// The first control that fails where a document is put in the place of the one before.
pub(crate) fn failed_control(
    alloc: Global,
    config: &Config,
    store: &Store,
    controls: &[(u8, u8)],
    before: Option<&Document>,
    after: &Document,
) -> Result<Option<Refusal>, Memory>
    requires few { length store.now.documents < 2 ^ 32 }
    requires short { All IsWithinBounds store.now.documents }
    requires before { ForSome (option_copied before) IsWithinBounds }
    requires after { IsWithinBounds after.now }
    ensures { IfOk result (λ refusal. refusal ≡ first_control config.now controls.now
        (with_document after.now store.now.documents) (option_copied before.entry)
        (Some after.now)) }
{
    for control in controls {
        if let Some(refusal) = failure_at(alloc, config, store, *control, before, after)? {
            return Ok(Some(refusal));
        }
    }
    Ok(None)
}

// The registers and resources that statements control, in order.
pub(crate) fn controls_of(alloc: Global, statements: &[Statement]) -> Result<Vec<(u8, u8)>, Memory>
    ensures { IfOk result (λ controls. controls.items ≡ controls_in statements.now) }
{
    let mut controls = Vec::new(alloc);
    for place in (0..statements.len()).rev() {
        if let Some(control) = controlled_by(&statements[place].act) {
            put_control(&mut controls, control)?;
        }
    }
    Ok(controls)
}

// The register and the resource that an act controls.
fn controlled_by(act: &Act) -> Option<(u8, u8)>
    ensures { result ≡ controlled_by_act act.now }
{
    match act {
        Act::Control { register, resource } => Some((*register, *resource)),
        Act::Make { .. } | Act::WriteOff { .. } | Act::Require { .. } | Act::Entry { .. } => None,
    }
}

// Puts a control into its place.
fn put_control(controls: &mut Vec<(u8, u8)>, control: (u8, u8)) -> Result<(), Memory>
    ensures { IfOk result (λ _.
        controls.new.items ≡ put_in_order control_cmp control controls.old.items) }
{
    let place = place_among(controls, control);
    controls.insert(place, control)?;
    Ok(())
}

// How many controls stand before one.
fn place_among(controls: &[(u8, u8)], control: (u8, u8)) -> usize
    ensures value { result ≡ prefix_len (λ c. is_lt (control_cmp c control)) controls.now }
    ensures within { result ≤ length controls.now }
{
    controls
        .iter()
        .take_while(|c| is_before(**c, control))
        .count()
}

// Whether a control stands before another.
fn is_before(control: (u8, u8), other: (u8, u8)) -> bool
    ensures { result ≡ is_lt (control_cmp control other) }
{
    control.cmp(&other).is_lt()
}

// The first combination of a control that fails.
fn failure_at(
    alloc: Global,
    config: &Config,
    store: &Store,
    control: (u8, u8),
    before: Option<&Document>,
    after: &Document,
) -> Result<Option<Refusal>, Memory>
    requires few { length store.now.documents < 2 ^ 32 }
    requires short { All IsWithinBounds store.now.documents }
    requires before { ForSome (option_copied before) IsWithinBounds }
    requires after { IsWithinBounds after.now }
    ensures { IfOk result (λ refusal. refusal ≡ control_at
        (slice_get config.now.registers control.0) control
        (with_document after.now store.now.documents) (option_copied before.entry)
        (Some after.now)) }
{
    let place = usize::from(control.0);
    let Some(register) = config.registers.get(place) else {
        return Ok(None);
    };
    let resource_place = usize::from(control.1);
    let Some(resource) = register.resources.get(resource_place) else {
        return Ok(None);
    };
    let former = own_set(before, place);
    let own = own_set(Some(after), place);
    let changes = changed_rows(alloc, former, own, resource_place)?;
    let sums = sums_behind(alloc, store.walk(), after, place, register.resources.len())?;
    first_below(
        alloc,
        register,
        resource,
        resource_place,
        &sums,
        changes.as_slice(),
    )
}

// The first of the changed combinations whose sum fell and whose balance is below zero.
fn first_below(
    alloc: Global,
    register: &Register,
    resource: &Resource,
    place: usize,
    sums: &RowSums,
    changes: &[SumRow],
) -> Result<Option<Refusal>, Memory>
    ensures { (resources : ℕ) (before after all : List Booked)
        → AddsUp None resources all sums.now → place < resources
        → AreChanges place before after changes.now
        → IfOk result (λ refusal. refusal ≡ first_below_of register.now resource.now place
        before after all (groups_in changes.now)) }
{
    for row in changes {
        let balance = sums.sum_of(row.group.as_slice(), place);
        if is_failure(row, balance) {
            let refusal = refusal_of(alloc, register, resource, row, balance)?;
            return Ok(Some(refusal));
        }
    }
    Ok(None)
}

// Whether the sum of a row's combination fell and this balance is below zero.
fn is_failure(row: &SumRow, balance: i128) -> bool
    ensures { result ≡ (int_lt (sum_at row.now.sums 0) (pos 0) && int_lt balance (pos 0)) }
{
    row.sums.get(0).copied().unwrap_or(0) < 0 && balance < 0
}

// The refusal of the combination of a row.
fn refusal_of(
    alloc: Global,
    register: &Register,
    resource: &Resource,
    row: &SumRow,
    balance: i128,
) -> Result<Refusal, Memory>
    ensures { IfOk result (λ refusal. refusal
        ≡ control_refusal register.now resource.now row.now.group balance) }
{
    let values = List::from_slice(alloc, row.group.as_slice())?;
    Ok(Refusal::Control {
        register: register.name,
        values,
        balance,
        scale: resource.scale,
    })
}

// By how much the sum of each combination changes at a resource, where it changes.
fn changed_rows(
    alloc: Global,
    before: &[Rec],
    after: &[Rec],
    resource: usize,
) -> Result<List<SumRow>, Memory>
    requires before { length before.now ≤ 5_000 }
    requires after { length after.now ≤ 5_000 }
    ensures { IfOk result (λ rows. rows
        ≡ sum_rows 1 None (changes_of resource before.now after.now)) }
{
    let taken_back = changed_set(alloc, before, resource, true)?;
    let counted = changed_set(alloc, after, resource, false)?;
    let mut sums = RowSums::new(alloc);
    add_records(alloc, &mut sums, taken_back.as_slice(), 1)?;
    add_records(alloc, &mut sums, counted.as_slice(), 1)?;
    sums.into_shown(alloc)
}

// The records of one resource that count the same, or take it back.
fn changed_set(alloc: Global, set: &[Rec], resource: usize, back: bool) -> Result<List<Rec>, Memory>
    ensures { IfOk result (λ changes. changes ≡ map (change_of_record back resource) set.now) }
{
    let mut changes = List::new(alloc);
    'recs: for rec in set {
        changes.push(change_of(alloc, rec, resource, back)?)?;
    }
    Ok(changes)
}

// A record of one resource that counts the same, or takes it back.
fn change_of(alloc: Global, rec: &Rec, resource: usize, back: bool) -> Result<Rec, Memory>
    ensures { IfOk result (λ change. change ≡ change_of_record back resource rec.now) }
{
    let mut sums = List::new(alloc);
    sums.push(rec.sums.get(resource).copied().unwrap_or(0))?;
    Ok(Rec {
        line: rec.line,
        period: rec.period,
        mark: if back { opposite(rec.mark) } else { rec.mark },
        values: List::from_slice(alloc, rec.values.as_slice())?,
        sums,
    })
}

// The mark that counts the other way.
fn opposite(mark: Mark) -> Mark
    ensures { result ≡ opposite_of mark }
{
    match mark {
        Mark::Receipt | Mark::Turn => Mark::Expense,
        Mark::Expense => Mark::Receipt,
    }
}

// The sums of all records of a register, where a document is put among the others.
fn sums_behind(
    alloc: Global,
    documents: Documents<'_>,
    after: &Document,
    register: usize,
    resources: usize,
) -> Result<RowSums, Memory>
    requires ordered { AreInOrder documents }
    requires few { length documents < 2 ^ 32 }
    requires short { All IsWithinBounds documents }
    requires after { IsWithinBounds after.now }
    ensures { IfOk result (AddsUp None resources
        (records_of register (with_document after.now documents.entry))) }
{
    let mut sums = sums_of_others(alloc, documents, after.doc.number, register, resources)?;
    add_records(alloc, &mut sums, counted_set(after, register), resources)?;
    Ok(sums)
}

// The sums of the records of all documents but the one of a number.
fn sums_of_others(
    alloc: Global,
    documents: Documents<'_>,
    number: u32,
    register: usize,
    resources: usize,
) -> Result<RowSums, Memory>
    requires few { length documents < 2 ^ 32 }
    requires short { All IsWithinBounds documents }
    ensures sums { IfOk result (AddsUp None resources
        (flat_map (booked_by_other number register) documents.entry)) }
    ensures reach { IfOk result (AreInReach (2 ^ 45)) }
{
    let mut sums = RowSums::new(alloc);
    for document in documents {
        let set = set_of_other(document, number, register);
        add_records(alloc, &mut sums, set, resources)?;
    }
    Ok(sums)
}

// Adds records to sums by their values.
fn add_records(
    alloc: Global,
    sums: &mut RowSums,
    set: &[Rec],
    resources: usize,
) -> Result<(), Memory>
    requires reach { AreInReach (2 ^ 45) sums.old }
    requires short { length set.now ≤ 5_000 }
    ensures { (number : ℕ) → IfOk result (λ _. Adds None resources
        (map (booked number) set.now) sums.old sums.new) }
{
    for rec in set {
        sums.add(alloc, None, resources, rec)?;
    }
    Ok(())
}

// The records of a document in a register that count, and none of the document of a number.
fn set_of_other(document: &Document, number: u32, register: usize) -> &[Rec]
    requires { IsWithinBounds document.now }
    ensures value { map (booked document.now.doc.number) result.now
        ≡ booked_by_other number register document.now }
    ensures short { length result.now ≤ 5_000 }
{
    if document.doc.number == number {
        return &[];
    }
    counted_set(document, register)
}

// The records of a document in a register, where they count.
fn counted_set(document: &Document, register: usize) -> &[Rec]
    requires { IsWithinBounds document.now }
    ensures value { map (booked document.now.doc.number) result.now
        ≡ booked_by register document.now }
    ensures short { length result.now ≤ 5_000 }
{
    if document.doc.state != DocState::Posted || !document.doc.active {
        return &[];
    }
    own_set(Some(document), register)
}

// The records of a document in a register, whether they count or not.
fn own_set(document: Option<&Document>, register: usize) -> &[Rec]
    requires { ForSome (option_copied document) IsWithinBounds }
    ensures value { result.now ≡ own_set_of register (option_copied document.entry) }
    ensures short { length result.now ≤ 5_000 }
{
    let Some(document) = document else {
        return &[];
    };
    match document.sets.registers.get(register) {
        Some(set) => set.as_slice(),
        None => &[],
    }
}
