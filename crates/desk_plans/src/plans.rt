//! Documents that are written, marked, made active, and removed.
ghost use Rattle.std.specs.Prelude.{◌≡◌, ◌≤◌, length, IfOk};
ghost use Rattle.desk_model.specs.States.{plan_mark as plan_of_mark};
ghost use Rattle.desk_model.specs.States.{plan_activity as plan_of_activity};
ghost use Rattle.desk_model.specs.States.{plan_sweep as plan_of_sweep};
ghost use Rattle.desk_model.specs.States.{takes_switch as takes_switch_of};
ghost use Rattle.desk_model.specs.States.{switched_state as switched_state_of};
ghost use Rattle.desk_model.specs.Writes.{plan_write as plan_of_write};
ghost use Rattle.desk_plans.specs.Sights.{sight_view, Suits};
ghost use Rattle.reg_base.specs.Tries.{Tries};

use crate::copies::copy_doc;
use crate::sight::Sight;
use crate::states::{
    date_is_open, is_marked, is_posted_manual, is_taken, named_is_seen, seen_document,
    takes_written,
};
use crate::tried::Tried;
use crate::writes::plan_content;
use cfg_model::Config;
use desk_model::{Plan, Source};
use desk_words::{Switch, Write};
use reg_base::{Doc, DocState};
use std::alloc::Global;

/// What `write` makes, without records, or the first of its refusals.
#[tactic(auto, unfolding(desk_model::specs::Writes::plan_write))]
pub fn plan_write(alloc: Global, config: &Config, write: &Write, sight: &Sight<'_>) -> Tried<Plan>
    requires kinds { length config.now.kinds ≤ 64 }
    ensures value { Tries result (plan_of_write config.now write.now (sight_view sight.now)) }
    ensures suits { IfOk result (Suits (sight_view sight.now)) }
{
    named_is_seen(write.doc, sight)?;
    takes_written(sight)?;
    plan_content(
        alloc,
        config,
        write,
        sight,
        DocState::Written,
        Source::Nothing,
    )
}

/// What `mark` makes: a marked document has no records, and one whose mark is taken off had none.
#[tactic(auto, unfolding(desk_model::specs::States::plan_mark))]
pub fn plan_mark(alloc: Global, switch: &Switch, sight: &Sight<'_>) -> Tried<Plan>
    ensures value { Tries result (plan_of_mark switch.now (sight_view sight.now)) }
    ensures suits { IfOk result (Suits (sight_view sight.now)) }
{
    let document = seen_document(sight)?;
    is_taken(takes_switch(switch.on, &document.doc), &document.doc)?;
    date_is_open(sight.closed, document.doc.date)?;
    let mut doc = copy_doc(alloc, &document.doc)?;
    doc.state = switched_state(switch.on);
    Ok(Plan {
        doc,
        source: Source::Nothing,
    })
}

// Whether a mark can be put on a document, or taken off it: no manual document loses its mark.
fn takes_switch(on: bool, doc: &Doc) -> bool
    ensures { result ≡ takes_switch_of on doc.now }
{
    if on {
        !is_marked(doc.state)
    } else {
        is_marked(doc.state) && doc.kind.is_some()
    }
}

// The state of a document whose mark is put on or taken off.
fn switched_state(on: bool) -> DocState
    ensures { result ≡ switched_state_of on }
{
    if on {
        DocState::Marked
    } else {
        DocState::Written
    }
}

/// What `activity` makes: the records of a document given by hand count, or do not.
#[tactic(auto, unfolding(desk_model::specs::States::plan_activity))]
pub fn plan_activity(alloc: Global, switch: &Switch, sight: &Sight<'_>) -> Tried<Plan>
    ensures value { Tries result (plan_of_activity switch.now (sight_view sight.now)) }
    ensures suits { IfOk result (Suits (sight_view sight.now)) }
{
    let document = seen_document(sight)?;
    is_taken(is_posted_manual(&document.doc), &document.doc)?;
    date_is_open(sight.closed, document.doc.date)?;
    let mut doc = copy_doc(alloc, &document.doc)?;
    doc.active = switch.on;
    Ok(Plan {
        doc,
        source: Source::Kept,
    })
}

/// What `sweep` makes: a marked document is removed.
#[tactic(auto, unfolding(desk_model::specs::States::plan_sweep))]
pub fn plan_sweep(alloc: Global, sight: &Sight<'_>) -> Tried<Plan>
    ensures value { Tries result (plan_of_sweep (sight_view sight.now)) }
    ensures suits { IfOk result (Suits (sight_view sight.now)) }
{
    let document = seen_document(sight)?;
    is_taken(is_marked(document.doc.state), &document.doc)?;
    date_is_open(sight.closed, document.doc.date)?;
    let doc = copy_doc(alloc, &document.doc)?;
    Ok(Plan {
        doc,
        source: Source::Removed,
    })
}
