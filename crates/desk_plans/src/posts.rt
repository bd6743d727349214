//! Documents that are posted by the rules of their type, and that lose their records again.
ghost use Rattle.std.specs.Prelude.{◌≡◌, ◌≤◌, length, IfOk};
ghost use Rattle.desk_model.specs.Posts.{plan_post as plan_of_post};
ghost use Rattle.desk_model.specs.Posts.{plan_standing as plan_of_standing};
ghost use Rattle.desk_model.specs.Posts.{plan_unpost as plan_of_unpost};
ghost use Rattle.desk_plans.specs.Sights.{sight_view, Suits};
ghost use Rattle.reg_base.specs.Tries.{Tries};

use crate::copies::copy_doc;
use crate::sight::Sight;
use crate::states::{
    date_is_open, is_posted_kind, is_taken, is_unmarked_kind, named_is_seen, seen_document,
    takes_unmarked,
};
use crate::tried::Tried;
use crate::writes::plan_content;
use cfg_model::Config;
use desk_model::{Plan, Source};
use desk_words::Write;
use reg_base::DocState;
use std::alloc::Global;

/// What `post` makes of a content, whose records the rules of its type make, or the first of its
/// refusals.
#[tactic(auto, unfolding(desk_model::specs::Posts::plan_post))]
pub fn plan_post(alloc: Global, config: &Config, write: &Write, sight: &Sight<'_>) -> Tried<Plan>
    requires kinds { length config.now.kinds ≤ 64 }
    ensures value { Tries result (plan_of_post config.now write.now (sight_view sight.now)) }
    ensures suits { IfOk result (Suits (sight_view sight.now)) }
{
    named_is_seen(write.doc, sight)?;
    takes_unmarked(sight)?;
    plan_content(
        alloc,
        config,
        write,
        sight,
        DocState::Posted,
        Source::ByRules,
    )
}

/// What `post` makes of a document that stands.
#[tactic(auto, unfolding(desk_model::specs::Posts::plan_standing))]
pub fn plan_standing(alloc: Global, sight: &Sight<'_>) -> Tried<Plan>
    ensures value { Tries result (plan_of_standing (sight_view sight.now)) }
    ensures suits { IfOk result (Suits (sight_view sight.now)) }
{
    let document = seen_document(sight)?;
    is_taken(is_unmarked_kind(&document.doc), &document.doc)?;
    date_is_open(sight.closed, document.doc.date)?;
    let mut doc = copy_doc(alloc, &document.doc)?;
    doc.state = DocState::Posted;
    Ok(Plan {
        doc,
        source: Source::ByRules,
    })
}

/// What `unpost` makes: a written document without records.
#[tactic(auto, unfolding(desk_model::specs::Posts::plan_unpost))]
pub fn plan_unpost(alloc: Global, sight: &Sight<'_>) -> Tried<Plan>
    ensures value { Tries result (plan_of_unpost (sight_view sight.now)) }
    ensures suits { IfOk result (Suits (sight_view sight.now)) }
{
    let document = seen_document(sight)?;
    is_taken(is_posted_kind(&document.doc), &document.doc)?;
    date_is_open(sight.closed, document.doc.date)?;
    let mut doc = copy_doc(alloc, &document.doc)?;
    doc.state = DocState::Written;
    Ok(Plan {
        doc,
        source: Source::Nothing,
    })
}
