//! What a change of a document comes to: what it sees, and its plan.
ghost use Rattle.std.specs.Prelude.{◌≡◌, IfOk, Result, option_and_then};
ghost use Rattle.reg_base.specs.Documents.{document_at, holder_of};
ghost use Rattle.std.specs.Option.{option_copied};
ghost use Rattle.desk_words.specs.declared.request.Request.TheVariants as RequestIs;
ghost use Rattle.desk_words.specs.declared.request.Post.TheVariants as PostIs;
ghost use Rattle.desk_model.specs.Stops.{Stop, or_stop};
ghost use Rattle.desk_plans.specs.Sights.{sight_view};
ghost use Rattle.desk_core.specs.Outcomes.{Comes};
ghost use Rattle.desk_core.specs.SeenStates.{sight_at, drawn_for};
ghost use Rattle.desk_core.specs.Ways.{deed_in, new_number as new_number_of};

use crate::desk::Desk;
use crate::outcome::Outcome;
use crate::way::Way;
use desk_plans::{
    Sight, plan_activity, plan_manual, plan_mark, plan_post, plan_standing, plan_sweep,
    plan_unpost, plan_write,
};
use desk_words::{Manual, Post, StandingDocument, Sweep, Switch, Write};
use reg_base::{Code, Document, Memory};
use std::alloc::Global;

impl Desk {
    // What it comes to that a document of a type is written.
    #[tactic(auto, unfolding(desk_model::specs::Serial::change_effect))]
    pub(crate) fn write_outcome(
        &self,
        alloc: Global,
        way: &Way,
        write: &Write,
    ) -> Result<Outcome, Memory>
        ensures { (tested : Result (Unit {0}) Stop) → IfOk result (Comes way.now self.now.desk
            (or_stop (deed_in way.now tested self.now.desk (RequestIs.Write write.now)))) }
    {
        let sight = self.sight(way, write.doc, &write.key);
        let plan = plan_write(alloc, &self.config, write, &sight);
        self.planned(alloc, way, &sight, plan)
    }

    // What it comes to that a document is posted, with its content or as it stands.
    pub(crate) fn post_outcome(
        &self,
        alloc: Global,
        way: &Way,
        post: &Post,
    ) -> Result<Outcome, Memory>
        ensures { (tested : Result (Unit {0}) Stop) → IfOk result (Comes way.now self.now.desk
            (or_stop (deed_in way.now tested self.now.desk (RequestIs.Post post.now)))) }
    {
        match post {
            Post::Content(write) => self.content_outcome(alloc, way, write),
            Post::Standing(document) => self.standing_outcome(alloc, way, document),
        }
    }

    // What it comes to that a document is posted with its content.
    #[tactic(auto, unfolding(desk_model::specs::Serial::change_effect))]
    fn content_outcome(&self, alloc: Global, way: &Way, write: &Write) -> Result<Outcome, Memory>
        ensures { (tested : Result (Unit {0}) Stop) → IfOk result (Comes way.now self.now.desk
            (or_stop (deed_in way.now tested self.now.desk
            (RequestIs.Post (PostIs.Content write.now))))) }
    {
        let sight = self.sight(way, write.doc, &write.key);
        let plan = plan_post(alloc, &self.config, write, &sight);
        self.planned(alloc, way, &sight, plan)
    }

    // What it comes to that a document is posted as it stands.
    #[tactic(auto, unfolding(desk_model::specs::Serial::change_effect))]
    fn standing_outcome(
        &self,
        alloc: Global,
        way: &Way,
        document: &StandingDocument,
    ) -> Result<Outcome, Memory>
        ensures { (tested : Result (Unit {0}) Stop) → IfOk result (Comes way.now self.now.desk
            (or_stop (deed_in way.now tested self.now.desk
            (RequestIs.Post (PostIs.Standing document.now))))) }
    {
        let sight = self.sight(way, Some(document.doc), &None);
        let plan = plan_standing(alloc, &sight);
        self.planned(alloc, way, &sight, plan)
    }

    // What it comes to that a document loses its records.
    #[tactic(auto, unfolding(desk_model::specs::Serial::change_effect))]
    pub(crate) fn unpost_outcome(
        &self,
        alloc: Global,
        way: &Way,
        document: &StandingDocument,
    ) -> Result<Outcome, Memory>
        ensures { (tested : Result (Unit {0}) Stop) → IfOk result (Comes way.now self.now.desk
            (or_stop (deed_in way.now tested self.now.desk (RequestIs.Unpost document.now)))) }
    {
        let sight = self.sight(way, Some(document.doc), &None);
        let plan = plan_unpost(alloc, &sight);
        self.planned(alloc, way, &sight, plan)
    }

    // What it comes to that records are given by hand.
    #[tactic(auto, unfolding(desk_model::specs::Serial::change_effect))]
    pub(crate) fn manual_outcome(
        &self,
        alloc: Global,
        way: &Way,
        manual: &Manual,
    ) -> Result<Outcome, Memory>
        ensures { (tested : Result (Unit {0}) Stop) → IfOk result (Comes way.now self.now.desk
            (or_stop (deed_in way.now tested self.now.desk (RequestIs.Manual manual.now)))) }
    {
        let sight = self.sight(way, manual.doc, &manual.key);
        let plan = plan_manual(alloc, &self.config, manual, &sight);
        self.planned(alloc, way, &sight, plan)
    }

    // What it comes to that a document is marked for deletion, or loses its mark.
    #[tactic(auto, unfolding(desk_model::specs::Serial::change_effect))]
    pub(crate) fn mark_outcome(
        &self,
        alloc: Global,
        way: &Way,
        switch: &Switch,
    ) -> Result<Outcome, Memory>
        ensures { (tested : Result (Unit {0}) Stop) → IfOk result (Comes way.now self.now.desk
            (or_stop (deed_in way.now tested self.now.desk (RequestIs.Mark switch.now)))) }
    {
        let sight = self.sight(way, Some(switch.doc), &None);
        let plan = plan_mark(alloc, switch, &sight);
        self.planned(alloc, way, &sight, plan)
    }

    // What it comes to that the records of a document are made to count, or not.
    #[tactic(auto, unfolding(desk_model::specs::Serial::change_effect))]
    pub(crate) fn activity_outcome(
        &self,
        alloc: Global,
        way: &Way,
        switch: &Switch,
    ) -> Result<Outcome, Memory>
        ensures { (tested : Result (Unit {0}) Stop) → IfOk result (Comes way.now self.now.desk
            (or_stop (deed_in way.now tested self.now.desk (RequestIs.Activity switch.now)))) }
    {
        let sight = self.sight(way, Some(switch.doc), &None);
        let plan = plan_activity(alloc, switch, &sight);
        self.planned(alloc, way, &sight, plan)
    }

    // What it comes to that a marked document is removed.
    #[tactic(auto, unfolding(desk_model::specs::Serial::change_effect))]
    pub(crate) fn sweep_outcome(
        &self,
        alloc: Global,
        way: &Way,
        sweep: &Sweep,
    ) -> Result<Outcome, Memory>
        ensures { (tested : Result (Unit {0}) Stop) → IfOk result (Comes way.now self.now.desk
            (or_stop (deed_in way.now tested self.now.desk (RequestIs.Sweep sweep.now)))) }
    {
        let sight = self.sight(way, Some(sweep.doc), &None);
        let plan = plan_sweep(alloc, &sight);
        self.planned(alloc, way, &sight, plan)
    }

    // What a change of this document, or of a new one with this key, sees.
    fn sight(&self, way: &Way, doc: Option<u32>, key: &Option<Code>) -> Sight<'_>
        ensures { sight_view result ≡ sight_at way.now self.now.desk.serial doc key.now }
    {
        Sight {
            before: self.named_document(doc),
            holder: self.key_holder(key),
            closed: self.closed,
            drawn: self.drawn_number(way, doc),
        }
    }

    // The document that is named, where there is one.
    fn named_document(&self, doc: Option<u32>) -> Option<&Document>
        ensures { option_copied result
            ≡ option_and_then (λ n. document_at n self.now.desk.serial.documents) doc }
    {
        match doc {
            Some(number) => self.store.document(number),
            None => None,
        }
    }

    // The document that has the key, where one is given.
    fn key_holder(&self, key: &Option<Code>) -> Option<u32>
        ensures { result
            ≡ option_and_then (λ k. holder_of k self.now.desk.serial.documents) key.now }
    {
        match key {
            Some(key) => self.store.by_key(None, key),
            None => None,
        }
    }

    // The number that a new document gets, and 0 where one is named.
    fn drawn_number(&self, way: &Way, doc: Option<u32>) -> u32
        ensures { result ≡ drawn_for way.now self.now.desk.serial doc }
    {
        match doc {
            Some(_) => 0,
            None => self.new_number(way),
        }
    }

    // The number of a new document: the next one, and 0 where none is left; or that of its command.
    pub(crate) fn new_number(&self, way: &Way) -> u32
        ensures { result ≡ new_number_of way.now self.now.desk.serial }
    {
        match way {
            Way::Served { .. } => self.top.checked_add(1).unwrap_or(0),
            Way::Replayed { number } => *number,
        }
    }
}
