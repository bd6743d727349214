//! What a plan of a change comes to: its document is made, and the limits and the controls are
//! asked.
ghost use Rattle.std.specs.Prelude.{◌≡◌, ◌≤◌, ◌-◌, length, Some, None, Ok, Err, IfOk, Result};
ghost use Rattle.std.specs.Option.{ForSome, option_copied};
ghost use Rattle.reg_base.specs.Tries.{Tries};
ghost use Rattle.desk_words.specs.declared.reply.Refusal.{Refusal as RefusalOf};
ghost use Rattle.desk_model.specs.declared.plan.Plan.{Plan as PlanOf};
ghost use Rattle.desk_model.specs.declared.plan.Source.TheVariants.{Removed};
ghost use Rattle.desk_model.specs.Stops.{Stop, or_stop};
ghost use Rattle.desk_model.specs.Controls.{controls_of as controls_of_it};
ghost use Rattle.desk_model.specs.Serial.{plan_effect};
ghost use Rattle.desk_model.specs.Limits.{records_before};
ghost use Rattle.desk_model.specs.Limits.{record_count as record_count_of};
ghost use Rattle.desk_plans.specs.Bounds.{IsWithinBounds};
ghost use Rattle.desk_plans.specs.Sights.{sight_view, Suits};
ghost use Rattle.desk_core.specs.Outcomes.{Comes, IsPut, made_effect, planned_effect};
ghost use Rattle.desk_core.specs.SeenStates.{IsSightOf};
ghost use Rattle.desk_core.specs.Ways.{limits_in, tests_in};

use crate::books::Books;
use crate::controls::{controls_of, failed_control};
use crate::desk::Desk;
use crate::outcome::{Outcome, document_outcome, refusal_outcome, removal_outcome};
use crate::way::Way;
use desk_model::{Plan, Source};
use desk_plans::{PartFault, Sight, Tried, document_from, record_count};
use desk_words::Refusal;
use post_rules::statements_for;
use reg_base::{Document, Memory};
use std::alloc::Global;

impl Desk {
    // What a plan comes to, or its refusal.
    pub(crate) fn planned(
        &self,
        alloc: Global,
        way: &Way,
        sight: &Sight<'_>,
        plan: Tried<Plan>,
    ) -> Result<Outcome, Memory>
        requires seen { IsSightOf way.now self.now.desk.serial (sight_view sight.now) }
        requires suits { IfOk plan (Suits (sight_view sight.now)) }
        ensures { (planned : Result PlanOf RefusalOf) (tested : Result (Unit {0}) Stop)
            → Tries plan planned → IfOk result (Comes way.now self.now.desk (or_stop
            (planned_effect self.now.desk (tests_in way.now self.now.desk tested)
            (sight_view sight.now) planned))) }
    {
        match plan {
            Ok(plan) => self.plan_outcome(alloc, way, sight, plan),
            Err(PartFault::Refused(refusal)) => Ok(refusal_outcome(refusal)),
            Err(PartFault::Memory) => Err(Memory),
        }
    }

    // What a plan comes to: its document is made, and the limits are asked.
    #[tactic(auto, unfolding(desk_model::specs::Serial::plan_effect))]
    fn plan_outcome(
        &self,
        alloc: Global,
        way: &Way,
        sight: &Sight<'_>,
        plan: Plan,
    ) -> Result<Outcome, Memory>
        requires seen { IsSightOf way.now self.now.desk.serial (sight_view sight.now) }
        requires suits { Suits (sight_view sight.now) plan }
        ensures { (tested : Result (Unit {0}) Stop)
            → IfOk result (Comes way.now self.now.desk (or_stop (plan_effect
            (tests_in way.now self.now.desk tested) self.now.desk.setting self.now.desk.serial
            (sight_view sight.now).drawn (sight_view sight.now) plan))) }
    {
        let number = plan.doc.number;
        let lines = plan.doc.lines.len();
        let controls = self.controls_of_plan(alloc, &plan)?;
        let books = Books::new(&self.config, &self.store);
        match document_from(alloc, &self.config, &self.rules, &books, sight.before, plan) {
            Ok(Some(document)) => {
                self.put_outcome(alloc, way, sight, lines, &controls, document)
            }
            Ok(None) => Ok(self.remove_outcome(way, sight, lines, number)),
            Err(PartFault::Refused(refusal)) => Ok(self.refused_outcome(
                way, sight, lines, refusal,
            )),
            Err(PartFault::Memory) => Err(Memory),
        }
    }

    // What the rules of a document's type control, where a plan posts it by them.
    fn controls_of_plan(&self, alloc: Global, plan: &Plan) -> Result<Vec<(u8, u8)>, Memory>
        ensures { IfOk result
            (λ controls. controls.items ≡ controls_of_it self.now.desk.setting plan.now) }
    {
        match plan.source {
            Source::ByRules => controls_of(alloc, statements_for(&self.rules, &plan.doc)),
            _ => Ok(Vec::new(alloc)),
        }
    }

    // What a document comes to that a plan made: it is put, where no limit is passed and nothing
    // that its rules control is below zero.
    fn put_outcome(
        &self,
        alloc: Global,
        way: &Way,
        sight: &Sight<'_>,
        lines: usize,
        controls: &[(u8, u8)],
        document: Document,
    ) -> Result<Outcome, Memory>
        requires seen { IsSightOf way.now self.now.desk.serial (sight_view sight.now) }
        requires bounds { IsWithinBounds document }
        ensures { (plan : PlanOf) → length plan.doc.lines ≡ lines → plan.doc ≡ document.doc
            → Suits (sight_view sight.now) plan → IsPut plan.source
            → controls.now ≡ controls_of_it self.now.desk.setting plan
            → IfOk result (Comes way.now self.now.desk (or_stop (made_effect way.now self.now.desk
            (sight_view sight.now) plan (Ok (Some document))))) }
    {
        let records = self.records + growth(sight.before, &document);
        match self.limit_passed(way, sight, lines, records) {
            Some(refusal) => Ok(refusal_outcome(refusal)),
            None => self.controlled_outcome(alloc, way, sight, controls, document),
        }
    }

    // What a document comes to with which no limit is passed.
    fn controlled_outcome(
        &self,
        alloc: Global,
        way: &Way,
        sight: &Sight<'_>,
        controls: &[(u8, u8)],
        document: Document,
    ) -> Result<Outcome, Memory>
        requires seen { IsSightOf way.now self.now.desk.serial (sight_view sight.now) }
        requires bounds { IsWithinBounds document }
        ensures { (plan : PlanOf) → plan.doc ≡ document.doc
            → Suits (sight_view sight.now) plan → IsPut plan.source
            → controls.now ≡ controls_of_it self.now.desk.setting plan
            → limits_in way.now self.now.desk (sight_view sight.now) plan (Ok (Some document))
            ≡ Ok tt
            → IfOk result (Comes way.now self.now.desk (or_stop (made_effect way.now self.now.desk
            (sight_view sight.now) plan (Ok (Some document))))) }
    {
        let failure = failed_control(
            alloc,
            &self.config,
            &self.store,
            controls,
            sight.before,
            &document,
        )?;
        match failure {
            Some(refusal) => Ok(refusal_outcome(refusal)),
            None => Ok(document_outcome(document)),
        }
    }

    // What it comes to that a plan removes the document of a number.
    fn remove_outcome(&self, way: &Way, sight: &Sight<'_>, lines: usize, number: u32) -> Outcome
        requires seen { IsSightOf way.now self.now.desk.serial (sight_view sight.now) }
        ensures { (plan : PlanOf) → length plan.doc.lines ≡ lines → plan.doc.number ≡ number
            → Suits (sight_view sight.now) plan → plan.source ≡ Removed
            → Comes way.now self.now.desk (or_stop (made_effect way.now self.now.desk
            (sight_view sight.now) plan (Ok None))) result }
    {
        match self.limit_passed(way, sight, lines, self.records) {
            Some(refusal) => refusal_outcome(refusal),
            None => removal_outcome(number),
        }
    }

    // What it comes to that no records can be made for a plan: a limit that is passed comes first,
    // but none of records.
    fn refused_outcome(
        &self,
        way: &Way,
        sight: &Sight<'_>,
        lines: usize,
        refusal: Refusal,
    ) -> Outcome
        ensures { (plan : PlanOf) → length plan.doc.lines ≡ lines
            → Comes way.now self.now.desk (or_stop (made_effect way.now self.now.desk
            (sight_view sight.now) plan (Err refusal))) result }
    {
        match self.limit_passed(way, sight, lines, 0) {
            Some(passed) => refusal_outcome(passed),
            None => refusal_outcome(refusal),
        }
    }
}

// By how many records a document grows beyond the one before.
fn growth(before: Option<&Document>, document: &Document) -> u32
    requires before { ForSome (option_copied before) IsWithinBounds }
    requires document { IsWithinBounds document.now }
    ensures value { result
        ≡ record_count_of document.now - records_before (option_copied before.entry) }
    ensures few { result ≤ 200_000 }
{
    let count = record_count(document);
    match before {
        Some(before) => count.saturating_sub(record_count(before)),
        None => count,
    }
}
