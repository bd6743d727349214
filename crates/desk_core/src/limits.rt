//! The limits of a desk: how many documents, records, lines and numbers there may be, and how long
//! its journal.
ghost use Rattle.std.specs.Prelude.{◌≡◌, length, Result, Option};
ghost use Rattle.reg_base.specs.declared.records.Document.{Document};
ghost use Rattle.reg_base.specs.Results.{none_or};
ghost use Rattle.desk_words.specs.declared.reply.Refusal.{Refusal as RefusalOf};
ghost use Rattle.desk_model.specs.declared.plan.Plan.{Plan as PlanOf};
ghost use Rattle.desk_model.specs.Limits.{limits_of, number_is_left, records_limit, within_limit};
ghost use Rattle.desk_model.specs.Limits.{documents_with_plan as with_plan};
ghost use Rattle.desk_model.specs.Journals.{entry_limit};
ghost use Rattle.desk_plans.specs.Sights.{sight_view};
ghost use Rattle.desk_core.specs.Ways.{entry_test, limits_in, plan_limits};

use crate::desk::Desk;
use crate::way::Way;
use desk_plans::Sight;
use desk_words::{Limit, Refusal};

/// How many documents there are at the most.
pub const MOST_DOCUMENTS: u64 = 500_000;

/// How many records and entries all documents have at the most.
pub const MOST_KEPT_RECORDS: u64 = 2_000_000;

/// How many lines a document has at the most.
pub const MOST_LINES: u64 = 1_000;

/// How many bytes an entry of the journal has at the most.
pub const MOST_ENTRY: u64 = 16_777_216;

/// How many bytes the journal has at the most.
pub const MOST_JOURNAL: u64 = 1_073_741_824;

impl Desk {
    // The first limit that a plan passes, whose document has so many lines and with whose records
    // there are so many; that of the journal is the last. A replay asks none.
    pub(crate) fn limit_passed(
        &self,
        way: &Way,
        sight: &Sight<'_>,
        lines: usize,
        records: u32,
    ) -> Option<Refusal>
        ensures { (plan : PlanOf) (made : Result (Option Document) RefusalOf)
            → length plan.doc.lines ≡ lines
            → records_limit self.now.desk.serial (sight_view sight.now) made
            ≡ within_limit Limit.Records records 2_000_000
            → none_or result
            ≡ limits_in way.now self.now.desk (sight_view sight.now) plan made }
    {
        match self.plan_refused(way, sight, lines, records) {
            Some(refusal) => Some(refusal),
            None => self.entry_refused(way),
        }
    }

    // The same without that of the journal.
    fn plan_refused(
        &self,
        way: &Way,
        sight: &Sight<'_>,
        lines: usize,
        records: u32,
    ) -> Option<Refusal>
        ensures { (plan : PlanOf) (made : Result (Option Document) RefusalOf)
            → length plan.doc.lines ≡ lines
            → records_limit self.now.desk.serial (sight_view sight.now) made
            ≡ within_limit Limit.Records records 2_000_000
            → none_or result
            ≡ plan_limits way.now self.now.desk (sight_view sight.now) plan made }
    {
        match way {
            Way::Served { .. } => self.plan_passes(sight, lines, records),
            Way::Replayed { .. } => None,
        }
    }

    // The refusal of an entry that is too long, or for which the journal has no room.
    pub(crate) fn entry_refused(&self, way: &Way) -> Option<Refusal>
        ensures { none_or result ≡ entry_test way.now self.now.desk }
    {
        match way {
            Way::Served { entry } => self.entry_passes(*entry),
            Way::Replayed { .. } => None,
        }
    }

    // The limit that an entry of so many bytes passes.
    #[tactic(auto, unfolding(desk_model::specs::Journals::entry_limit))]
    fn entry_passes(&self, entry: usize) -> Option<Refusal>
        ensures { none_or result ≡ entry_limit self.now.desk.journal entry }
    {
        let entry = entry as u64;
        if entry > MOST_ENTRY {
            return passed(Limit::Journal, entry, MOST_ENTRY);
        }
        passed(Limit::Journal, self.journal + (5 + entry), MOST_JOURNAL)
    }

    // The first limit of documents, records, lines and numbers that a plan passes.
    fn plan_passes(&self, sight: &Sight<'_>, lines: usize, records: u32) -> Option<Refusal>
        ensures { (plan : PlanOf) (made : Result (Option Document) RefusalOf)
            → length plan.doc.lines ≡ lines
            → records_limit self.now.desk.serial (sight_view sight.now) made
            ≡ within_limit Limit.Records records 2_000_000
            → none_or result
            ≡ limits_of self.now.desk.serial (sight_view sight.now) plan made }
    {
        let documents = self.documents_with_plan(sight);
        if let Some(refusal) = passed(Limit::Documents, documents as u64, MOST_DOCUMENTS) {
            return Some(refusal);
        }
        if let Some(refusal) = passed(Limit::Records, u64::from(records), MOST_KEPT_RECORDS) {
            return Some(refusal);
        }
        if let Some(refusal) = passed(Limit::Lines, lines as u64, MOST_LINES) {
            return Some(refusal);
        }
        if !self.has_number(sight) {
            return Some(Refusal::Limit {
                which: Limit::Numbers,
                number: u64::from(u32::MAX),
            });
        }
        None
    }

    // How many documents there are with that of a plan: one more where it is new.
    fn documents_with_plan(&self, sight: &Sight<'_>) -> usize
        ensures { result ≡ with_plan self.now.desk.serial (sight_view sight.now) }
    {
        match sight.before {
            Some(_) => self.store.count(),
            None => self.store.count() + 1,
        }
    }

    // Whether a document number is left to be drawn, where one is.
    fn has_number(&self, sight: &Sight<'_>) -> bool
        ensures { result ≡ number_is_left self.now.desk.serial (sight_view sight.now) }
    {
        match sight.before {
            Some(_) => true,
            None => self.top < u32::MAX,
        }
    }
}

// The refusal of a count above its limit.
fn passed(which: Limit, count: u64, most: u64) -> Option<Refusal>
    ensures { none_or result ≡ within_limit which count most }
{
    if count <= most {
        return None;
    }
    Some(Refusal::Limit {
        which,
        number: most,
    })
}
