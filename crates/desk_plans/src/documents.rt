//! The document that a plan leaves, with its records.
ghost use Rattle.std.specs.Prelude.{◌≡◌, ℕ, ◌≤◌, List, length, All, Ok, Some, IfOk};
ghost use Rattle.std.specs.Option.{option_copied, ForSome};
ghost use Rattle.reg_base.specs.declared.records.Document.{Document as DocumentOf};
ghost use Rattle.reg_base.specs.Records.{records_of};
ghost use Rattle.cfg_model.specs.Limits.{IsWithinLimits};
ghost use Rattle.post_model.specs.Yields.{statements_for, depth_of, yield_of};
ghost use Rattle.post_model.specs.Laws.{AreSetsOf};
ghost use Rattle.post_rules.specs.Sheets.{IsSheet};
ghost use Rattle.desk_model.specs.DocumentSets.{document_from as document_of_plan};
ghost use Rattle.desk_model.specs.DocumentSets.{sets_before as sets_before_of, with_yield};
ghost use Rattle.desk_model.specs.RecordSets.{no_sets as no_sets_of};
ghost use Rattle.desk_model.specs.RecordSets.{given_by_hand as given_by_hand_of};
ghost use Rattle.desk_plans.specs.Bounds.{IsWithinBounds, GivesNumbers};
ghost use Rattle.desk_plans.specs.DocumentParts.{with_sets};
ghost use Rattle.reg_base.specs.Tries.{Tries};

use crate::copies::copy_sets;
use crate::making::{given_by_hand, no_sets};
use crate::scales::fault_scale;
use crate::tried::{PartFault, Tried};
use cfg_model::Config;
use desk_model::{GivenSet, Plan, Source};
use desk_words::Refusal;
use doc_store::Balances;
use post_model::yields_are_within_limits;
use post_rules::yield_sets;
use reg_base::{Doc, Document, Fault, List, Memory, Sets};
use rule_lang::Rules;
use std::alloc::Global;

// The most lines that rules are run over. No memory holds more, so where there are more, memory is
// what is wanted.
const MOST_LINES: usize = 0xffff_ffff;

/// The document of a plan with its records, none where it is removed, or why its records can't be
/// made. Rules see the records of the books.
pub fn document_from<B: Balances>(
    alloc: Global,
    config: &Config,
    rules: &Rules,
    books: &B,
    before: Option<&Document>,
    plan: Plan,
) -> Tried<Option<Document>>
    requires limits { IsWithinLimits config.now }
    requires statements { All (λ statements. length statements ≤ 64) rules.now.kinds }
    requires sheets { (register : ℕ) → IsSheet (B.books books.now register) }
    requires resources { (register : ℕ) → B.resources books.now register
        ≡ depth_of config.now register }
    requires before { ForSome (option_copied before) IsWithinBounds }
    requires given { GivesNumbers plan.source }
    ensures value { (documents : List DocumentOf)
        → B.books books.now ≡ (λ register. records_of register documents)
        → Tries result (document_of_plan (record { config = config.now; rules = rules.now })
        documents (option_copied before.entry) plan.doc plan.source) }
    ensures bounds { IfOk result (λ made. ForSome made IsWithinBounds) }
{
    let Plan { doc, source } = plan;
    match source {
        Source::ByHand(given) => document_by_hand(alloc, config, doc, given),
        Source::ByRules => document_by_rules(alloc, config, rules, books, doc),
        Source::Kept => document_kept(alloc, config, before, doc),
        Source::Nothing => document_without_records(alloc, config, doc),
        Source::Removed => Ok(None),
    }
}

// A document whose records are given by hand.
fn document_by_hand(
    alloc: Global,
    config: &Config,
    doc: Doc,
    given: List<GivenSet>,
) -> Tried<Option<Document>>
    ensures { Tries result (with_sets doc (given_by_hand_of config.now doc.date given)) }
{
    let sets = given_by_hand(alloc, config, doc.date, given)?;
    Ok(Some(Document { doc, sets }))
}

// A document whose records the rules of its type make.
fn document_by_rules<B: Balances>(
    alloc: Global,
    config: &Config,
    rules: &Rules,
    books: &B,
    doc: Doc,
) -> Tried<Option<Document>>
    requires limits { IsWithinLimits config.now }
    requires statements { All (λ statements. length statements ≤ 64) rules.now.kinds }
    requires sheets { (register : ℕ) → IsSheet (B.books books.now register) }
    requires resources { (register : ℕ) → B.resources books.now register
        ≡ depth_of config.now register }
    ensures value { Tries result (with_yield (record { config = config.now; rules = rules.now })
        doc (yield_of config.now rules.now doc (B.books books.now))) }
    ensures within { IfOk (yield_of config.now rules.now doc (B.books books.now))
        (λ made. AreSetsOf config.now made.sets) }
{
    yields_are_within_limits();
    if doc.lines.len() > MOST_LINES {
        return Err(PartFault::Memory);
    }
    match yield_sets(alloc, rules, config, &doc, books) {
        Ok(made) => {
            let sets = made.sets;
            Ok(Some(Document { doc, sets }))
        }
        Err(Fault::Refused(fault)) => {
            let scale = fault_scale(config, rules, &doc, &fault);
            Err(PartFault::Refused(Refusal::Rule { fault, scale }))
        }
        Err(Fault::Memory) => Err(PartFault::Memory),
    }
}

// A document that keeps the records that it had.
fn document_kept(
    alloc: Global,
    config: &Config,
    before: Option<&Document>,
    doc: Doc,
) -> Tried<Option<Document>>
    ensures { Tries result
        (with_sets doc (Ok (sets_before_of config.now (option_copied before.entry)))) }
{
    let sets = sets_before(alloc, config, before)?;
    Ok(Some(Document { doc, sets }))
}

// The records that a document had, and none where it was not there.
fn sets_before(alloc: Global, config: &Config, before: Option<&Document>) -> Result<Sets, Memory>
    ensures { IfOk result (λ sets. sets ≡ sets_before_of config.now (option_copied before.entry)) }
{
    match before {
        Some(document) => copy_sets(alloc, &document.sets),
        None => no_sets(alloc, config),
    }
}

// A document without records.
fn document_without_records(alloc: Global, config: &Config, doc: Doc) -> Tried<Option<Document>>
    ensures { Tries result (with_sets doc (Ok (no_sets_of config.now))) }
{
    let sets = no_sets(alloc, config)?;
    Ok(Some(Document { doc, sets }))
}
