//! Entries behind those made so far.
ghost use Rattle.std.specs.Prelude.{◌≡◌, pos, slice_get, Option, Some, IfOk, Ok, map, option_map};
ghost use Rattle.post_model.specs.Scenes.{code_value};
ghost use Rattle.post_model.specs.Makes.{at_place, with_ledgers, side_value};
ghost use Rattle.post_model.specs.Makes.{entry_behind as entry_behind_of, checked as checked_of};
ghost use Rattle.post_model.specs.Makes.{entry_made as entry_made_of};
ghost use Rattle.post_rules.specs.SceneViews.{scene_view};
ghost use Rattle.reg_base.specs.Tries.{Tries};
ghost use Rattle.post_rules.specs.Onward.{onward};

use crate::fault::Tried;
use crate::records::{MOST_RECORDS, put_back, taken_out};
use crate::scene::Scene;
use cfg_model::{Chart, Config, check_entry};
use post_model::Made;
use reg_base::{Code, Fault, List, Memory, PostFault, Posting, Sets, Side};
use rule_lang::{CodeTerm, Place};
use std::alloc::Global;

// A side of an entry, where there is one.
pub(crate) fn side_of(
    alloc: Global,
    scene: &Scene,
    place: &Option<Place>,
) -> Result<Option<Side>, Memory>
    ensures { IfOk result (λ side. side
        ≡ option_map (side_value (scene_view scene.now)) place.now) }
{
    let Some(place) = place else {
        return Ok(None);
    };
    let extras = codes_of(alloc, scene, place.extras.as_slice())?;
    Ok(Some(Side {
        account: scene.code(&place.account),
        extras,
    }))
}

// The codes that terms are.
fn codes_of(alloc: Global, scene: &Scene, terms: &[CodeTerm]) -> Result<List<Code>, Memory>
    ensures { IfOk result (λ codes. codes ≡ map (code_value (scene_view scene.now)) terms.now) }
{
    let mut codes = Vec::new(alloc);
    'terms: for term in terms {
        codes.push(scene.code(term))?;
    }
    Ok(List::from_vec(codes))
}

// An entry made, unless its amount is zero: its chart accepts it, and the ledger has room.
#[tactic(auto, unfolding(post_model::specs::Makes::entry_made))]
pub(crate) fn entry_made(
    alloc: Global,
    config: &Config,
    scene: &Scene,
    ledger: u8,
    debit: Option<Side>,
    credit: Option<Side>,
    amount: i64,
    made: Made,
) -> Tried<Made>
    ensures { Tries result (entry_made_of (scene_view scene.now)
        (slice_get config.now.ledgers ledger) ledger debit credit amount made) }
{
    if amount == 0 {
        return Ok(made);
    }
    checked(config, scene, ledger, &debit, &credit)?;
    entry_put(alloc, scene, ledger, debit, credit, amount, made)
}

// The chart of a ledger accepts the sides; a ledger that is not there accepts all.
#[tactic(auto, unfolding(post_model::specs::Makes::checked))]
fn checked(
    config: &Config,
    scene: &Scene,
    ledger: u8,
    debit: &Option<Side>,
    credit: &Option<Side>,
) -> Tried<()>
    ensures { Tries result (checked_of (scene_view scene.now)
        (slice_get config.now.ledgers ledger) debit.now credit.now) }
{
    match config.ledgers.get(usize::from(ledger)) {
        Some(chart) => accepted(chart, scene, debit, credit),
        None => Ok(()),
    }
}

// The chart accepts the sides, or the entry is refused.
#[tactic(auto, unfolding(post_model::specs::Makes::checked))]
fn accepted(chart: &Chart, scene: &Scene, debit: &Option<Side>, credit: &Option<Side>) -> Tried<()>
    ensures { Tries result
        (checked_of (scene_view scene.now) (Some chart.now) debit.now credit.now) }
{
    match check_entry(chart, debit, credit) {
        Ok(()) => Ok(()),
        Err(fault) => Err(Fault::Refused(PostFault::Entry {
            rule: scene.rule,
            line: scene.line,
            fault,
        })),
    }
}

// What was made, with an entry put behind the others of its ledger.
fn entry_put(
    alloc: Global,
    scene: &Scene,
    ledger: u8,
    debit: Option<Side>,
    credit: Option<Side>,
    amount: i64,
    made: Made,
) -> Tried<Made>
    ensures { Tries result (onward (at_place ledger made.sets.ledgers
        (entry_behind_of (scene_view scene.now) debit credit amount))
        (λ ledgers. Ok (with_ledgers made ledgers))) }
{
    let Made {
        sets,
        reads,
        controls,
        cost,
    } = made;
    let Sets { registers, ledgers } = sets;
    let place = usize::from(ledger);
    let ledgers = ledger_changed(alloc, scene, place, debit, credit, amount, ledgers)?;
    Ok(Made {
        sets: Sets { registers, ledgers },
        reads,
        controls,
        cost,
    })
}

// The entries of all ledgers with one more behind those of a ledger.
#[tactic(auto, unfolding(post_model::specs::Makes::at_place))]
fn ledger_changed(
    alloc: Global,
    scene: &Scene,
    place: usize,
    debit: Option<Side>,
    credit: Option<Side>,
    amount: i64,
    ledgers: List<List<Posting>>,
) -> Tried<List<List<Posting>>>
    ensures { Tries result (at_place place ledgers
        (entry_behind_of (scene_view scene.now) debit credit amount)) }
{
    let mut lists = ledgers.into_vec();
    let postings = taken_out(alloc, &mut lists, place);
    let postings = entry_behind(scene, debit, credit, amount, postings)?;
    Ok(put_back(lists, place, postings))
}

// An entry behind the others of its ledger, with the next line number.
fn entry_behind(
    scene: &Scene,
    debit: Option<Side>,
    credit: Option<Side>,
    amount: i64,
    postings: List<Posting>,
) -> Tried<List<Posting>>
    ensures { Tries result
        (entry_behind_of (scene_view scene.now) debit credit amount postings) }
{
    let mut postings = postings.into_vec();
    if postings.len() >= MOST_RECORDS {
        return Err(Fault::Refused(PostFault::TooManyRecords));
    }
    let line = postings.len() as u16 + 1;
    postings.push(Posting {
        line,
        period: scene.doc.date,
        debit,
        credit,
        amount,
    })?;
    Ok(List::from_vec(postings))
}
