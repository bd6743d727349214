//! What posting a document makes.
ghost use Rattle.std.specs.Prelude.{◌≡◌, ℕ, ◌≤◌, ◌<◌, ◌^◌, [], length, replicate, IfOk};
ghost use Rattle.cfg_model.specs.Limits.{IsWithinLimits};
ghost use Rattle.post_model.specs.Yields.{yield_of, statements_for as statements_of};
ghost use Rattle.post_model.specs.Yields.{nothing_made as nothing_made_of, depth_of};
ghost use Rattle.post_rules.specs.Sheets.{IsSheet};
ghost use Rattle.reg_base.specs.Tries.{Tries};

use crate::fault::YieldFault;
use crate::rounds::{begin_round, run_lines};
use cfg_model::Config;
use doc_store::Balances;
use post_model::{Made, Yield};
use reg_base::{Doc, List, Memory, Sets};
use rule_lang::{Rules, Statement};
use std::alloc::Global;

/// What posting a document by the rules of its type makes, where the view has the records of each
/// register: what is done once, and then what is done for each line.
#[tactic(auto, unfolding(post_model::specs::Yields::yield_of))]
pub fn yield_sets<B: Balances>(
    alloc: Global,
    rules: &Rules,
    config: &Config,
    doc: &Doc,
    view: &B,
) -> Result<Yield, YieldFault>
    requires limits { IsWithinLimits config.now }
    requires few_statements { length (statements_of rules.now doc.now) ≤ 64 }
    requires few_lines { length doc.now.lines < 2 ^ 32 }
    requires sheets { (register : ℕ) → IsSheet (B.books view.now register) }
    requires resources { (register : ℕ) → B.resources view.now register
        ≡ depth_of config.now register }
    ensures { Tries result (yield_of config.now rules.now doc.now (B.books view.now)) }
{
    let statements = statements_for(rules, doc);
    let nothing = nothing_made(alloc, config)?;
    let once = begin_round(alloc, view, config, doc, statements, false, 0, &[], nothing)?;
    let made = run_lines(alloc, view, config, doc, statements, once)?;
    let Made {
        sets,
        reads,
        controls,
        ..
    } = made;
    Ok(Yield {
        sets,
        reads,
        controls,
    })
}

/// The statements of a document's type; a document without a type has none.
pub fn statements_for<'a>(rules: &'a Rules, doc: &Doc) -> &'a [Statement]
    ensures { result.now ≡ statements_of rules.now doc.now }
{
    let Some(kind) = doc.kind else {
        return &[];
    };
    match rules.kinds.get(usize::from(kind)) {
        Some(statements) => statements.as_slice(),
        None => &[],
    }
}

// Nothing made yet.
fn nothing_made(alloc: Global, config: &Config) -> Result<Made, Memory>
    ensures { IfOk result (λ made. made ≡ nothing_made_of config.now) }
{
    let registers = empty_lists(alloc, config.registers.len())?;
    let ledgers = empty_lists(alloc, config.ledgers.len())?;
    Ok(Made {
        sets: Sets { registers, ledgers },
        reads: List::new(alloc),
        controls: List::new(alloc),
        cost: 0,
    })
}

// So many empty lists.
fn empty_lists<X: Drop>(alloc: Global, count: usize) -> Result<List<List<X>>, Memory>
    ensures { IfOk result (λ lists. lists ≡ replicate count []) }
{
    let mut lists = Vec::new(alloc);
    'places: for _ in 0..count {
        lists.push(List::new(alloc))?;
    }
    Ok(List::from_vec(lists))
}
