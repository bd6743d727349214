//! Rounds of statements: what is done once, and what is done for each line.
ghost use Rattle.std.specs.Prelude.{◌≡◌, ◌≤◌, ◌<◌, ◌^◌, length, IfOk};
ghost use Rattle.std.specs.Bool.{beq};
ghost use Rattle.post_model.specs.Yields.{statement_run, round_run, round_begun, lines_run};
ghost use Rattle.post_model.specs.Yields.{run_in_round as run_in_round_of};
ghost use Rattle.post_rules.specs.Bounds.{CanRead, IsSmallScene, IsSmallMade};
ghost use Rattle.post_rules.specs.SceneViews.{scene_view};
ghost use Rattle.reg_base.specs.Tries.{Tries};

use crate::acts::{passed_over, run_act};
use crate::fault::Tried;
use crate::scene::Scene;
use cfg_model::Config;
use doc_store::Balances;
use post_model::Made;
use reg_base::{Cell, Doc, List};
use rule_lang::Statement;
use std::alloc::Global;

// A round for each line, in order.
#[tactic(auto, unfolding(post_model::specs::Yields::lines_run))]
pub(crate) fn run_lines<B: Balances>(
    alloc: Global,
    view: &B,
    config: &Config,
    doc: &Doc,
    statements: &[Statement],
    begun: Made,
) -> Tried<Made>
    requires reads { CanRead config.now (B.books view.now) (B.resources view.now) }
    requires few { length statements.now ≤ 64 }
    requires lines { length doc.now.lines < 2 ^ 32 }
    requires made { IsSmallMade begun }
    ensures { Tries result (lines_run config.now (B.books view.now) doc.now statements.now 1
        doc.now.lines begun) }
{
    let mut made = begun;
    let mut line = 0;
    'lines: for cells in doc.lines.as_slice() {
        line += 1;
        let cells = cells.as_slice();
        made = begin_round(
            alloc, view, config, doc, statements, true, line, cells, made,
        )?;
    }
    Ok(made)
}

// A round from its beginning, where no write-off has cost anything yet.
pub(crate) fn begin_round<B: Balances>(
    alloc: Global,
    view: &B,
    config: &Config,
    doc: &Doc,
    statements: &[Statement],
    each: bool,
    line: u32,
    cells: &[Cell],
    made: Made,
) -> Tried<Made>
    requires reads { CanRead config.now (B.books view.now) (B.resources view.now) }
    requires few { length statements.now ≤ 64 }
    requires lines { length doc.now.lines < 2 ^ 32 }
    requires made { IsSmallMade made }
    ensures value { Tries result (round_begun config.now (B.books view.now) doc.now
        statements.now each line cells.now made) }
    ensures kept { IfOk result IsSmallMade }
{
    let mut begun = made;
    begun.cost = 0;
    run_round(
        alloc, view, config, doc, statements, each, line, cells, begun,
    )
}

// The statements of a round, in the order of the text.
#[tactic(auto, unfolding(post_model::specs::Yields::round_run))]
fn run_round<B: Balances>(
    alloc: Global,
    view: &B,
    config: &Config,
    doc: &Doc,
    statements: &[Statement],
    each: bool,
    line: u32,
    cells: &[Cell],
    begun: Made,
) -> Tried<Made>
    requires reads { CanRead config.now (B.books view.now) (B.resources view.now) }
    requires few { length statements.now ≤ 64 }
    requires lines { length doc.now.lines < 2 ^ 32 }
    requires made { IsSmallMade begun }
    ensures value { Tries result (round_run config.now (B.books view.now) doc.now each line
        cells.now 1 statements.now begun) }
    ensures kept { IfOk result IsSmallMade }
{
    let mut made = begun;
    let mut rule = 0;
    'statements: for statement in statements {
        rule += 1;
        let scene = Scene {
            doc,
            rule,
            line,
            cells,
            cost: made.cost,
        };
        made = run_in_round(alloc, view, config, &scene, each, statement, made)?;
    }
    Ok(made)
}

// A statement in a round, where it is one of the round's.
fn run_in_round<B: Balances>(
    alloc: Global,
    view: &B,
    config: &Config,
    scene: &Scene,
    each: bool,
    statement: &Statement,
    made: Made,
) -> Tried<Made>
    requires reads { CanRead config.now (B.books view.now) (B.resources view.now) }
    requires scene { IsSmallScene (scene_view scene.now) }
    requires made { IsSmallMade made }
    ensures value { Tries result (run_in_round_of (beq statement.now.each each) config.now
        (B.books view.now) (scene_view scene.now) statement.now made) }
    ensures kept { IfOk result IsSmallMade }
{
    if statement.each != each {
        return Ok(made);
    }
    run_statement(alloc, view, config, scene, statement, made)
}

// A statement: where its condition does not hold, it is passed over.
#[tactic(auto, unfolding(post_model::specs::Yields::statement_run))]
fn run_statement<B: Balances>(
    alloc: Global,
    view: &B,
    config: &Config,
    scene: &Scene,
    statement: &Statement,
    made: Made,
) -> Tried<Made>
    requires reads { CanRead config.now (B.books view.now) (B.resources view.now) }
    requires scene { IsSmallScene (scene_view scene.now) }
    requires made { IsSmallMade made }
    ensures value { Tries result (statement_run config.now (B.books view.now)
        (scene_view scene.now) statement.now made) }
    ensures kept { IfOk result IsSmallMade }
{
    if !scene.when_holds(&statement.when)? {
        return Ok(passed_over(&statement.act, made));
    }
    run_act(alloc, view, config, scene, &statement.act, made)
}
