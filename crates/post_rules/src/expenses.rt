//! The expenses of a write-off.
ghost use Rattle.std.specs.Prelude.{◌≡◌};
ghost use Rattle.reg_base.specs.declared.records.Mark.TheVariants.{Expense};
ghost use Rattle.post_model.specs.Makes.{record_made as record_made_of};
ghost use Rattle.post_model.specs.Makes.{values_with as values_with_of};
ghost use Rattle.post_model.specs.Makes.{taken_numbers as taken_numbers_of};
ghost use Rattle.post_model.specs.Yields.{written_off as written_off_of};
ghost use Rattle.post_model.specs.Yields.{width_of as width_at, depth_of as depth_at};
ghost use Rattle.post_rules.specs.Bounds.{AreSmallHoldings};
ghost use Rattle.post_rules.specs.ActParts.{expenses_for};
ghost use Rattle.post_rules.specs.SceneViews.{scene_view};
ghost use Rattle.reg_base.specs.Tries.{Tries};

use crate::fault::Tried;
use crate::numbers::taken_numbers;
use crate::places::{depth_of, width_of};
use crate::records::record_made;
use crate::scene::Scene;
use crate::write_offs::cost_of;
use cfg_model::Config;
use post_model::{Holding, Made};
use reg_base::Mark;
use rule_lang::Bind;
use std::alloc::Global;

// What is taken, made, and what it costs.
#[tactic(auto, unfolding(post_model::specs::Yields::written_off))]
pub(crate) fn written_off(
    alloc: Global,
    config: &Config,
    scene: &Scene,
    register: u8,
    binds: &[Bind],
    quantity: u8,
    amount: u8,
    mut made: Made,
    takes: &[Holding],
) -> Tried<Made>
    requires { AreSmallHoldings takes.now }
    ensures { Tries result (written_off_of config.now (scene_view scene.now) register binds.now
        quantity amount made takes.now) }
{
    made.cost = cost_of(takes);
    expenses_made(
        alloc, config, scene, register, binds, quantity, amount, takes, made,
    )
}

// An expense for each that was taken, in order.
#[tactic(auto, unfolding(post_model::specs::Makes::expenses_made))]
fn expenses_made(
    alloc: Global,
    config: &Config,
    scene: &Scene,
    register: u8,
    binds: &[Bind],
    quantity: u8,
    amount: u8,
    takes: &[Holding],
    begun: Made,
) -> Tried<Made>
    ensures { Tries result (expenses_for config.now (scene_view scene.now) register binds.now
        quantity amount takes.now begun) }
{
    let mut made = begun;
    'takes: for take in takes {
        made = expense_made(
            alloc, config, scene, register, binds, quantity, amount, take, made,
        )?;
    }
    Ok(made)
}

// An expense for what was taken of a lot.
fn expense_made(
    alloc: Global,
    config: &Config,
    scene: &Scene,
    register: u8,
    binds: &[Bind],
    quantity: u8,
    amount: u8,
    take: &Holding,
    made: Made,
) -> Tried<Made>
    ensures { Tries result (record_made_of (scene_view scene.now) register Expense
        (values_with_of (scene_view scene.now) binds.now take.now.lot
        (width_at config.now register))
        (taken_numbers_of quantity amount take.now (depth_at config.now register)) made) }
{
    let values = scene.values_with(alloc, binds, &take.lot, width_of(config, register))?;
    let numbers = taken_numbers(alloc, quantity, amount, take, depth_of(config, register))?;
    record_made(alloc, scene, register, Mark::Expense, values, numbers, made)
}
