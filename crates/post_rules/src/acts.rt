//! Acts, each in a function of its own.
ghost use Rattle.std.specs.Prelude.{◌≡◌, [], ◌∷◌, ◌++◌, All, Some, IfOk};
ghost use Rattle.rule_lang.specs.declared.statement.Act.TheVariants.{Make, WriteOff, Require};
ghost use Rattle.rule_lang.specs.declared.statement.Act.TheVariants.{Control, Entry};
ghost use Rattle.reg_base.specs.declared.fault.PostFault.TheVariants.{Broken};
ghost use Rattle.cfg_model.specs.declared.config.Config.{Config};
ghost use Rattle.post_model.specs.Scenes.{Scene as SceneOf};
ghost use Rattle.post_model.specs.Yields.{act_on, act_run, noted as noted_in};
ghost use Rattle.post_model.specs.Yields.{passed_over as passed_over_by};
ghost use Rattle.post_rules.specs.ActParts.{written_from, required_of};
ghost use Rattle.post_rules.specs.Bounds.{CanRead, IsSmallScene, IsSmallSet, AreSmallHoldings};
ghost use Rattle.post_rules.specs.SceneViews.{scene_view};
ghost use Rattle.reg_base.specs.Tries.{Tries};
ghost use Rattle.reg_base.specs.declared.tried.Fault.TheVariants.{Refused};

use crate::entries::{entry_made, side_of};
use crate::expenses::written_off;
use crate::fault::{Tried, YieldFault};
use crate::lefts::{holdings_left, sum_left};
use crate::numbers::numbers_for;
use crate::places::{depth_of, width_of};
use crate::reads::read_item;
use crate::records::{mark_of, record_made};
use crate::scene::Scene;
use crate::write_offs::write_off;
use cfg_model::Config;
use doc_store::Balances;
use post_model::{Holding, Made};
use reg_base::{Code, Fault, Item, Memory, PostFault};
use rule_lang::{Act, Bind, Place, Sum, Verb};
use std::alloc::Global;

// An act that runs: its read is noted, and it sees what is left of the records that the read names.
#[tactic(auto, unfolding(post_model::specs::Yields::act_run))]
pub(crate) fn run_act<B: Balances>(
    alloc: Global,
    view: &B,
    config: &Config,
    scene: &Scene,
    act: &Act,
    made: Made,
) -> Tried<Made>
    requires reads { CanRead config.now (B.books view.now) (B.resources view.now) }
    requires scene { IsSmallScene (scene_view scene.now) }
    requires sets { All IsSmallSet made.sets.registers }
    ensures { Tries result
        (act_run config.now (B.books view.now) (scene_view scene.now) act.now made) }
{
    match act {
        Act::Make {
            verb,
            register,
            binds,
            sums,
        } => make(
            alloc,
            config,
            scene,
            *verb,
            *register,
            binds.as_slice(),
            sums.as_slice(),
            made,
        ),
        Act::WriteOff {
            fifo,
            register,
            binds,
            quantity,
            wanted,
            amount,
        } => run_write_off(
            alloc,
            view,
            config,
            scene,
            *fifo,
            *register,
            binds.as_slice(),
            *quantity,
            wanted,
            *amount,
            made,
        ),
        Act::Require {
            register,
            binds,
            resource,
            least,
            code,
        } => require(
            alloc,
            view,
            config,
            scene,
            *register,
            binds.as_slice(),
            *resource,
            least,
            *code,
            made,
        ),
        Act::Control { register, resource } => control(*register, *resource, made),
        Act::Entry {
            ledger,
            debit,
            credit,
            amount,
        } => enter(alloc, config, scene, *ledger, debit, credit, amount, made),
    }
}

// What was made, where a statement is passed over: a write-off then costs nothing.
pub(crate) fn passed_over(act: &Act, mut made: Made) -> Made
    ensures { result ≡ passed_over_by act.now made }
{
    if let Act::WriteOff { .. } = act {
        made.cost = 0;
    }
    made
}

// A record.
#[tactic(auto, unfolding(post_model::specs::Yields::act_on))]
fn make(
    alloc: Global,
    config: &Config,
    scene: &Scene,
    verb: Verb,
    register: u8,
    binds: &[Bind],
    sums: &[(u8, Sum)],
    made: Made,
) -> Tried<Made>
    requires { IsSmallScene (scene_view scene.now) }
    ensures { Tries result (act_on config.now (scene_view scene.now)
        (Make verb register binds.now sums.now) [] made) }
{
    let numbers = numbers_for(alloc, scene, sums, depth_of(config, register))?;
    let values = scene.values_with(alloc, binds, &None, width_of(config, register))?;
    record_made(alloc, scene, register, mark_of(verb), values, numbers, made)
}

// A write-off, by the order of lots or by the average.
fn run_write_off<B: Balances>(
    alloc: Global,
    view: &B,
    config: &Config,
    scene: &Scene,
    fifo: bool,
    register: u8,
    binds: &[Bind],
    quantity: u8,
    wanted: &Sum,
    amount: u8,
    made: Made,
) -> Tried<Made>
    requires reads { CanRead config.now (B.books view.now) (B.resources view.now) }
    requires scene { IsSmallScene (scene_view scene.now) }
    requires sets { All IsSmallSet made.sets.registers }
    ensures { Tries result (act_run config.now (B.books view.now) (scene_view scene.now)
        (WriteOff fifo register binds.now quantity wanted.now amount) made) }
{
    let item = read_item(alloc, config, scene, register, binds)?;
    let holdings = holdings_left(
        alloc, view, config, scene.doc, &made.sets, &item, fifo, quantity, amount,
    )?;
    let made = noted(item, made)?;
    let holdings = holdings.as_slice();
    write_off_from(
        alloc, config, scene, register, binds, quantity, wanted, amount, holdings, made,
    )
}

// A write-off from holdings.
#[tactic(auto, unfolding(crate::specs::ActParts::written_from))]
fn write_off_from(
    alloc: Global,
    config: &Config,
    scene: &Scene,
    register: u8,
    binds: &[Bind],
    quantity: u8,
    wanted: &Sum,
    amount: u8,
    holdings: &[Holding],
    made: Made,
) -> Tried<Made>
    requires scene { IsSmallScene (scene_view scene.now) }
    requires small { AreSmallHoldings holdings.now }
    ensures { Tries result (written_from config.now (scene_view scene.now) register binds.now
        quantity wanted.now amount holdings.now made) }
{
    let wanted = scene.sum(wanted)?;
    let takes = write_off(alloc, scene, wanted, holdings)?;
    let takes = takes.as_slice();
    written_off(
        alloc, config, scene, register, binds, quantity, amount, made, takes,
    )
}

// A requirement: so much is left, or the code is told.
fn require<B: Balances>(
    alloc: Global,
    view: &B,
    config: &Config,
    scene: &Scene,
    register: u8,
    binds: &[Bind],
    resource: u8,
    least: &Sum,
    code: Code,
    made: Made,
) -> Tried<Made>
    requires reads { CanRead config.now (B.books view.now) (B.resources view.now) }
    requires scene { IsSmallScene (scene_view scene.now) }
    requires sets { All IsSmallSet made.sets.registers }
    ensures { Tries result (act_run config.now (B.books view.now) (scene_view scene.now)
        (Require register binds.now resource least.now code) made) }
{
    let item = read_item(alloc, config, scene, register, binds)?;
    let left = sum_left(alloc, view, config, scene.doc, &made.sets, &item, resource)?;
    let made = noted(item, made)?;
    required(scene, least, code, left, made)
}

// A requirement where so much is left.
#[tactic(auto, unfolding(crate::specs::ActParts::required_of))]
fn required(scene: &Scene, least: &Sum, code: Code, left: i128, made: Made) -> Tried<Made>
    requires { IsSmallScene (scene_view scene.now) }
    ensures { Tries result (required_of (scene_view scene.now) least.now code left made) }
{
    let least = scene.sum(least)?;
    if i128::from(least) > left {
        return Err(broken(scene, code));
    }
    Ok(made)
}

// The fault of a requirement that does not hold.
fn broken(scene: &Scene, code: Code) -> YieldFault
    ensures { result ≡ Refused (Broken scene.now.rule scene.now.line code) }
{
    Fault::Refused(PostFault::Broken {
        rule: scene.rule,
        line: scene.line,
        code,
    })
}

// A control, behind the others.
#[tactic(auto, unfolding(post_model::specs::Yields::act_on))]
fn control(register: u8, resource: u8, made: Made) -> Tried<Made>
    ensures { (config : Config) (scene : SceneOf)
        → Tries result (act_on config scene (Control register resource) [] made) }
{
    let made = controlled(register, resource, made)?;
    Ok(made)
}

fn controlled(register: u8, resource: u8, mut made: Made) -> Result<Made, Memory>
    ensures { IfOk result (λ new. new
        ≡ record made { controls = made.controls ++ (register, resource) ∷ [] }) }
{
    made.controls.push((register, resource))?;
    Ok(made)
}

// A read, noted behind the others.
fn noted(item: Item, mut made: Made) -> Result<Made, Memory>
    ensures { IfOk result (λ new. new ≡ noted_in (Some item) made) }
{
    made.reads.push(item)?;
    Ok(made)
}

// An entry.
#[tactic(auto, unfolding(post_model::specs::Yields::act_on))]
fn enter(
    alloc: Global,
    config: &Config,
    scene: &Scene,
    ledger: u8,
    debit: &Option<Place>,
    credit: &Option<Place>,
    amount: &Sum,
    made: Made,
) -> Tried<Made>
    requires { IsSmallScene (scene_view scene.now) }
    ensures { Tries result (act_on config.now (scene_view scene.now)
        (Entry ledger debit.now credit.now amount.now) [] made) }
{
    let amount = scene.sum(amount)?;
    let debit = side_of(alloc, scene, debit)?;
    let credit = side_of(alloc, scene, credit)?;
    entry_made(alloc, config, scene, ledger, debit, credit, amount, made)
}
