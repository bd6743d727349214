//! What is taken from the lots in their order, or from all that is left.
ghost use Rattle.std.specs.Prelude.{◌≡◌, ◌≤◌, ◌<◌, ◌-ℤ◌, ◌<ℤ◌, ◌≤ℤ◌, pos, unsigned_abs, IfOk};
ghost use Rattle.std.specs.Int.{int_min};
ghost use Rattle.reg_base.specs.Numbers.{largest_units};
ghost use Rattle.post_model.specs.WriteOffs.{in_stock as in_stock_of, taken_from as taken_from_one};
ghost use Rattle.post_model.specs.WriteOffs.{all_in_stock as stock_of, taken as taken_from_all};
ghost use Rattle.post_model.specs.WriteOffs.{write_off as write_off_of, cost_of as cost_of_all};
ghost use Rattle.reg_base.specs.declared.fault.PostFault.TheVariants.{Negative, Shortage};
ghost use Rattle.reg_base.specs.declared.tried.Fault.TheVariants.{Refused};
ghost use Rattle.post_rules.specs.Bounds.{IsSmallHolding, AreSmallHoldings, largest_part};
ghost use Rattle.post_rules.specs.SceneViews.{scene_view};
ghost use Rattle.reg_base.specs.Tries.{Tries};

use crate::fault::{Tried, YieldFault};
use crate::scene::Scene;
use post_model::Holding;
use reg_base::{List, Memory, PostFault, share};
use std::alloc::Global;

// A write-off of a quantity: it is not below zero, and not more than there is.
#[tactic(auto, unfolding(post_model::specs::WriteOffs::write_off))]
pub(crate) fn write_off(
    alloc: Global,
    scene: &Scene,
    wanted: i64,
    holdings: &[Holding],
) -> Tried<List<Holding>>
    requires number { unsigned_abs wanted ≤ largest_units }
    requires small { AreSmallHoldings holdings.now }
    ensures value { Tries result (write_off_of (scene_view scene.now) wanted holdings.now) }
    ensures small { IfOk result AreSmallHoldings }
{
    if wanted < 0 {
        return Err(negative(scene));
    }
    let stock = all_in_stock(holdings);
    if i128::from(wanted) > stock {
        return Err(shortage(scene, missing(wanted, stock)));
    }
    Ok(taken(alloc, wanted, holdings)?)
}

// The fault of a quantity below zero.
fn negative(scene: &Scene) -> YieldFault
    ensures { result ≡ Refused (Negative scene.now.rule scene.now.line) }
{
    YieldFault::Refused(PostFault::Negative {
        rule: scene.rule,
        line: scene.line,
    })
}

// The fault of a quantity that is more than there is.
fn shortage(scene: &Scene, missing: i64) -> YieldFault
    ensures { result ≡ Refused (Shortage scene.now.rule scene.now.line missing) }
{
    YieldFault::Refused(PostFault::Shortage {
        rule: scene.rule,
        line: scene.line,
        missing,
    })
}

// How much of what is wanted is not there.
fn missing(wanted: i64, stock: i128) -> i64
    requires least { pos 0 ≤ℤ stock }
    requires short { stock <ℤ wanted }
    ensures { result ≡ wanted -ℤ stock }
{
    (i128::from(wanted) - stock) as i64
}

// How much there is to take from a holding: nothing where its quantity is not above zero.
fn in_stock(holding: &Holding) -> i128
    ensures { result ≡ in_stock_of holding.now }
{
    if holding.quantity > 0 {
        holding.quantity
    } else {
        0
    }
}

// How much there is to take from all.
#[tactic(auto, unfolding(post_model::specs::WriteOffs::all_in_stock))]
fn all_in_stock(holdings: &[Holding]) -> i128
    requires { AreSmallHoldings holdings.now }
    ensures value { result ≡ stock_of holdings.now }
    ensures least { pos 0 ≤ℤ result }
{
    let mut stock = 0;
    'holdings: for holding in holdings {
        stock += in_stock(holding);
    }
    stock
}

// What is taken for a quantity from holdings in order: from each as much as there is, until the
// quantity is reached.
#[tactic(auto, unfolding(post_model::specs::WriteOffs::taken))]
fn taken(alloc: Global, wanted: i64, holdings: &[Holding]) -> Result<List<Holding>, Memory>
    requires above { pos 0 ≤ℤ wanted }
    requires number { unsigned_abs wanted ≤ largest_units }
    requires small { AreSmallHoldings holdings.now }
    ensures { IfOk result (λ takes. takes ≡ taken_from_all wanted holdings.now) }
{
    let mut takes = List::new(alloc);
    let mut rest = wanted;
    'holdings: for holding in holdings {
        let part = part_of(rest, in_stock(holding));
        if part > 0 {
            takes.push(taken_from(part, holding))?;
        }
        rest = less(rest, part);
    }
    Ok(takes)
}

// The lesser one of what is wanted and what there is.
fn part_of(wanted: i64, stock: i128) -> i64
    requires above { pos 0 ≤ℤ wanted }
    requires stock { pos 0 ≤ℤ stock }
    ensures value { result ≡ int_min wanted stock }
    ensures least { pos 0 ≤ℤ result }
    ensures most { result ≤ℤ wanted }
{
    if stock < i128::from(wanted) {
        stock as i64
    } else {
        wanted
    }
}

// What is wanted still.
fn less(rest: i64, part: i64) -> i64
    requires above { pos 0 ≤ℤ part }
    requires within { part ≤ℤ rest }
    ensures value { result ≡ rest -ℤ part }
    ensures least { pos 0 ≤ℤ result }
    ensures most { result ≤ℤ rest }
{
    rest - part
}

// What is taken from a holding, for its amount.
fn taken_from(quantity: i64, holding: &Holding) -> Holding
    requires above { pos 0 <ℤ quantity }
    requires within { quantity ≤ℤ holding.now.quantity }
    requires number { unsigned_abs quantity ≤ largest_units }
    requires small { IsSmallHolding holding.now }
    ensures { result ≡ taken_from_one quantity holding.now }
{
    let whole = i128::from(quantity) == holding.quantity;
    let amount = if whole {
        holding.amount
    } else {
        share(holding.amount, quantity, holding.quantity)
    };
    Holding {
        lot: holding.lot,
        quantity: i128::from(quantity),
        amount,
    }
}

// The amount of all that is taken.
#[tactic(auto, unfolding(post_model::specs::WriteOffs::cost_of))]
pub(crate) fn cost_of(takes: &[Holding]) -> i128
    requires { AreSmallHoldings takes.now }
    ensures value { result ≡ cost_of_all takes.now }
    ensures small { unsigned_abs result ≤ largest_part }
{
    let mut sum = 0;
    'takes: for take in takes {
        sum += take.amount;
    }
    sum
}
