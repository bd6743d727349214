//! The numbers of the records that are made.
ghost use Rattle.std.specs.Prelude.{◌≡◌, ℕ, ℤ, ◌==◌, pos, if◌then◌else◌, IfOk, Ok};
ghost use Rattle.std.specs.List.{range_with_len};
ghost use Rattle.post_model.specs.Scenes.{sum_value};
ghost use Rattle.post_model.specs.Makes.{number_for as number_for_in};
ghost use Rattle.post_model.specs.Makes.{numbers_for as numbers_for_in};
ghost use Rattle.post_model.specs.Makes.{taken_numbers as taken_numbers_of};
ghost use Rattle.post_rules.specs.Bounds.{IsSmallScene};
ghost use Rattle.post_rules.specs.SceneViews.{scene_view};
ghost use Rattle.reg_base.specs.Tries.{Tries};

use crate::fault::Tried;
use crate::scene::Scene;
use post_model::Holding;
use reg_base::{List, Memory};
use rule_lang::Sum;
use std::alloc::Global;

// The numbers for so many resources.
#[tactic(auto, using(crate::proofs::NumberLemmas::numbers))]
pub(crate) fn numbers_for(
    alloc: Global,
    scene: &Scene,
    sums: &[(u8, Sum)],
    resources: usize,
) -> Tried<List<i128>>
    requires { IsSmallScene (scene_view scene.now) }
    ensures { Tries result
        (numbers_for_in (scene_view scene.now) sums.now (range_with_len 0 resources)) }
{
    let mut numbers = Vec::new(alloc);
    'resources: for resource in 0..resources {
        let number = number_for(scene, sums, resource)?;
        numbers.push(number)?;
    }
    Ok(List::from_vec(numbers))
}

// The number for a resource: 0 where it is not named.
#[tactic(auto, unfolding(post_model::specs::Makes::number_for))]
fn number_for(scene: &Scene, sums: &[(u8, Sum)], resource: usize) -> Tried<i128>
    requires { IsSmallScene (scene_view scene.now) }
    ensures { Tries result (number_for_in (scene_view scene.now) sums.now resource) }
{
    'sums: for (named, sum) in sums {
        if usize::from(*named) == resource {
            return number_of(scene, sum);
        }
    }
    Ok(0)
}

// The number that a sum is, where it is one.
fn number_of(scene: &Scene, sum: &Sum) -> Tried<i128>
    requires { IsSmallScene (scene_view scene.now) }
    ensures { Tries result (sum_value (scene_view scene.now) sum.now) }
{
    let number = scene.sum(sum)?;
    Ok(i128::from(number))
}

// The numbers of what is taken: the quantity at one resource, the amount at another.
pub(crate) fn taken_numbers(
    alloc: Global,
    quantity: u8,
    amount: u8,
    take: &Holding,
    resources: usize,
) -> Result<List<i128>, Memory>
    ensures { IfOk result (λ numbers. numbers
        ≡ taken_numbers_of quantity amount take.now resources) }
{
    let mut numbers = Vec::new(alloc);
    'resources: for resource in 0..resources {
        numbers.push(taken_number(quantity, amount, take, resource))?;
    }
    Ok(List::from_vec(numbers))
}

// The number of what is taken at a resource.
fn taken_number(quantity: u8, amount: u8, take: &Holding, resource: usize) -> i128
    ensures { result ≡ (if resource == quantity then take.now.quantity
        else (if resource == amount then take.now.amount else pos 0)) }
{
    if resource == usize::from(quantity) {
        take.quantity
    } else if resource == usize::from(amount) {
        take.amount
    } else {
        0
    }
}
