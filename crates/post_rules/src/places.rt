//! Registers by their places.
ghost use Rattle.std.specs.Prelude.{◌≡◌, ◌≤◌, length, slice_get, IfOk};
ghost use Rattle.cfg_model.specs.Limits.{IsWithinLimits};
ghost use Rattle.post_model.specs.Lefts.{dimensions_of as dimensions_at};
ghost use Rattle.post_model.specs.Yields.{width_of as width_at, depth_of as depth_at};
ghost use Rattle.post_model.specs.Yields.{lot_places as lot_places_of, told_apart as told_apart_by};

use cfg_model::{Config, Dimension};
use reg_base::{List, Memory};
use std::alloc::Global;

// The dimensions of a register, and none where it is not there.
pub(crate) fn dimensions_of(config: &Config, register: u8) -> &[Dimension]
    ensures { result.now ≡ dimensions_at (slice_get config.now.registers register) }
{
    match config.registers.get(usize::from(register)) {
        Some(found) => found.dimensions.as_slice(),
        None => &[],
    }
}

// How many dimensions a register has.
pub(crate) fn width_of(config: &Config, register: u8) -> usize
    ensures { result ≡ width_at config.now register }
{
    dimensions_of(config, register).len()
}

// How many resources a register has.
pub(crate) fn depth_of(config: &Config, register: u8) -> usize
    ensures { result ≡ depth_at config.now register }
{
    match config.registers.get(usize::from(register)) {
        Some(found) => found.resources.len(),
        None => 0,
    }
}

// The places of the dimensions of lots.
#[tactic(auto, unfolding(post_model::specs::Yields::lot_places))]
fn lot_places(alloc: Global, dimensions: &[Dimension]) -> Result<List<u8>, Memory>
    requires { length dimensions.now ≤ 8 }
    ensures { IfOk result (λ places. places ≡ lot_places_of 0 dimensions.now) }
{
    let mut places = Vec::new(alloc);
    let mut place = 0;
    'dimensions: for dimension in dimensions {
        if dimension.lot {
            places.push(place)?;
        }
        place += 1;
    }
    Ok(List::from_vec(places))
}

// How a write-off tells apart what is left: by lots, or not at all.
pub(crate) fn told_apart(
    alloc: Global,
    config: &Config,
    register: u8,
    fifo: bool,
) -> Result<List<u8>, Memory>
    requires { IsWithinLimits config.now }
    ensures { IfOk result (λ places. places ≡ told_apart_by config.now register fifo) }
{
    if !fifo {
        return Ok(List::new(alloc));
    }
    lot_places(alloc, dimensions_of(config, register))
}
