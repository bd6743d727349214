//! Copies of the sides of entries.
ghost use Rattle.std.specs.Prelude.{◌≡◌, IfOk};

use reg_base::{List, Memory, Side};
use std::alloc::Global;

// The same side, where there is one.
pub(crate) fn copy_side(alloc: Global, side: &Option<Side>) -> Result<Option<Side>, Memory>
    ensures { IfOk result (λ copy. copy ≡ side.now) }
{
    let Some(side) = side else {
        return Ok(None);
    };
    let extras = List::from_slice(alloc, side.extras.as_slice())?;
    Ok(Some(Side {
        account: side.account,
        extras,
    }))
}
