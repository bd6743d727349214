//! The values that a record is grouped by.
ghost use Rattle.std.specs.Prelude.{◌≡◌, Some, IfOk, slice_get};
ghost use Rattle.std.specs.Option.{option_copied};
ghost use Rattle.reg_base.specs.Balances.{group_values as values_of_group};

use reg_base::{Memory, Value};
use std::alloc::Global;

/// The values of the dimensions named.
pub fn group_values(
    alloc: Global,
    dimensions: &[u8],
    values: &[Value],
) -> Result<Vec<Value>, Memory>
    ensures { IfOk result (λ group. group.items
        ≡ values_of_group (Some dimensions.now) values.now) }
{
    let mut group = Vec::new(alloc);
    for dimension in dimensions {
        if let Some(value) = value_at(values, *dimension) {
            group.push(*value)?;
        }
    }
    Ok(group)
}

// The value of a dimension, where there is one.
fn value_at(values: &[Value], dimension: u8) -> Option<&Value>
    ensures { option_copied result ≡ slice_get values.now dimension }
{
    values.get(usize::from(dimension))
}
