//! How many rows a table may have.
ghost use Rattle.std.specs.Prelude.{◌≡◌, ◌+◌, length};
ghost use Rattle.reg_base.specs.declared.tried.Fault.TheVariants.{Refused as IsRefused};
ghost use Rattle.reg_base.specs.declared.fault.TableFault.TheVariants.{TooManyRows as IsTooMany};
ghost use Rattle.reg_base.specs.Turnovers.{row_limit};
ghost use Rattle.reg_base.specs.Tries.{Tries};
ghost use Rattle.virt_tables.specs.Limits.{room_for, limited};

use reg_base::{Fault, List, ROW_LIMIT, TableFault};

/// Rows, where they are no more than a table may have.
pub(crate) fn limit_rows<R: Drop>(rows: List<R>) -> Result<List<R>, Fault<TableFault>>
    ensures { Tries result (limited rows) }
{
    if rows.len() > ROW_LIMIT as usize {
        return Err(too_many());
    }
    Ok(rows)
}

/// Refuses one row more than a table may have.
pub(crate) fn check_room<R>(rows: &List<R>) -> Result<(), Fault<TableFault>>
    ensures { Tries result (room_for (length rows.now + 1)) }
{
    if rows.len() >= ROW_LIMIT as usize {
        return Err(too_many());
    }
    Ok(())
}

// A table has more rows than it may have.
fn too_many() -> Fault<TableFault>
    ensures { result ≡ IsRefused (IsTooMany row_limit) }
{
    Fault::Refused(TableFault::TooManyRows { limit: ROW_LIMIT })
}
