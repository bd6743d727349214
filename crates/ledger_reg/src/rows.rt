//! The rows of a table, of which there are not too many.
ghost use Rattle.std.specs.Prelude.{◌≡◌, ◌∷◌, [], nat_le};
ghost use Rattle.reg_base.specs.Tries.{Tries};
ghost use Rattle.reg_base.specs.Results.{unless};
ghost use Rattle.reg_base.specs.declared.fault.TableFault.TheVariants.{BadRange};
ghost use Rattle.ledger_reg.specs.RowLists.{Puts};

use reg_base::{Fault, List, Range, TableFault};

// The most rows that a table may have.
const ROW_LIMIT: u32 = 100_000;

/// Puts a row behind the others, or says that there are too many.
pub(crate) fn put_row<R: Drop>(rows: &mut List<R>, row: R) -> Result<(), Fault<TableFault>>
    ensures { Puts result (row ∷ []) rows.old rows.new }
{
    if rows.len() >= ROW_LIMIT as usize {
        return Err(Fault::Refused(TableFault::TooManyRows { limit: ROW_LIMIT }));
    }
    match rows.push(row) {
        Ok(()) => Ok(()),
        Err(_) => Err(Fault::Memory),
    }
}

/// Refuses a range that begins behind its end.
pub(crate) fn check_range(range: &Range) -> Result<(), Fault<TableFault>>
    ensures { Tries result (unless (nat_le range.now.from range.now.to)
        (BadRange range.now.from range.now.to)) }
{
    if range.from <= range.to {
        return Ok(());
    }
    Err(Fault::Refused(TableFault::BadRange {
        from: range.from,
        to: range.to,
    }))
}
