//! Balances of registers, as posting asks for them.
ghost use Rattle.std.specs.Prelude.{◌≡◌, ℕ, List, Some, IfOk};
ghost use Rattle.reg_base.specs.Records.{Booked, without_recorder};
ghost use Rattle.reg_base.specs.Balances.{balance_of};

use reg_base::{Cut, Filter, List, Memory, SumRow};
use std::alloc::Global;

/// The records of registers, asked for by their sums.
pub trait Balances {
    /// The records of each register, and how many resources it has.
    ghost books: { Self → ℕ → List Booked };

    ghost resources: { Self → ℕ → ℕ };

    /// The balance of a register without the records of one document: a row per group.
    fn sums(
        &self,
        alloc: Global,
        register: u8,
        filter: &Filter,
        group: &[u8],
        cut: &Cut,
        skip: u32,
    ) -> Result<List<SumRow>, Memory>
        ensures { IfOk result (λ rows. rows ≡ balance_of (resources self.now register)
            (without_recorder skip (books self.now register)) filter.now (Some group.now)
            cut.now) };
}
