//! What a part of a statement is resolved to, unless it is wrong or memory is wanted.
use crate::RuleWhy;
use reg_base::Memory;
use std::alloc::AllocFailed;

// Why a part of a statement is not resolved.
#[derive(Drop)]
pub(crate) enum StatementFault {
    Wrong(RuleWhy),
    /// Out of memory, which says nothing of the statement.
    Memory,
}

pub(crate) type Tried<X> = Result<X, StatementFault>;

impl From<RuleWhy> for StatementFault {
    ghost use Rattle.std.specs.Prelude.{◌≡◌};
    ghost use Rattle.rule_lang.specs.declared.tried.StatementFault.TheVariants as StatementFaultIs;

    ghost from_gives = { λ why e. e ≡ StatementFaultIs.Wrong why };

    fn from(why: RuleWhy) -> StatementFault {
        StatementFault::Wrong(why)
    }
}

impl From<Memory> for StatementFault {
    ghost use Rattle.std.specs.Prelude.{◌≡◌};
    ghost use Rattle.rule_lang.specs.declared.tried.StatementFault.TheVariants as StatementFaultIs;

    ghost from_gives = { λ _ e. e ≡ StatementFaultIs.Memory };

    fn from(_refused: Memory) -> StatementFault {
        StatementFault::Memory
    }
}

impl<T: Drop> From<AllocFailed<T>> for StatementFault {
    ghost use Rattle.std.specs.Prelude.{◌≡◌};
    ghost use Rattle.rule_lang.specs.declared.tried.StatementFault.TheVariants as StatementFaultIs;

    ghost from_gives = { λ _ e. e ≡ StatementFaultIs.Memory };

    fn from(_refused: AllocFailed<T>) -> StatementFault {
        StatementFault::Memory
    }
}
