//! What a call makes, unless it is refused for a reason or memory is wanted.
use crate::Memory;
use std::alloc::AllocFailed;

/// Why a call makes nothing. (It is generic in the reason so that the checker knows that type at
/// each `?`.)
#[derive(Drop)]
pub enum Fault<R> {
    /// It is refused.
    Refused(R),
    /// Out of memory, which says nothing of what was to be made.
    Memory,
}

impl<R: Drop> From<Memory> for Fault<R> {
    ghost use Rattle.std.specs.Prelude.{◌≡◌};
    ghost use Rattle.reg_base.specs.declared.tried.Fault.TheVariants as FaultIs;

    ghost from_gives = { λ _ e. e ≡ FaultIs.Memory };

    fn from(_refused: Memory) -> Fault<R> {
        Fault::Memory
    }
}

impl<R: Drop, T: Drop> From<AllocFailed<T>> for Fault<R> {
    ghost use Rattle.std.specs.Prelude.{◌≡◌};
    ghost use Rattle.reg_base.specs.declared.tried.Fault.TheVariants as FaultIs;

    ghost from_gives = { λ _ e. e ≡ FaultIs.Memory };

    fn from(_refused: AllocFailed<T>) -> Fault<R> {
        Fault::Memory
    }
}
