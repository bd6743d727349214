//! Why a text is not read.
ghost use Rattle.std.specs.Prelude.{◌≡◌};
ghost use Rattle.rule_text.specs.declared.fault.ReadFault.TheVariants.{Memory as WantOfMemory};
ghost use Rattle.rule_text.specs.declared.fault.TextFault.TheVariants.{Memory as NoMemory};

use reg_base::Memory;
use std::alloc::{AllocError, AllocFailed};

// Where reading can't go on.
#[derive(Clone, Copy)]
pub(crate) enum ReadFault {
    /// The place of the token or byte that can't follow; none where the text ended.
    Stuck(Option<usize>),
    /// The allocator had no room.
    Memory,
}

impl From<AllocError> for ReadFault {
    ghost from_gives = { λ _ e. e ≡ WantOfMemory };

    fn from(_refused: AllocError) -> ReadFault {
        ReadFault::Memory
    }
}

impl From<Memory> for ReadFault {
    ghost from_gives = { λ _ e. e ≡ WantOfMemory };

    fn from(_refused: Memory) -> ReadFault {
        ReadFault::Memory
    }
}

impl<T: Drop> From<AllocFailed<T>> for ReadFault {
    ghost from_gives = { λ _ e. e ≡ WantOfMemory };

    fn from(_refused: AllocFailed<T>) -> ReadFault {
        ReadFault::Memory
    }
}

/// Why a text is no list of statements.
#[derive(Clone, Copy, Debug)]
pub enum TextFault {
    /// The place, in bytes from 0, of the first token or byte that can't follow; the length of
    /// the text where it ends too early.
    Syntax(usize),
    /// The allocator had no room.
    Memory,
}

impl From<Memory> for TextFault {
    ghost from_gives = { λ _ e. e ≡ NoMemory };

    fn from(_refused: Memory) -> TextFault {
        TextFault::Memory
    }
}
