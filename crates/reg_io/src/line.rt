//! How long a line may be, and why there is none.
ghost use Rattle.std.specs.Prelude.{◌≡◌, IfOk};
ghost use Rattle.reg_io.specs.declared.line.LineFault.TheVariants.{Memory};

use std::alloc::AllocError;

/// How many bytes a line may have without its line feed.
pub const MOST_LINE_BYTES: u64 = 1_048_576;

/// Why no line could be given.
#[derive(Clone, Copy, Debug, PartialEq, Eq)]
pub enum LineFault {
    /// A read failed.
    Read,
    /// The input has more bytes than may be taken.
    InputTooLong,
    /// Memory was refused.
    Memory,
}

impl From<AllocError> for LineFault {
    ghost from_gives = { λ _ e. e ≡ Memory };

    fn from(_refused: AllocError) -> LineFault {
        LineFault::Memory
    }
}
