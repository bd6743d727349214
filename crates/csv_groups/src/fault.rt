//! Why a file is refused: the first row with a fault, and its first fault.
ghost use Rattle.std.specs.Prelude.{◌≡◌};
ghost use Rattle.csv_groups.specs.Faults.{row_why_number, row_why_name};

use reg_base::{Memory, Text};
use std::alloc::{AllocError, AllocFailed};

/// What is wrong with a row: of several the first in this order.
#[derive(Debug, Drop)]
pub enum RowWhy {
    /// It has another number of cells than the header, or bytes that are no UTF-8.
    Shape,
    /// The header has a column that there is not, or has it twice: the first such one.
    UnknownColumn { column: Text },
    /// The header lacks a column that must be there: of `key`, `kind` and `date` the first.
    MissingColumn { column: Text },
    /// The cell of this column does not read: of several the first in the order of the file.
    BadValue { column: Text },
    /// Its key came before, with another key in between.
    Scattered,
    /// It differs in this column from the first row of its document: of several the first in the
    /// order of the file.
    HeadDiffers { column: Text },
}

impl RowWhy {
    /// The number of the fault, from 1.
    pub fn number(&self) -> u64
        ensures { result ≡ row_why_number self.now }
    {
        match self {
            RowWhy::Shape => 1,
            RowWhy::UnknownColumn { .. } => 2,
            RowWhy::MissingColumn { .. } => 3,
            RowWhy::BadValue { .. } => 4,
            RowWhy::Scattered => 5,
            RowWhy::HeadDiffers { .. } => 6,
        }
    }

    /// The name of the fault.
    pub fn name(&self) -> &'static str
        ensures { result.now ≡ row_why_name self.now }
    {
        match self {
            RowWhy::Shape => "Shape",
            RowWhy::UnknownColumn { .. } => "UnknownColumn",
            RowWhy::MissingColumn { .. } => "MissingColumn",
            RowWhy::BadValue { .. } => "BadValue",
            RowWhy::Scattered => "Scattered",
            RowWhy::HeadDiffers { .. } => "HeadDiffers",
        }
    }
}

/// Why a file gives no groups.
#[derive(Debug, Drop)]
pub enum RowFault {
    /// The first row that has a fault, counted from 1, which is the header, and its first fault.
    Refused { row: u32, why: RowWhy },
    /// Want of memory, which says nothing of the file.
    Memory,
}

impl From<AllocError> for RowFault {
    ghost use Rattle.std.specs.Prelude.{◌≡◌};
    ghost use Rattle.csv_groups.specs.declared.fault.RowFault.TheVariants.{Memory};

    ghost from_gives = { λ _ e. e ≡ Memory };

    fn from(_refused: AllocError) -> RowFault {
        RowFault::Memory
    }
}

impl<T: Drop> From<AllocFailed<T>> for RowFault {
    ghost use Rattle.std.specs.Prelude.{◌≡◌};
    ghost use Rattle.csv_groups.specs.declared.fault.RowFault.TheVariants.{Memory};

    ghost from_gives = { λ _ e. e ≡ Memory };

    fn from(_refused: AllocFailed<T>) -> RowFault {
        RowFault::Memory
    }
}

impl From<Memory> for RowFault {
    ghost use Rattle.std.specs.Prelude.{◌≡◌};
    ghost use Rattle.csv_groups.specs.declared.fault.RowFault.TheVariants.{Memory};

    ghost from_gives = { λ _ e. e ≡ Memory };

    fn from(_wanted: Memory) -> RowFault {
        RowFault::Memory
    }
}
