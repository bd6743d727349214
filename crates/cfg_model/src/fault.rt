//! Why a configuration is refused.
ghost use Rattle.std.specs.Prelude.{◌≡◌, IfOk, string_bytes};
ghost use Rattle.cfg_model.specs.FaultTexts.{config_fault_text, count_text};
ghost use Rattle.cfg_model.specs.declared.fault.CfgFault.TheVariants.{Memory as WantOfMemory};

use reg_base::{Memory, Text, join_texts, string_of};
use std::alloc::{AllocError, AllocFailed, Global};

/// The first fault of a configuration file.
#[derive(Debug, Drop)]
pub enum CfgFault {
    /// The bytes are no UTF-8 or no TOML.
    NotToml,
    /// What stands at the path is missing or of a wrong shape.
    Field { path: Text },
    /// The name is taken.
    Twice { name: Text },
    /// There is no such key or name.
    Unknown { name: Text },
    /// So many stand at the path, and that is more than its limit.
    Count { what: Text, number: usize },
    /// The allocator had no room.
    Memory,
}

impl CfgFault {
    /// The text that a user reads: number, name and fields, as `2 Field register.stock.kind`.
    #[tactic(auto, unfolding(crate::specs::FaultTexts::config_fault_text))]
    pub fn text(&self, alloc: Global) -> Result<String, Memory>
        ensures { IfOk result (λ t. string_bytes t ≡ config_fault_text self.now) }
    {
        match self {
            CfgFault::NotToml => string_of(alloc, "1 NotToml"),
            CfgFault::Field { path } => join_texts(alloc, "2 Field ", path.as_str()),
            CfgFault::Twice { name } => join_texts(alloc, "3 Twice ", name.as_str()),
            CfgFault::Unknown { name } => join_texts(alloc, "4 Unknown ", name.as_str()),
            CfgFault::Count { what, number } => count_string(alloc, what.as_str(), *number),
            CfgFault::Memory => string_of(alloc, "0 Memory"),
        }
    }
}

fn count_string(alloc: Global, what: &str, number: usize) -> Result<String, Memory>
    ensures { IfOk result (λ t. string_bytes t ≡ count_text what.now number) }
{
    Ok(format!(in alloc; "5 Count {what} {number}")?)
}

impl From<AllocError> for CfgFault {
    ghost from_gives = { λ _ e. e ≡ WantOfMemory };

    fn from(_refused: AllocError) -> CfgFault {
        CfgFault::Memory
    }
}

impl<T: Drop> From<AllocFailed<T>> for CfgFault {
    ghost from_gives = { λ _ e. e ≡ WantOfMemory };

    fn from(_refused: AllocFailed<T>) -> CfgFault {
        CfgFault::Memory
    }
}
