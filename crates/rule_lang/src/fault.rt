//! Why rules are refused.
ghost use Rattle.std.specs.Prelude.{◌≡◌, IfOk, string_bytes};
ghost use Rattle.rule_lang.specs.FaultTexts.{rule_fault_text, words};
ghost use Rattle.reg_base.specs.Numbers.{number_text};
ghost use Rattle.rule_lang.specs.Least.{why_number, lesser as lesser_of};
ghost use Rattle.rule_lang.specs.declared.fault.RuleFault.TheVariants.{Memory as WantOfMemory};

use reg_base::{Memory, Name, sum_string};
use std::alloc::{AllocError, AllocFailed, Global};

/// The first fault of the rules of a configuration.
#[derive(Clone, Copy, Debug)]
pub enum RuleFault {
    /// The document type, the place in its text in bytes from 0, and the reason.
    Wrong {
        kind: Name,
        place: usize,
        why: RuleWhy,
    },
    /// The allocator had no room.
    Memory,
}

impl RuleFault {
    /// The text that a user reads: type, place and number of the reason, as `fill 35 1`.
    #[tactic(auto, unfolding(crate::specs::FaultTexts::rule_fault_text))]
    pub fn text(&self, alloc: Global) -> Result<String, Memory>
        ensures { IfOk result (λ t. string_bytes t ≡ rule_fault_text self.now) }
    {
        match self {
            RuleFault::Wrong { kind, place, why } => words_of(alloc, kind, *place, why.number()),
            RuleFault::Memory => Ok(String::from_str(alloc, "memory")?),
        }
    }
}

fn words_of(alloc: Global, kind: &Name, place: usize, number: u8) -> Result<String, Memory>
    ensures { IfOk result (λ t. string_bytes t ≡ words kind.now place number) }
{
    let place = decimal(alloc, place as u64)?;
    let number = decimal(alloc, u64::from(number))?;
    Ok(format!(in alloc; "{kind} {place} {number}")?)
}

// A whole number is a sum at scale 0.
#[tactic(auto, unfolding(reg_base::specs::Numbers::sum_text, reg_base::specs::Numbers::units_text))]
fn decimal(alloc: Global, number: u64) -> Result<String, Memory>
    ensures { IfOk result (λ t. string_bytes t ≡ number_text number) }
{
    sum_string(alloc, i128::from(number), 0)
}

/// Why a statement is refused.
#[derive(Clone, Copy, PartialEq, Eq, Debug)]
pub enum RuleWhy {
    /// The token or byte at the place can't follow.
    Syntax,
    /// There is no such register, ledger, resource, dimension or field.
    UnknownName,
    /// A dimension has no value.
    Unbound,
    /// A dimension or a resource stands twice.
    TwiceBound,
    /// A code for a number, a number for a code, or a number of another scale.
    WrongType,
    /// A line's field outside lines, `cost` before any write-off, or a scope on `control`.
    WrongScope,
    /// The register is not of the kind that the verb asks for.
    WrongRegister,
    /// More statements than a text may have.
    TooMany,
    /// The order of documents in a sequence would not keep what the statement reads.
    SequenceUnbound,
}

impl RuleWhy {
    /// The number of the reason, from 1.
    #[tactic(auto, unfolding(crate::specs::Least::why_number))]
    pub fn number(self) -> u8
        ensures { result ≡ why_number self }
    {
        match self {
            RuleWhy::Syntax => 1,
            RuleWhy::UnknownName => 2,
            RuleWhy::Unbound => 3,
            RuleWhy::TwiceBound => 4,
            RuleWhy::WrongType => 5,
            RuleWhy::WrongScope => 6,
            RuleWhy::WrongRegister => 7,
            RuleWhy::TooMany => 8,
            RuleWhy::SequenceUnbound => 9,
        }
    }

    // The reason of the lesser number.
    pub(crate) fn lesser(self, other: RuleWhy) -> RuleWhy
        ensures { result ≡ lesser_of self other }
    {
        if self.number() <= other.number() {
            self
        } else {
            other
        }
    }
}

impl From<AllocError> for RuleFault {
    ghost from_gives = { λ _ e. e ≡ WantOfMemory };

    fn from(_refused: AllocError) -> RuleFault {
        RuleFault::Memory
    }
}

impl From<Memory> for RuleFault {
    ghost from_gives = { λ _ e. e ≡ WantOfMemory };

    fn from(_refused: Memory) -> RuleFault {
        RuleFault::Memory
    }
}

impl<T: Drop> From<AllocFailed<T>> for RuleFault {
    ghost from_gives = { λ _ e. e ≡ WantOfMemory };

    fn from(_refused: AllocFailed<T>) -> RuleFault {
        RuleFault::Memory
    }
}
