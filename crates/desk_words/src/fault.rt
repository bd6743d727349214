//! Why a line is no request.
ghost use Rattle.std.specs.Prelude.{◌≡◌};
ghost use Rattle.desk_words.specs.Members.{member_name};
ghost use Rattle.desk_words.specs.ReplyWords.{word_fault_number};

use reg_base::{Memory, Text};
use std::alloc::{AllocError, AllocFailed};

/// A member of a request, as a fault names it.
#[derive(Clone, Copy)]
pub enum Member {
    Op,
    Clerk,
    No,
    Doc,
    Key,
    Kind,
    Date,
    Head,
    Lines,
    On,
    Sets,
    Comment,
    Register,
    Cut,
    Filter,
    Group,
    From,
    To,
    By,
    Method,
    Ledger,
    Account,
    Extras,
}

impl Member {
    /// The member's word in a request.
    pub fn name(self) -> &'static str
        ensures { result.now ≡ member_name self }
    {
        match self {
            Member::Op => "op",
            Member::Clerk => "clerk",
            Member::No => "no",
            Member::Doc => "doc",
            Member::Key => "key",
            Member::Kind => "kind",
            Member::Date => "date",
            Member::Head => "head",
            Member::Lines => "lines",
            Member::On => "on",
            Member::Sets => "sets",
            Member::Comment => "comment",
            Member::Register => "register",
            Member::Cut => "cut",
            Member::Filter => "filter",
            Member::Group => "group",
            Member::From => "from",
            Member::To => "to",
            Member::By => "by",
            Member::Method => "method",
            Member::Ledger => "ledger",
            Member::Account => "account",
            Member::Extras => "extras",
        }
    }
}

/// Why a line is no request: the first of these that holds.
#[derive(Drop)]
pub enum WordFault {
    /// The line is longer than a request may be; its length in bytes.
    TooLong { bytes: u64 },
    NotJson,
    NotObject,
    /// The operation is none of those that there are.
    UnknownOp,
    /// The first member that the operation asks for and the line lacks.
    Missing { member: Member },
    /// The least member, by bytes, that the operation does not have.
    UnknownMember { name: Text },
    /// The first member, in the order of the operation's members, that is not of its shape. A key
    /// beside a document's number is not, since a document keeps its key: so a number out of its
    /// range is told before such a key, and a type that is no name behind it. Content without a
    /// type is not either, where a document is to be posted.
    BadMember { member: Member },
    /// Want of memory, which says nothing of the line.
    Memory,
}

impl WordFault {
    /// The number of the fault; want of memory is none and is never told.
    pub fn number(&self) -> u64
        ensures { result ≡ word_fault_number self.now }
    {
        match self {
            WordFault::TooLong { .. } => 1,
            WordFault::NotJson => 2,
            WordFault::NotObject => 3,
            WordFault::UnknownOp => 4,
            WordFault::Missing { .. } => 5,
            WordFault::UnknownMember { .. } => 6,
            WordFault::BadMember { .. } => 7,
            WordFault::Memory => 0,
        }
    }
}

impl From<AllocError> for WordFault {
    ghost use Rattle.std.specs.Prelude.{◌≡◌};
    ghost use Rattle.desk_words.specs.declared.fault.WordFault.TheVariants.{Memory};

    ghost from_gives = { λ _ e. e ≡ Memory };

    fn from(_refused: AllocError) -> WordFault {
        WordFault::Memory
    }
}

impl<T: Drop> From<AllocFailed<T>> for WordFault {
    ghost use Rattle.std.specs.Prelude.{◌≡◌};
    ghost use Rattle.desk_words.specs.declared.fault.WordFault.TheVariants.{Memory};

    ghost from_gives = { λ _ e. e ≡ Memory };

    fn from(_refused: AllocFailed<T>) -> WordFault {
        WordFault::Memory
    }
}

impl From<Memory> for WordFault {
    ghost use Rattle.std.specs.Prelude.{◌≡◌};
    ghost use Rattle.desk_words.specs.declared.fault.WordFault.TheVariants.{Memory};

    ghost from_gives = { λ _ e. e ≡ Memory };

    fn from(_wanted: Memory) -> WordFault {
        WordFault::Memory
    }
}
