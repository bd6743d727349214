//! Why a top call did not end well: a fault for each of its parts, and the status of each.
ghost use Rattle.std.specs.Prelude.{◌≡◌};
ghost use Rattle.desk_run.specs.Statuses.{status_of, end_status as status_of_end};
ghost use Rattle.desk_run.specs.Statuses.{setup_status, opening_status, job_status};
ghost use Rattle.desk_run.specs.Statuses.{config_fault, rules_fault, open_fault, replay_fault};
ghost use Rattle.desk_run.specs.Statuses.{run_fault, text_fault, row_fault, step_fault};
ghost use Rattle.desk_run.specs.declared.fault.Fault.TheVariants as FaultIs;
ghost use Rattle.desk_run.specs.declared.fault.JobFault.TheVariants as JobFaultIs;
ghost use Rattle.desk_run.specs.declared.fault.TextFault.TheVariants as TextFaultIs;

use crate::run::RunEnd;
use cfg_model::CfgFault;
use csv_groups::{RowFault, RowWhy};
use desk_core::{ReplayFault, StepEnd};
use post_journal::OpenFault;
use reg_base::Memory;
use reg_io::SinkFault;
use rule_lang::RuleFault;

/// Why a top call did not end well.
#[derive(Debug, Drop)]
pub enum Fault {
    /// The words ask for nothing that is built.
    Usage,
    /// A file was not read, or the configuration is refused.
    Setup(SetupFault),
    /// The journal does not open.
    Opening(OpeningFault),
    /// What is asked was not done to its end.
    Job(JobFault),
}

/// A file that words name.
#[derive(Clone, Copy, Debug, PartialEq, Eq)]
pub enum NamedFile {
    /// The second word.
    Configuration,
    /// The third word.
    Documents,
}

/// Why a desk was not set up.
#[derive(Debug, Drop)]
pub enum SetupFault {
    /// A file could not be read.
    Failed { file: NamedFile },
    /// A file has too many bytes.
    TooLong,
    /// The configuration is refused.
    Configuration { fault: CfgFault },
    /// The rules of a document type are refused.
    Rules { fault: RuleFault },
    /// Memory was refused.
    Memory,
}

/// Why a journal does not open.
#[derive(Clone, Copy, Debug, PartialEq, Eq)]
pub enum OpeningFault {
    /// Its file is no journal.
    NotAJournal,
    /// It has at this place an entry that is not whole.
    BadEntry { place: u64 },
    /// Its entry of this index, from 1, can't be replayed.
    Entry { index: u32 },
    /// A call of the disk failed.
    Disk,
    /// Memory was refused.
    Memory,
}

/// Why what is asked was not done to its end.
#[derive(Debug, Drop)]
pub enum JobFault {
    /// The row of this number, from 1, of a file of documents is refused.
    Row { row: u32, why: RowWhy },
    /// The one request that the words make is refused: the line of its reply.
    Refused { line: Vec<u8> },
    /// The input has too many bytes.
    InputTooLong,
    /// A read of the input failed.
    Read,
    /// A write to the output failed.
    Write,
    /// A call of the disk failed.
    Disk,
    /// Memory was refused.
    Memory,
}

/// Why a text was not written.
#[derive(Clone, Copy, Debug, PartialEq, Eq)]
pub enum TextFault {
    /// A write to the output failed.
    Write,
    /// Memory was refused.
    Memory,
}

impl Fault {
    /// The status that the program ends with.
    pub fn status(&self) -> u8
        ensures { result ≡ status_of self.now }
    {
        match self {
            Fault::Usage => 2,
            Fault::Setup(fault) => fault.status(),
            Fault::Opening(fault) => fault.status(),
            Fault::Job(fault) => fault.status(),
        }
    }
}

impl SetupFault {
    // The status of a desk that was not set up.
    fn status(&self) -> u8
        ensures { result ≡ setup_status self.now }
    {
        match self {
            SetupFault::Failed { .. } => 9,
            SetupFault::TooLong => 11,
            SetupFault::Configuration { .. } => 3,
            SetupFault::Rules { .. } => 3,
            SetupFault::Memory => 4,
        }
    }
}

impl OpeningFault {
    // The status of a journal that does not open.
    fn status(&self) -> u8
        ensures { result ≡ opening_status self.now }
    {
        match self {
            OpeningFault::NotAJournal => 5,
            OpeningFault::BadEntry { .. } => 5,
            OpeningFault::Entry { .. } => 5,
            OpeningFault::Disk => 6,
            OpeningFault::Memory => 4,
        }
    }
}

impl JobFault {
    // The status of what was not done to its end.
    fn status(&self) -> u8
        ensures { result ≡ job_status self.now }
    {
        match self {
            JobFault::Row { .. } => 10,
            JobFault::Refused { .. } => 12,
            JobFault::InputTooLong => 11,
            JobFault::Read => 7,
            JobFault::Write => 8,
            JobFault::Disk => 6,
            JobFault::Memory => 4,
        }
    }
}

/// The status of an end, 0 where it is good.
pub fn end_status(end: &Result<(), Fault>) -> u8
    ensures { result ≡ status_of_end end.now }
{
    match end {
        Ok(()) => 0,
        Err(fault) => fault.status(),
    }
}

// ---- of which part a fault is

impl From<SetupFault> for Fault {
    ghost from_gives = { λ fault e. e ≡ FaultIs.Setup fault };

    fn from(fault: SetupFault) -> Fault {
        Fault::Setup(fault)
    }
}

impl From<OpenFault> for Fault {
    ghost from_gives = { λ fault e. e ≡ FaultIs.Opening (open_fault fault) };

    fn from(fault: OpenFault) -> Fault {
        Fault::Opening(match fault {
            OpenFault::NotAJournal => OpeningFault::NotAJournal,
            OpenFault::BadEntry { place } => OpeningFault::BadEntry { place },
            OpenFault::DiskFault => OpeningFault::Disk,
            OpenFault::Memory => OpeningFault::Memory,
        })
    }
}

impl From<ReplayFault> for Fault {
    ghost from_gives = { λ fault e. e ≡ FaultIs.Opening (replay_fault fault) };

    fn from(fault: ReplayFault) -> Fault {
        Fault::Opening(match fault {
            ReplayFault::Unreplayable { index } => OpeningFault::Entry { index },
            ReplayFault::Memory => OpeningFault::Memory,
        })
    }
}

impl From<RunEnd> for Fault {
    ghost from_gives = { λ end e. e ≡ FaultIs.Job (run_fault end) };

    fn from(end: RunEnd) -> Fault {
        Fault::Job(match end {
            RunEnd::Memory => JobFault::Memory,
            RunEnd::Disk => JobFault::Disk,
            RunEnd::Read => JobFault::Read,
            RunEnd::Write => JobFault::Write,
            RunEnd::InputTooLong => JobFault::InputTooLong,
        })
    }
}

impl From<TextFault> for Fault {
    ghost from_gives = { λ fault e. e ≡ FaultIs.Job (text_fault fault) };

    fn from(fault: TextFault) -> Fault {
        Fault::Job(JobFault::from(fault))
    }
}

impl From<JobFault> for Fault {
    ghost from_gives = { λ fault e. e ≡ FaultIs.Job fault };

    fn from(fault: JobFault) -> Fault {
        Fault::Job(fault)
    }
}

// ---- of a configuration

impl From<CfgFault> for SetupFault {
    ghost from_gives = { λ fault e. e ≡ config_fault fault };

    fn from(fault: CfgFault) -> SetupFault {
        match fault {
            CfgFault::Memory => SetupFault::Memory,
            fault => SetupFault::Configuration { fault },
        }
    }
}

impl From<RuleFault> for SetupFault {
    ghost from_gives = { λ fault e. e ≡ rules_fault fault };

    fn from(fault: RuleFault) -> SetupFault {
        match fault {
            RuleFault::Memory => SetupFault::Memory,
            fault => SetupFault::Rules { fault },
        }
    }
}

// ---- of what is asked

impl From<TextFault> for JobFault {
    ghost from_gives = { λ fault e. e ≡ text_fault fault };

    fn from(fault: TextFault) -> JobFault {
        match fault {
            TextFault::Write => JobFault::Write,
            TextFault::Memory => JobFault::Memory,
        }
    }
}

impl From<RowFault> for JobFault {
    ghost from_gives = { λ fault e. e ≡ row_fault fault };

    fn from(fault: RowFault) -> JobFault {
        match fault {
            RowFault::Refused { row, why } => JobFault::Row { row, why },
            RowFault::Memory => JobFault::Memory,
        }
    }
}

impl From<StepEnd> for JobFault {
    ghost from_gives = { λ end e. e ≡ step_fault end };

    fn from(end: StepEnd) -> JobFault {
        match end {
            StepEnd::Memory => JobFault::Memory,
            StepEnd::DiskFault => JobFault::Disk,
            StepEnd::Closed => JobFault::Disk,
        }
    }
}

impl From<SinkFault> for JobFault {
    ghost from_gives = { λ _ e. e ≡ JobFaultIs.Write };

    fn from(_fault: SinkFault) -> JobFault {
        JobFault::Write
    }
}

impl From<Memory> for JobFault {
    ghost from_gives = { λ _ e. e ≡ JobFaultIs.Memory };

    fn from(_refused: Memory) -> JobFault {
        JobFault::Memory
    }
}

impl From<SinkFault> for TextFault {
    ghost from_gives = { λ _ e. e ≡ TextFaultIs.Write };

    fn from(_fault: SinkFault) -> TextFault {
        TextFault::Write
    }
}

impl From<Memory> for TextFault {
    ghost from_gives = { λ _ e. e ≡ TextFaultIs.Memory };

    fn from(_refused: Memory) -> TextFault {
        TextFault::Memory
    }
}
