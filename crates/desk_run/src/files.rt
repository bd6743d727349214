//! The files that words name, read in their order, and the configuration of the first.
ghost use Rattle.std.specs.Prelude.{◌≡◌, ◌≤◌, IfOk};
ghost use Rattle.cfg_model.specs.Limits.{IsWithinLimits};
ghost use Rattle.desk_core.specs.Invariants.{AreFewStatements};
ghost use Rattle.desk_run.specs.Files.{shelf_of};
ghost use Rattle.desk_run.specs.Setups.{Accepts, ReadsJob, ReadsNamed, SetsUp};
ghost use Rattle.desk_run.specs.WordViews.{call_view, task_view};

use crate::fault::{NamedFile, SetupFault};
use crate::words::{Call, Task};
use cfg_model::Config;
use reg_io::{Shelf, ShelfFault};
use rule_lang::{Rules, places_are_resolved};
use std::alloc::Global;

/// How many bytes a configuration file has at the most.
pub const MOST_CONFIG_BYTES: u64 = 1_048_576;

/// How many bytes a file of documents has at the most.
pub const MOST_IMPORT_BYTES: u64 = 67_108_864;

/// What a call is asked to do, with the file that it names read.
#[derive(Drop)]
pub enum Job<'a> {
    /// To answer the lines of the input.
    Run,
    /// To count what the journal holds.
    Check,
    /// To report on the documents, a ledger or a register over a range of dates.
    Report {
        name: &'a str,
        from: &'a str,
        to: &'a str,
    },
    /// To post the documents of these bytes.
    Import {
        bytes: Vec<u8>,
    },
}

// Reads the files of a call, the configuration first, and then accepts the configuration.
pub(crate) fn set_up<'a, F: Shelf>(
    alloc: Global,
    call: Call<'a>,
    shelf: &mut F,
) -> Result<(Job<'a>, Config, Rules), SetupFault>
    ensures sets_up { SetsUp (call_view call.entry)
        (shelf_of F.files F.faults shelf.old)
        (shelf_of F.files F.faults shelf.new) result }
    ensures limits { IfOk result (λ found. IsWithinLimits found.1) }
    ensures statements { IfOk result (λ found. AreFewStatements found.2) }
{
    let Call { config, task } = call;
    let bytes = read_named(
        alloc,
        shelf,
        NamedFile::Configuration,
        config,
        MOST_CONFIG_BYTES,
    )?;
    let job = read_job(alloc, task, shelf)?;
    let (config, rules) = accept(alloc, bytes.as_slice())?;
    Ok((job, config, rules))
}

// What is asked, with its file.
fn read_job<'a, F: Shelf>(
    alloc: Global,
    task: Task<'a>,
    shelf: &mut F,
) -> Result<Job<'a>, SetupFault>
    ensures { ReadsJob (task_view task.entry)
        (shelf_of F.files F.faults shelf.old)
        (shelf_of F.files F.faults shelf.new) result }
{
    match task {
        Task::Run => Ok(Job::Run),
        Task::Check => Ok(Job::Check),
        Task::Report { name, from, to } => Ok(Job::Report { name, from, to }),
        Task::Import { file } => {
            let bytes = read_named(alloc, shelf, NamedFile::Documents, file, MOST_IMPORT_BYTES)?;
            Ok(Job::Import { bytes })
        }
    }
}

// The bytes of the file of a name, which stands in this place among the words.
fn read_named<F: Shelf>(
    alloc: Global,
    shelf: &mut F,
    place: NamedFile,
    name: &str,
    most: u64,
) -> Result<Vec<u8>, SetupFault>
    ensures reads { ReadsNamed place name.now most
        (shelf_of F.files F.faults shelf.old)
        (shelf_of F.files F.faults shelf.new) result }
    ensures stays { F.files shelf.new ≡ F.files shelf.old }
    ensures later { F.faults shelf.old ≤ F.faults shelf.new }
{
    match shelf.read_file(alloc, name, most) {
        Ok(bytes) => Ok(bytes),
        Err(ShelfFault::Failed) => Err(SetupFault::Failed { file: place }),
        Err(ShelfFault::TooLong) => Err(SetupFault::TooLong),
        Err(ShelfFault::Memory) => Err(SetupFault::Memory),
    }
}

// The configuration of a file's bytes, with its rules.
fn accept(alloc: Global, bytes: &[u8]) -> Result<(Config, Rules), SetupFault>
    ensures accepts { Accepts bytes.now result }
    ensures limits { IfOk result (λ found. IsWithinLimits found.0) }
    ensures statements { IfOk result (λ found. AreFewStatements found.1) }
{
    let config = Config::read(alloc, bytes)?;
    let rules = Rules::read(alloc, &config)?;
    places_are_resolved();
    Ok((config, rules))
}
