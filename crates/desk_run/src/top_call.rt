//! The top call: what the words ask, on the objects that are handed in.
ghost use Rattle.std.specs.Prelude.{◌≡◌, ◌↔◌, None, map, string_bytes};
ghost use Rattle.cfg_model.specs.Limits.{IsWithinLimits};
ghost use Rattle.desk_model.specs.State.{Setting};
ghost use Rattle.desk_core.specs.Invariants.{AreFewStatements};
ghost use Rattle.desk_run.specs.Files.{shelf_of};
ghost use Rattle.desk_run.specs.Ends.{Ends, EndsUnder, Finishes, LeavesDisk};
ghost use Rattle.desk_run.specs.Promises.{HoldsConfig, IsComplete, KeepsLaws, KeepsOrder};
ghost use Rattle.desk_run.specs.Runs.{streams_of};
ghost use Rattle.desk_run.specs.WordViews.{job_view};
ghost use Rattle.desk_run.specs.Words.{Call as CallOf, call_of as call_of_words};

use crate::check::write_counts;
use crate::complaint::complain;
use crate::fault::{Fault, end_status};
use crate::files::{Job, set_up};
use crate::import::import_documents;
use crate::report::write_report;
use crate::run::run_lines;
use crate::words::call_of;
use cfg_model::Config;
use desk_core::Desk;
use desk_history::numbers_rise_over_entries;
use desk_reports::reports_can_be_printed;
use post_journal::Journal;
use reg_io::{Disk, Shelf, Sink, Source};
use rule_lang::Rules;
use std::alloc::Global;
use std::thread::Threads;

/// How a top call ended, with the disk handed back.
#[derive(Drop)]
pub struct Finish<D> {
    /// 0, or the number of the fault.
    pub status: u8,
    pub disk: D,
}

/// Does what the words ask. With a status above 0 its line goes to `err`, whose faults change
/// nothing.
pub fn desk_main<R: Threads + Sync, F: Shelf, D: Disk + Send, S: Source, O: Sink, E: Sink>(
    rt: &R,
    alloc: Global,
    words: &[String],
    shelf: &mut F,
    mut disk: D,
    input: &mut S,
    out: &mut O,
    err: &mut E,
) -> Finish<D>
    ensures ends { Finishes (map (λ w. string_bytes w) words.now)
        (shelf_of F.files F.faults shelf.old)
        (shelf_of F.files F.faults shelf.new)
        (streams_of S.left S.read_faults O.taken O.write_faults input.old out.old)
        (streams_of S.left S.read_faults O.taken O.write_faults input.new out.new)
        D.state D.faults disk result.disk
        (E.taken err.old) (E.taken err.new) (E.write_faults err.old) (E.write_faults err.new)
        result.status }

    // Wrong words alone end with 2.
    ensures words { (result.status ≡ 2) ↔ (call_of_words (map (λ w. string_bytes w) words.now)
        ≡ None) }

    // Where nothing stands in the way, what is asked is done to its end.
    ensures whole { IsComplete (map (λ w. string_bytes w) words.now)
        (shelf_of F.files F.faults shelf.old)
        (shelf_of F.files F.faults shelf.new)
        (streams_of S.left S.read_faults O.taken O.write_faults input.old out.old)
        (streams_of S.left S.read_faults O.taken O.write_faults input.new out.new)
        (D.state disk) (D.faults disk) (D.faults result.disk) result.status }

    // Of the lines that were answered under the file's configuration: each accepted balance is the
    // sum over the records at its place; the numbers of each clerk's requests rise; a repeated
    // request changes nothing, and is given the same reply while it is its clerk's last.
    ensures laws { (call : CallOf) (setting : Setting)
        → HoldsConfig (map (λ w. string_bytes w) words.now)
        (shelf_of F.files F.faults shelf.old) call setting
        → KeepsLaws call.task setting (D.state disk).content
        (streams_of S.left S.read_faults O.taken O.write_faults input.old out.old)
        (streams_of S.left S.read_faults O.taken O.write_faults input.new out.new) }

    // Over all entries of the journal, those of earlier calls and those of this one, the numbers of
    // each clerk's requests rise: so no request is in it twice.
    ensures history { (call : CallOf) (setting : Setting)
        → HoldsConfig (map (λ w. string_bytes w) words.now)
        (shelf_of F.files F.faults shelf.old) call setting
        → KeepsOrder setting (D.state disk) (D.state result.disk) }
{
    let _ = rt;
    let end = run_words(alloc, words, shelf, &mut disk, input, out);
    complain(words, &end, err);
    numbers_rise_over_entries();
    Finish {
        status: end_status(&end),
        disk,
    }
}

fn run_words<F: Shelf, D: Disk, S: Source, O: Sink>(
    alloc: Global,
    words: &[String],
    shelf: &mut F,
    disk: &mut D,
    input: &mut S,
    out: &mut O,
) -> Result<(), Fault>
    ensures ends { Ends (map (λ w. string_bytes w) words.now)
        (shelf_of F.files F.faults shelf.old)
        (shelf_of F.files F.faults shelf.new)
        (streams_of S.left S.read_faults O.taken O.write_faults input.old out.old)
        (streams_of S.left S.read_faults O.taken O.write_faults input.new out.new)
        (D.state disk.old) (D.state disk.new) (D.faults disk.old) (D.faults disk.new) result }
    ensures untouched { LeavesDisk result disk.old disk.new }
{
    let Some(call) = call_of(words) else {
        return Err(Fault::Usage);
    };
    let (job, config, rules) = set_up(alloc, call, shelf)?;
    do_job(alloc, job, config, rules, disk, input, out)
}

// Does what is asked at the desk that the journal's entries open.
fn do_job<D: Disk, S: Source, O: Sink>(
    alloc: Global,
    job: Job<'_>,
    config: Config,
    rules: Rules,
    disk: &mut D,
    input: &mut S,
    out: &mut O,
) -> Result<(), Fault>
    requires limits { IsWithinLimits config }
    requires statements { AreFewStatements rules }
    ensures ends { EndsUnder (job_view job.entry) (record { config = config; rules = rules })
        (streams_of S.left S.read_faults O.taken O.write_faults input.old out.old)
        (streams_of S.left S.read_faults O.taken O.write_faults input.new out.new)
        (D.state disk.old) (D.state disk.new) (D.faults disk.old) (D.faults disk.new) result }
{
    let (mut journal, entries) = Journal::open(alloc, disk)?;
    let mut desk = Desk::open(alloc, config, rules, entries.as_slice())?;
    reports_can_be_printed();
    match job {
        Job::Run => {
            run_lines(alloc, &mut desk, &mut journal, disk, input, out)?;
            Ok(())
        }
        Job::Check => {
            write_counts(alloc, &desk, entries.len(), out)?;
            Ok(())
        }
        Job::Report { name, from, to } => {
            write_report(alloc, &desk, name, from, to, out)?;
            Ok(())
        }
        Job::Import { bytes } => {
            import_documents(alloc, &mut desk, &mut journal, disk, bytes.as_slice(), out)?;
            Ok(())
        }
    }
}
