//! A report on what words name, from what the desk answers.
ghost use Rattle.std.specs.Prelude.{◌≡◌, ◌++◌, ◌∷◌, [], IfErr, IfOk};
ghost use Rattle.reg_base.specs.Tries.{TriesAs};
ghost use Rattle.desk_words.specs.ReplyTexts.{RefusalHasScales, reply_text};
ghost use Rattle.desk_words.specs.declared.reply.Reply.TheVariants as ReplyIs;
ghost use Rattle.desk_words.specs.declared.request.Request.{Request as RequestOf};
ghost use Rattle.desk_model.specs.Desk.{step as step_of};
ghost use Rattle.desk_reports.specs.Printable.{RepliesPrintable};
ghost use Rattle.desk_reports.specs.Reports.{report_of};
ghost use Rattle.desk_run.specs.Texts.{TellsReport, HasPrintedRefusal};

use crate::check::write_text;
use crate::fault::JobFault;
use desk_core::Desk;
use desk_plans::{PartFault, Tried};
use desk_reports::{report_request, report_text};
use desk_words::{Refusal, Reply};
use reg_base::Memory;
use reg_io::Sink;
use std::alloc::Global;

// Writes the report of a name over a range of dates, or says why there is none.
pub(crate) fn write_report<O: Sink>(
    alloc: Global,
    desk: &Desk,
    name: &str,
    from: &str,
    to: &str,
    out: &mut O,
) -> Result<(), JobFault>
    requires { (request : RequestOf) → RepliesPrintable (step_of desk.now.desk request).reply }
    ensures { TellsReport (report_of desk.now.desk
        (record { name = name.now; from = from.now; to = to.now }))
        (O.taken out.old) (O.taken out.new) (O.write_faults out.old) (O.write_faults out.new)
        result }
{
    match report_at(alloc, desk, name, from, to) {
        Ok(text) => {
            write_text(out, text.as_slice())?;
            Ok(())
        }
        Err(PartFault::Refused(refusal)) => Err(JobFault::Refused {
            line: refusal_line(alloc, refusal)?,
        }),
        Err(PartFault::Memory) => Err(JobFault::Memory),
    }
}

// The report that the desk's answer makes.
#[tactic(auto, unfolding(desk_reports::specs::Reports::report_of))]
fn report_at(alloc: Global, desk: &Desk, name: &str, from: &str, to: &str) -> Tried<Vec<u8>>
    requires { (request : RequestOf) → RepliesPrintable (step_of desk.now.desk request).reply }
    ensures value { TriesAs (λ text. text.items) result (report_of desk.now.desk
        (record { name = name.now; from = from.now; to = to.now })) }
    ensures printed { HasPrintedRefusal result }
{
    let request = match report_request(desk.config(), name, from, to) {
        Ok(request) => request,
        Err(refusal) => return Err(PartFault::Refused(refusal)),
    };
    match desk.look(alloc, &request)? {
        Reply::Done(answer) => Ok(report_text(alloc, desk.config(), name, &answer)?),
        Reply::Refused(refusal) => Err(PartFault::Refused(refusal)),
    }
}

// The line of the reply that a refusal is.
fn refusal_line(alloc: Global, refusal: Refusal) -> Result<Vec<u8>, Memory>
    requires { RefusalHasScales refusal }
    ensures { IfOk result
        (λ line. line.items ≡ reply_text (ReplyIs.Refused refusal) ++ 10 ∷ []) }
{
    let mut line = Vec::new(alloc);
    Reply::Refused(refusal).print(alloc, &mut line)?;
    line.push(b'\n')?;
    Ok(line)
}
