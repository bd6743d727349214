//! What the program is asked, before the top call can be made.
ghost use Rattle.std.specs.Prelude.{◌≡◌, ◌⊎◌, [], IfErr, Err};
ghost use Rattle.std.specs.Process.{exit_status};
ghost use Rattle.desk_run.specs.Ends.{Complains};
ghost use Rattle.desk_run.specs.Statuses.{status_of};

use desk_run::{Fault, SetupFault, complain, end_status};
use reg_io::Sink;
use std::process::ExitCode;
use std::rt::Env;
use std::{env, io};

// The words behind the program's name. Words that are no text are none of the lists.
pub(crate) fn words_of<R: Env + AllocGlobal>(rt: &R) -> Result<Vec<String>, Fault>
    ensures { IfErr result (λ fault. (fault ≡ Fault.Setup SetupFault.Memory)
        ⊎ (fault ≡ Fault.Usage)) }
{
    let mut all = match env::args(rt) {
        Ok(all) => all,
        Err(e) if e.kind() == io::ErrorKind::OutOfMemory => return Err(Fault::Setup(
            SetupFault::Memory,
        )),
        Err(_) => return Err(Fault::Usage),
    };
    all.next();
    let mut words = Vec::new(rt.alloc());
    for word in all {
        if words.push(word).is_err() {
            return Err(Fault::Setup(SetupFault::Memory));
        }
    }
    Ok(words)
}

// Ends with the status of a fault, and its line.
pub(crate) fn refuse<E: Sink>(fault: Fault, err: &mut E) -> ExitCode
    ensures status { exit_status result ≡ status_of fault }
    ensures complains { Complains [] (Err fault) (E.taken err.old) (E.taken err.new)
        (E.write_faults err.old) (E.write_faults err.new) }
{
    let end = Err(fault);
    complain(&[], &end, err);
    ExitCode::from(end_status(&end))
}
