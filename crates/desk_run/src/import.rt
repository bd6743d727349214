//! The documents of a file, posted at the desk, with a line of each.
ghost use Rattle.std.specs.Prelude.{◌≡◌, ◌≤◌, false};
ghost use Rattle.csv_groups.specs.Files.{read_file};
ghost use Rattle.desk_core.specs.Histories.{Holds};
ghost use Rattle.desk_run.specs.Steps.{ImportsAt};

use crate::fault::JobFault;
use csv_groups::read_groups;
use csv_import::post_groups;
use desk_core::Desk;
use post_journal::Journal;
use reg_io::{Disk, Sink, write_all};
use std::alloc::Global;

// Posts the documents of a file's bytes, where no row is refused, and writes what became of each.
pub(crate) fn import_documents<D: Disk, O: Sink>(
    alloc: Global,
    desk: &mut Desk,
    journal: &mut Journal,
    disk: &mut D,
    bytes: &[u8],
    out: &mut O,
) -> Result<(), JobFault>
    requires going { desk.old.stopped ≡ false }
    requires holds { Holds desk.old.desk journal.old (D.state disk.old) }
    ensures imports { ImportsAt (read_file desk.old.desk.setting.config bytes.now) desk.old.desk
        (O.taken out.old) (O.taken out.new) (O.write_faults out.old) (O.write_faults out.new)
        (D.state disk.old) (D.state disk.new) (D.faults disk.old) (D.faults disk.new) result }
    ensures later { D.faults disk.old ≤ D.faults disk.new }
{
    let groups = read_groups(alloc, bytes, desk.config())?;
    let mut text = Vec::new(alloc);
    let posted = post_groups(alloc, desk, journal, disk, groups, &mut text);
    write_all(out, text.as_slice())?;
    posted?;
    Ok(())
}
