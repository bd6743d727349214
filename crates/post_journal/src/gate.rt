//! The four calls that put bytes behind a gate byte and open it.
ghost use Rattle.std.specs.Prelude.{◌≡◌, ◌+◌, ◌<◌, ◌^◌, length, OnOk};
ghost use Rattle.std.specs.Option.{option_map};
ghost use Rattle.reg_io.specs.Counts.{HasCause};
ghost use Rattle.reg_io.specs.Disks.{IsSure, LiesWithin, put_at};
ghost use Rattle.post_journal.specs.Images.{with_gate};
ghost use Rattle.post_journal.specs.Gates.{HasGate, IsBehindGate, IsTornPut};
ghost use Rattle.post_journal.specs.Journals.{ShowsOnly};

use reg_io::{Disk, Failed};

// Puts the bytes behind a gate byte, and opens it once they are sure: a crash before leaves a
// closed gate, behind which anything may stand.
pub(crate) fn open_behind<D: Disk>(disk: &mut D, place: u64, behind: &[u8]) -> Result<(), Failed>
    requires place { place < 2 ^ 31 }
    requires gate { HasGate place (D.state disk.old) }
    requires sure { IsSure (D.state disk.old) }
    ensures ok { OnOk result ((D.state disk.new).content
        ≡ option_map (with_gate place 1 behind.now) (D.state disk.old).content) }
    ensures sure { OnOk result (IsSure (D.state disk.new)) }
    ensures shows { ShowsOnly (D.state disk.old) (D.state disk.new)
        (IsBehindGate place behind.now (D.state disk.old).content) }
    ensures cause { HasCause (D.faults disk.old) (D.faults disk.new) result }
    ensures same { D.borrow_name disk.new ≡ D.borrow_name disk.old }
{
    put_sure(disk, place + 1, behind)?;
    put_sure(disk, place, &[1])
}

// Writes, and makes sure what was written.
pub(crate) fn put_sure<D: Disk>(disk: &mut D, place: u64, bytes: &[u8]) -> Result<(), Failed>
    requires within { LiesWithin place (D.state disk.old) }
    requires sure { IsSure (D.state disk.old) }
    ensures ok { OnOk result ((D.state disk.new).content
        ≡ option_map (put_at place bytes.now) (D.state disk.old).content) }
    ensures sure { OnOk result (IsSure (D.state disk.new)) }
    ensures shows { ShowsOnly (D.state disk.old) (D.state disk.new)
        (IsTornPut place (length bytes.now) (D.state disk.old).content) }
    ensures cause { HasCause (D.faults disk.old) (D.faults disk.new) result }
    ensures same { D.borrow_name disk.new ≡ D.borrow_name disk.old }
{
    disk.write_at(place, bytes)?;
    disk.sync()
}
