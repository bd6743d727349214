//! What bytes are written to.
ghost use Rattle.std.specs.Prelude.{◌≡◌, ◌<◌, length, OnOk, OnErr, Ok};
ghost use Rattle.std.specs.Io.{WritesAtMost};
ghost use Rattle.std.specs.Io.KnownBytes.{Appends, WriteAppends};
ghost use Rattle.reg_io.specs.Counts.{AppendsPrefix, HasCause, LeavesSide, Rose};

use crate::device::{Device, Failed};

/// Where bytes go.
pub trait Sink: Device {
    /// Takes the first bytes of the piece, as many as it answers, behind those taken before.
    fn write(&mut self, bytes: &[u8]) -> Result<usize, Failed>
        ensures bound { WritesAtMost result bytes.now }
        ensures bytes { WriteAppends (Self.taken self.old) (Self.taken self.new) result bytes.now }
        ensures cause { HasCause (Self.write_faults self.old) (Self.write_faults self.new) result }

        // To take nothing of a piece that is not empty counts as a fault.
        ensures nothing { result ≡ Ok 0 → 0 < length bytes.now
            → Rose (Self.write_faults self.old) (Self.write_faults self.new) }

        // A write moves nothing of what the same object may be read for.
        ensures others { LeavesSide (Self.left self.old) (Self.left self.new)
            (Self.read_faults self.old) (Self.read_faults self.new) }
        ensures same { Self.borrow_name self.new ≡ Self.borrow_name self.old };
}

impl<K: Sink> Sink for &mut K {
    fn write(&mut self, bytes: &[u8]) -> Result<usize, Failed> {
        (**self).write(bytes)
    }
}

/// Why not all bytes were written.
#[derive(Clone, Copy, Debug, PartialEq, Eq)]
pub enum SinkFault {
    /// A write failed.
    Failed,
    /// A write took nothing of a piece that was not empty.
    TookNothing,
}

/// Writes all the bytes, in one write where the sink takes them so. It takes no memory.
pub fn write_all<K: Sink>(sink: &mut K, bytes: &[u8]) -> Result<(), SinkFault>
    ensures ok { OnOk result (Appends (K.taken sink.old) (K.taken sink.new) bytes.now) }
    ensures err { OnErr result (AppendsPrefix (K.taken sink.old) (K.taken sink.new) bytes.now) }
    ensures cause { HasCause (K.write_faults sink.old) (K.write_faults sink.new) result }
    ensures others { LeavesSide (K.left sink.old) (K.left sink.new)
        (K.read_faults sink.old) (K.read_faults sink.new) }
    ensures same { K.borrow_name sink.new ≡ K.borrow_name sink.old }
{
    let mut done = 0;
    while done < bytes.len() {
        match sink.write(&bytes[done..]) {
            Ok(0) => return Err(SinkFault::TookNothing),
            Ok(taken) => done += taken,
            Err(Failed) => return Err(SinkFault::Failed),
        }
    }
    Ok(())
}
