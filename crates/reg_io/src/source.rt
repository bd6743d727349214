//! What bytes are read from.
ghost use Rattle.std.specs.Prelude.{◌≡◌};
ghost use Rattle.std.specs.Io.{ReadsAtMost};
ghost use Rattle.std.specs.Io.KnownBytes.{ReadConsumes};
ghost use Rattle.reg_io.specs.Counts.{HasCause, LeavesSide};

use crate::device::{Device, Failed};

/// Where bytes come from.
pub trait Source: Device {
    /// Puts the next bytes into the front of the room, as many as it answers, and takes them
    /// away. 0 for a room that is not empty is the end.
    fn read(&mut self, into: &mut [u8]) -> Result<usize, Failed>
        ensures bound { ReadsAtMost result into.new }
        ensures bytes { ReadConsumes (Self.left self.old) (Self.left self.new) result into.new }
        ensures cause { HasCause (Self.read_faults self.old) (Self.read_faults self.new) result }

        // A read moves nothing of what the same object may be written.
        ensures others { LeavesSide (Self.taken self.old) (Self.taken self.new)
            (Self.write_faults self.old) (Self.write_faults self.new) }
        ensures same { Self.borrow_name self.new ≡ Self.borrow_name self.old };
}

impl<S: Source> Source for &mut S {
    fn read(&mut self, into: &mut [u8]) -> Result<usize, Failed> {
        (**self).read(into)
    }
}
