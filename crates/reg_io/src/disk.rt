//! What a journal is kept on.
ghost use Rattle.std.specs.Prelude.{◌≡◌, ◌+◌, ◌≤◌, ℕ, IfOk, IfSome, OnOk, length, take, drop};
ghost use Rattle.std.specs.Prelude.{is_ok};
ghost use Rattle.std.specs.Prelude.{if◌then◌else◌};
ghost use Rattle.std.specs.Option.{is_some, option_map};
ghost use Rattle.reg_io.specs.Counts.{HasCause};
ghost use Rattle.reg_io.specs.Disks.{
  After,
  CutBack,
  DiskState,
  IsSure,
  LiesWithin,
  LeavesOnly,
  MayLeave,
  NoneIsLater,
  Stays,
  Torn,
  put_at,
};

use crate::device::Failed;

/// One file that is read and written at any place.
pub trait Disk {
    // What it shows. A moment is told by the number of syncs that had succeeded.
    ghost state: { Self → DiskState };

    ghost none_is_later: { (disk : Self) → NoneIsLater (state disk) };

    // How many calls failed. It never falls.
    ghost faults: { Self → ℕ };

    // The name of the borrow where this is a reference, and 0 for a disk itself.
    ghost borrow_name: { Self → ℕ } = { λ _. 0 };

    /// How long the file is.
    fn len(&mut self) -> Result<u64, Failed>
        ensures value { IfOk result (λ len.
            IfSome (state self.old).content (λ bytes. len ≡ length bytes)) }
        ensures stays { Stays (state self.old) (state self.new) }
        ensures cause { HasCause (faults self.old) (faults self.new) result }
        ensures same { borrow_name self.new ≡ borrow_name self.old };

    /// Fills the room with the bytes from this place on.
    fn read(&mut self, place: u64, into: &mut [u8]) -> Result<(), Failed>
        requires { LiesWithin (place + length into.old) (state self.old) }
        ensures bytes { OnOk result (IfSome (state self.old).content
            (λ bytes. into.new ≡ take (length into.old) (drop place bytes))) }
        ensures stays { Stays (state self.old) (state self.new) }
        ensures cause { HasCause (faults self.old) (faults self.new) result }
        ensures same { borrow_name self.new ≡ borrow_name self.old };

    /// Puts the bytes at this place, over what is there and behind the end. Until the next sync
    /// that succeeds, a crash may leave anything there, also where the call failed.
    fn write_at(&mut self, place: u64, bytes: &[u8]) -> Result<(), Failed>
        requires { LiesWithin place (state self.old) }
        ensures written { OnOk result ((state self.new).content
            ≡ option_map (put_at place bytes.now) (state self.old).content) }
        ensures told { is_some (state self.new).content ≡ is_some (state self.old).content }
        ensures shown { IfSome (state self.new).content (MayLeave (state self.new)) }
        ensures leaves { LeavesOnly (state self.old) (state self.new)
            (After (Torn place (length bytes.now)) (state self.old)) }
        ensures syncs { (state self.new).syncs ≡ (state self.old).syncs }
        ensures cause { HasCause (faults self.old) (faults self.new) result }
        ensures same { borrow_name self.new ≡ borrow_name self.old };

    /// Takes away all bytes from this length on. Until the next sync that succeeds, a crash may
    /// leave some of them.
    fn cut(&mut self, len: u64) -> Result<(), Failed>
        requires { LiesWithin len (state self.old) }
        ensures shortened { OnOk result ((state self.new).content
            ≡ option_map (take len) (state self.old).content) }
        ensures told { is_some (state self.new).content ≡ is_some (state self.old).content }
        ensures shown { IfSome (state self.new).content (MayLeave (state self.new)) }
        ensures leaves { LeavesOnly (state self.old) (state self.new)
            (After (CutBack len) (state self.old)) }
        ensures syncs { (state self.new).syncs ≡ (state self.old).syncs }
        ensures cause { HasCause (faults self.old) (faults self.new) result }
        ensures same { borrow_name self.new ≡ borrow_name self.old };

    /// Makes what was written stay. Where it succeeds, a crash leaves what a read gives.
    fn sync(&mut self) -> Result<(), Failed>
        ensures content { (state self.new).content ≡ (state self.old).content }
        ensures sure { OnOk result (IsSure (state self.new)) }
        ensures leaves { LeavesOnly (state self.old) (state self.new)
            (λ image. (state self.new).content ≡ Some image) }
        ensures later { (state self.old).syncs ≤ (state self.new).syncs }
        ensures syncs { IfSome (state self.old).content (λ _. (state self.new).syncs
            ≡ (if is_ok result then (state self.old).syncs + 1 else (state self.old).syncs)) }
        ensures cause { HasCause (faults self.old) (faults self.new) result }
        ensures same { borrow_name self.new ≡ borrow_name self.old };
}

impl<D: Disk> Disk for &mut D {
    ghost state = { λ d. D.state d.now };

    ghost none_is_later = { λ d. D.none_is_later d.now };

    ghost faults = { λ d. D.faults d.now };

    ghost borrow_name = { λ d. d.ghost_name };

    fn len(&mut self) -> Result<u64, Failed> {
        (**self).len()
    }

    fn read(&mut self, place: u64, into: &mut [u8]) -> Result<(), Failed> {
        (**self).read(place, into)
    }

    fn write_at(&mut self, place: u64, bytes: &[u8]) -> Result<(), Failed> {
        (**self).write_at(place, bytes)
    }

    fn cut(&mut self, len: u64) -> Result<(), Failed> {
        (**self).cut(len)
    }

    fn sync(&mut self) -> Result<(), Failed> {
        (**self).sync()
    }
}
