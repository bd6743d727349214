//! Disks in memory: one that fails only where it can't grow, and one whose calls fail by a list.
ghost use Rattle.std.specs.Prelude.{◌≡◌, ◌+◌, ◌-◌, ◌^◌, min, ◌≤◌, ◌++◌, [], ◌∷◌, Some, take};
ghost use Rattle.std.specs.Prelude.{length, vec_len, OnOk, OnErr, IfOk};
ghost use Rattle.reg_io.specs.DiskCalls.{history_of, disk_of};
ghost use Rattle.reg_io.specs.Counts.{Rose};
ghost use Rattle.reg_io.specs.Disks.{put_at};
ghost use Rattle.reg_io.specs.declared.disk_call.DiskCall.TheVariants.{Cut, Wrote};

use crate::device::Failed;
use crate::disk::Disk;
use crate::disk_call::DiskCall;
use crate::failing_calls::FailingCalls;
use reg_base::List;
use std::alloc::{AllocError, Global};

/// A file in memory with a record of its calls. Where memory is refused it can't grow, and that
/// call fails.
#[derive(Debug, Drop)]
pub struct MemoryDisk {
    pub bytes: Vec<u8>,
    pub faults: u64,
    pub(crate) alloc: Global,
    pub(crate) first: List<u8>,
    pub(crate) calls: Vec<DiskCall>,
    ghost recorded: { (history_of first calls.items).now.content ≡ bytes.items },
}

impl MemoryDisk {
    /// An empty file.
    pub fn new(alloc: Global) -> MemoryDisk
        ensures bytes { result.bytes.items ≡ [] }
        ensures faults { result.faults ≡ 0 }
    {
        MemoryDisk {
            bytes: Vec::new(alloc),
            faults: 0,
            alloc,
            first: List::new(alloc),
            calls: Vec::new(alloc),
        }
    }

    /// A file of these bytes, which a crash leaves.
    pub fn holding(alloc: Global, bytes: Vec<u8>) -> Result<MemoryDisk, AllocError>
        ensures bytes { IfOk result (λ disk. disk.bytes.items ≡ bytes.items) }
        ensures faults { IfOk result (λ disk. disk.faults ≡ 0) }
    {
        let first = List::from_slice(alloc, &bytes)?;
        Ok(MemoryDisk {
            bytes,
            faults: 0,
            alloc,
            first,
            calls: Vec::new(alloc),
        })
    }

    // Writes and keeps the call, or changes nothing.
    fn write(&mut self, place: usize, bytes: &[u8]) -> Result<(), AllocError>
        requires { place ≤ length self.old.bytes.items }
        ensures bytes { OnOk result (self.new.bytes.items
            ≡ put_at place bytes.now self.old.bytes.items) }
        ensures calls { OnOk result (self.new.calls.items
            ≡ self.old.calls.items ++ Wrote place bytes.now ∷ []) }
        ensures same_bytes { OnErr result (self.new.bytes.items ≡ self.old.bytes.items) }
        ensures same_calls { OnErr result (self.new.calls.items ≡ self.old.calls.items) }
        ensures first { self.new.first ≡ self.old.first }
        ensures faults { self.new.faults ≡ self.old.faults }
    {
        let copy = List::from_slice(self.alloc, bytes)?;
        let call = DiskCall::Wrote {
            place: place as u64,
            bytes: copy,
        };
        overwrite(&mut self.bytes, &mut self.calls, place, bytes, call)
    }

    // Cuts and keeps the call, or changes nothing.
    fn shorten(&mut self, len: u64) -> Result<(), AllocError>
        requires { len ≤ vec_len self.old.bytes }
        ensures bytes { OnOk result (self.new.bytes.items ≡ take len self.old.bytes.items) }
        ensures calls { OnOk result (self.new.calls.items
            ≡ self.old.calls.items ++ Cut len ∷ []) }
        ensures same_bytes { OnErr result (self.new.bytes.items ≡ self.old.bytes.items) }
        ensures same_calls { OnErr result (self.new.calls.items ≡ self.old.calls.items) }
        ensures first { self.new.first ≡ self.old.first }
        ensures faults { self.new.faults ≡ self.old.faults }
    {
        match self.calls.push(DiskCall::Cut { len }) {
            Ok(()) => {
                self.bytes.truncate(len as usize);
                Ok(())
            }
            Err(_) => Err(AllocError),
        }
    }

    // Keeps a call that changes no byte.
    fn keep(&mut self, call: DiskCall) -> Result<(), AllocError>
        requires { (history_of self.old.first (self.old.calls.items ++ call ∷ [])).now.content
            ≡ self.old.bytes.items }
        ensures calls { OnOk result (self.new.calls.items ≡ self.old.calls.items ++ call ∷ []) }
        ensures same_calls { OnErr result (self.new.calls.items ≡ self.old.calls.items) }
        ensures bytes { self.new.bytes.items ≡ self.old.bytes.items }
        ensures first { self.new.first ≡ self.old.first }
        ensures faults { self.new.faults ≡ self.old.faults }
    {
        match self.calls.push(call) {
            Ok(()) => Ok(()),
            Err(_) => Err(AllocError),
        }
    }

    fn fail(&mut self) -> Failed
        ensures rose { Rose self.old.faults self.new.faults }
        ensures later { self.old.faults ≤ self.new.faults }
        ensures bytes { self.new.bytes ≡ self.old.bytes }
        ensures first { self.new.first ≡ self.old.first }
        ensures calls { self.new.calls ≡ self.old.calls }
    {
        self.faults = self.faults.saturating_add(1);
        Failed
    }
}

// Puts the bytes over what is there and behind the end, and keeps the call, or changes nothing.
fn overwrite(
    file: &mut Vec<u8>,
    calls: &mut Vec<DiskCall>,
    place: usize,
    bytes: &[u8],
    call: DiskCall,
) -> Result<(), AllocError>
    requires { place ≤ vec_len file.old }
    ensures bytes { OnOk result (file.new.items ≡ put_at place bytes.now file.old.items) }
    ensures calls { OnOk result (calls.new.items ≡ calls.old.items ++ call ∷ []) }
    ensures same_bytes { OnErr result (file.new.items ≡ file.old.items) }
    ensures same_calls { OnErr result (calls.new.items ≡ calls.old.items) }
{
    let len = file.len();
    let over = bytes.len().min(len - place);
    file.extend_from_slice(&bytes[over..])?;
    if calls.push(call).is_err() {
        file.truncate(len);
        return Err(AllocError);
    }
    file[place..place + over].copy_from_slice(&bytes[..over]);
    Ok(())
}

impl Disk for MemoryDisk {
    ghost state = { λ d. disk_of d.bytes.items (history_of d.first d.calls.items) };

    ghost none_is_later = { λ d k image left. left.0 };

    ghost faults = { λ d. d.faults };

    fn len(&mut self) -> Result<u64, Failed> {
        Ok(self.bytes.len() as u64)
    }

    fn read(&mut self, place: u64, into: &mut [u8]) -> Result<(), Failed> {
        let place = place as usize;
        into.copy_from_slice(&self.bytes[place..place + into.len()]);
        Ok(())
    }

    fn write_at(&mut self, place: u64, bytes: &[u8]) -> Result<(), Failed> {
        match self.write(place as usize, bytes) {
            Ok(()) => Ok(()),
            Err(_) => Err(self.fail()),
        }
    }

    fn cut(&mut self, len: u64) -> Result<(), Failed> {
        match self.shorten(len) {
            Ok(()) => Ok(()),
            Err(_) => Err(self.fail()),
        }
    }

    fn sync(&mut self) -> Result<(), Failed> {
        match self.keep(DiskCall::Synced) {
            Ok(()) => Ok(()),
            Err(_) => Err(self.fail()),
        }
    }
}

/// The same with calls that fail, each of which counts as a fault.
#[derive(Debug, Drop)]
pub struct FailingDisk {
    pub disk: MemoryDisk,
    pub failing: FailingCalls,
}

impl FailingDisk {
    pub fn new(disk: MemoryDisk, failing: FailingCalls) -> FailingDisk
        ensures disk { result.disk ≡ disk }
        ensures failing { result.failing ≡ failing }
    {
        FailingDisk { disk, failing }
    }
}

impl Disk for FailingDisk {
    ghost state = { λ d. disk_of d.disk.bytes.items (history_of d.disk.first d.disk.calls.items) };

    ghost none_is_later = { λ d k image left. left.0 };

    ghost faults = { λ d. d.disk.faults };

    fn len(&mut self) -> Result<u64, Failed> {
        if self.failing.next_fails() {
            return Err(self.disk.fail());
        }
        self.disk.len()
    }

    fn read(&mut self, place: u64, into: &mut [u8]) -> Result<(), Failed> {
        if self.failing.next_fails() {
            return Err(self.disk.fail());
        }
        self.disk.read(place, into)
    }

    fn write_at(&mut self, place: u64, bytes: &[u8]) -> Result<(), Failed> {
        if self.failing.next_fails() {
            let count = bytes.len() as u64;
            let _ = self.disk.keep(DiskCall::FailedWrite { place, count });
            return Err(self.disk.fail());
        }
        self.disk.write_at(place, bytes)
    }

    fn cut(&mut self, len: u64) -> Result<(), Failed> {
        if self.failing.next_fails() {
            let _ = self.disk.keep(DiskCall::FailedCut { len });
            return Err(self.disk.fail());
        }
        self.disk.cut(len)
    }

    fn sync(&mut self) -> Result<(), Failed> {
        if self.failing.next_fails() {
            return Err(self.disk.fail());
        }
        self.disk.sync()
    }
}
