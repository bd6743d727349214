//! What a crash leaves of a disk in memory: three of the files that it may.
//!
//! The record of its calls is replayed, since a call says what it wrote and where, while the bytes
//! of now do not tell which of them the last sync confirmed.
ghost use Rattle.std.specs.Prelude.{◌≡◌, ◌≤◌, ℕ, IfOk, OnOk, min, replicate, vec_len};
ghost use Rattle.reg_io.specs.Crashes.{Follows, crash_bytes};
ghost use Rattle.reg_io.specs.DiskCalls.{History, after_call, history_of, disk_of};
ghost use Rattle.reg_io.specs.Disks.{MayLeave, put_at};
ghost use Rattle.reg_io.specs.declared.disk_call.DiskCall.TheVariants.{FailedWrite, Synced, Wrote};

use crate::disk_call::DiskCall;
use crate::memory_disk::MemoryDisk;
use std::alloc::{AllocError, Global};

/// Which of the files that a crash may leave.
#[derive(Clone, Copy, Debug, PartialEq, Eq)]
pub enum CrashImage {
    /// What a read gives.
    AsRead,
    /// What the last sync that succeeded confirmed, and before the first one what the disk was
    /// made with.
    Confirmed,
    /// What a read gives, with 0x37 in each byte that was written since.
    Scrambled,
}

impl MemoryDisk {
    /// The bytes that a crash may leave now.
    pub fn after_crash(&self, image: CrashImage) -> Result<Vec<u8>, AllocError>
        ensures value { IfOk result (λ bytes. bytes.items ≡ crash_bytes image
            (history_of self.now.first self.now.calls.items).now) }
        ensures left { IfOk result (λ bytes. MayLeave (disk_of self.now.bytes.items
            (history_of self.now.first self.now.calls.items)) bytes.items) }
    {
        let replay = replayed(self.alloc, self.first.as_slice(), self.calls.as_slice())?;
        Ok(replay.into_image(image))
    }
}

/// What the calls of a disk come to so far. Of each byte that the file may have stands here the
/// one that is sure, or 0x37.
#[derive(Drop)]
struct Replay {
    confirmed: Vec<u8>,
    content: Vec<u8>,
    scrambled: Vec<u8>,
}

impl Replay {
    fn into_image(self, image: CrashImage) -> Vec<u8>
        ensures { (h : History) → Follows self h → result.items ≡ crash_bytes image h.now }
    {
        let Replay {
            confirmed,
            content,
            mut scrambled,
        } = self;
        match image {
            CrashImage::AsRead => content,
            CrashImage::Confirmed => confirmed,
            CrashImage::Scrambled => {
                scrambled.truncate(content.len());
                scrambled
            }
        }
    }

    fn follow(&mut self, alloc: Global, call: &DiskCall) -> Result<(), AllocError>
        ensures { OnOk result ((h : History) → Follows self.old h
            → Follows self.new (after_call call.now h)) }
    {
        match call {
            DiskCall::Wrote { place, bytes } => self.write(alloc, *place, bytes.as_slice()),
            DiskCall::FailedWrite { place, count } => self.fail_write(alloc, *place, *count),
            DiskCall::Cut { len } => {
                self.content.truncate(*len as usize);
                Ok(())
            }
            DiskCall::FailedCut { .. } => Ok(()),
            DiskCall::Synced => self.confirm(alloc),
        }
    }

    fn write(&mut self, alloc: Global, place: u64, bytes: &[u8]) -> Result<(), AllocError>
        ensures { OnOk result ((h : History) → Follows self.old h
            → Follows self.new (after_call (Wrote place bytes.now) h)) }
    {
        let place = (place as usize).min(self.content.len());
        scramble(alloc, &mut self.scrambled, place, bytes.len())?;
        put(&mut self.content, place, bytes)
    }

    fn fail_write(&mut self, alloc: Global, place: u64, count: u64) -> Result<(), AllocError>
        ensures { OnOk result ((h : History) → Follows self.old h
            → Follows self.new (after_call (FailedWrite place count) h)) }
    {
        let place = (place as usize).min(self.content.len());
        scramble(alloc, &mut self.scrambled, place, count as usize)
    }

    fn confirm(&mut self, alloc: Global) -> Result<(), AllocError>
        ensures { OnOk result ((h : History) → Follows self.old h
            → Follows self.new (after_call Synced h)) }
    {
        let confirmed = Vec::from_slice(alloc, &self.content)?;
        let scrambled = Vec::from_slice(alloc, &self.content)?;
        self.confirmed = confirmed;
        self.scrambled = scrambled;
        Ok(())
    }
}

// What all these calls come to.
fn replayed(alloc: Global, first: &[u8], calls: &[DiskCall]) -> Result<Replay, AllocError>
    ensures { IfOk result (λ replay. Follows replay (history_of first.now calls.now)) }
{
    let mut replay = Replay {
        confirmed: Vec::from_slice(alloc, first)?,
        content: Vec::from_slice(alloc, first)?,
        scrambled: Vec::from_slice(alloc, first)?,
    };
    for call in calls {
        replay.follow(alloc, call)?;
    }
    Ok(replay)
}

// Puts 0x37 over so many bytes and behind the end.
fn scramble(alloc: Global, file: &mut Vec<u8>, place: usize, count: usize) -> Result<(), AllocError>
    ensures { OnOk result (file.new.items ≡ put_at (min place (vec_len file.old))
        (replicate count 0x37) file.old.items) }
{
    let blot = vec![in alloc; 0x37; count]?;
    let place = place.min(file.len());
    put(file, place, &blot)
}

// Puts the bytes over what is there and behind the end.
fn put(file: &mut Vec<u8>, place: usize, bytes: &[u8]) -> Result<(), AllocError>
    requires { place ≤ vec_len file.old }
    ensures { OnOk result (file.new.items ≡ put_at place bytes.now file.old.items) }
{
    let over = bytes.len().min(file.len() - place);
    file.extend_from_slice(&bytes[over..])?;
    file[place..place + over].copy_from_slice(&bytes[..over]);
    Ok(())
}
