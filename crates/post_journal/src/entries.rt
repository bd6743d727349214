//! The entries of a journal, read one by one.
ghost use Rattle.std.specs.Prelude.{◌≡◌, ◌⊎◌, ℕ, List, ◌+◌, ◌-◌, ◌<◌, ◌≤◌, ◌^◌, Err, length, take};
ghost use Rattle.std.specs.Prelude.{drop, min, IfSome, IfOk, IfErr};
ghost use Rattle.reg_io.specs.Disks.{Stays};
ghost use Rattle.post_journal.specs.Images.{end_of_places, run_from};
ghost use Rattle.post_journal.specs.Openings.{EndsRun, FindsEntry, HasDiskCause, IsEntryAt};
ghost use Rattle.post_journal.specs.Openings.{RunIsLong};
ghost use Rattle.post_journal.specs.declared.fault.OpenFault.TheVariants.{DiskFault, Memory};

use crate::fault::OpenFault;
use crate::journal::Payload;
use reg_base::List;
use reg_io::Disk;
use std::alloc::Global;

/// How many bytes an entry has at the most.
const MOST_PAYLOAD: u32 = 16_777_216;

/// Gate bytes stand below this place.
const END_OF_PLACES: u64 = 2_147_483_648;

// The entries from the first one behind the title on, and the place of the gate byte that ends
// them.
pub(crate) fn read_run<D: Disk>(
    alloc: Global,
    disk: &mut D,
    len: u64,
) -> Result<(u64, List<Payload>), OpenFault>
    requires long { 22 < len }
    requires len { IfSome (D.state disk.old).content (λ bytes. len ≡ length bytes) }
    ensures run { IfSome (D.state disk.old).content
        (λ bytes. EndsRun (run_from (length bytes) 22 (drop 22 bytes)) result) }
    ensures long { IfOk result (λ read. RunIsLong read.1 read.0) }
    ensures stays { Stays (D.state disk.old) (D.state disk.new) }
    ensures cause { HasDiskCause (D.faults disk.old) (D.faults disk.new) result }
    ensures same { D.borrow_name disk.new ≡ D.borrow_name disk.old }
{
    let mut place = 22;
    let mut entries = List::new(alloc);
    'entries: while let Some(count) = next_entry(disk, place, len)? {
        let payload = read_payload(alloc, disk, place + 5, count as usize)?;
        entries.push(payload)?;
        place += 5 + count as u64;
    }
    Ok((place, entries))
}

// The length of the entry behind the gate byte at this place, if that gate is open.
fn next_entry<D: Disk>(disk: &mut D, place: u64, len: u64) -> Result<Option<u32>, OpenFault>
    requires within { place < len }
    requires low { place < 2 ^ 31 }
    requires len { IfSome (D.state disk.old).content (λ bytes. len ≡ length bytes) }
    ensures finds { IfSome (D.state disk.old).content
        (λ bytes. FindsEntry (drop place bytes) place result) }
    ensures long { IfOk result (λ found. IfSome found (IsEntryAt place len)) }
    ensures stays { Stays (D.state disk.old) (D.state disk.new) }
    ensures cause { HasDiskCause (D.faults disk.old) (D.faults disk.new) result }
    ensures same { D.borrow_name disk.new ≡ D.borrow_name disk.old }
{
    let mut head = [0; 5];
    let count = (len - place).min(5) as usize;
    disk.read(place, &mut head[..count])?;
    entry_by(head, place, len)
}

// What stands at the gate byte, by the five bytes from it on, of which those past the file's end
// may be anything.
fn entry_by(head: [u8; 5], place: u64, len: u64) -> Result<Option<u32>, OpenFault>
    requires within { place < len }
    requires low { place < 2 ^ 31 }
    ensures finds { (bytes : List ℕ) → length bytes ≡ len - place
        → take (min (len - place) 5) head ≡ take 5 bytes → FindsEntry bytes place result }
    ensures long { IfOk result (λ found. IfSome found (IsEntryAt place len)) }
    ensures disk { result ≡ Err DiskFault → ⊥ }
{
    let [gate, a, b, c, d] = head;
    if gate != 1 {
        return Ok(None);
    }
    let count = u32::from_be_bytes([a, b, c, d]);
    let size = 5 + count as u64;
    let fits = count >= 1 && count <= MOST_PAYLOAD;
    if fits && size < len - place && place + size < END_OF_PLACES {
        return Ok(Some(count));
    }
    Err(OpenFault::BadEntry { place })
}

// The bytes of an entry.
fn read_payload<D: Disk>(
    alloc: Global,
    disk: &mut D,
    place: u64,
    count: usize,
) -> Result<Payload, OpenFault>
    requires within { IfSome (D.state disk.old).content
        (λ bytes. place + count ≤ length bytes) }
    ensures bytes { IfOk result (λ payload. IfSome (D.state disk.old).content
        (λ bytes. payload.bytes ≡ take count (drop place bytes))) }
    ensures size { IfOk result (λ payload. length payload.bytes ≡ count) }
    ensures fault { IfErr result (λ e. (e ≡ DiskFault) ⊎ (e ≡ Memory)) }
    ensures stays { Stays (D.state disk.old) (D.state disk.new) }
    ensures cause { HasDiskCause (D.faults disk.old) (D.faults disk.new) result }
    ensures same { D.borrow_name disk.new ≡ D.borrow_name disk.old }
{
    let mut bytes = vec![in alloc; 0; count]?;
    disk.read(place, &mut bytes)?;
    Ok(Payload {
        bytes: List::from_vec(bytes),
    })
}
