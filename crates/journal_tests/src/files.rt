//! Files of journals, byte by byte.
use post_journal::{Journal, OpenFault};
use reg_io::MemoryDisk;
use std::alloc::{AllocError, Global};

/// A journal without entries.
pub(crate) const BEGUN: [u8; 23] = *b"\x01\x00\x00\x00\x11regdesk journal 1\x00";

/// An entry of 171 bytes.
pub(crate) const LINE: &[u8] = b"1 {\"clerk\":\"anna\",\"date\":\"2024-01-10T09:00:00\",\"no\":1,\
\"op\":\"manual\",\"sets\":[{\"records\":[{\"kind\":\"receipt\",\"sums\":[\"10.000\",\"50.00\"],\
\"values\":[\"nail\"]}],\"space\":\"goods\"}]}\n";

/// A journal with that entry, whose gate byte is this one.
pub(crate) fn one_entry(alloc: Global, gate: u8) -> Result<Vec<u8>, AllocError> {
    let mut bytes = Vec::from_slice(alloc, b"\x01\x00\x00\x00\x11regdesk journal 1")?;
    bytes.push(gate)?;
    bytes.extend_from_slice(&[0, 0, 0, 0xab])?;
    bytes.extend_from_slice(LINE)?;
    bytes.push(0)?;
    Ok(bytes)
}

/// How many entries a journal with these bytes is opened with.
pub(crate) fn entries_in(alloc: Global, bytes: Vec<u8>) -> Result<usize, OpenFault> {
    let mut disk = MemoryDisk::holding(alloc, bytes)?;
    let (_journal, entries) = Journal::open(alloc, &mut disk)?;
    Ok(entries.len())
}
