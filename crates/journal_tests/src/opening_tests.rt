//! Tests of opening: new files, files cut short, gate bytes, first entries.
use crate::files::{BEGUN, LINE, entries_in, one_entry};
use crate::rows::expect;
use post_journal::{Journal, OpenFault};
use reg_io::MemoryDisk;
use std::alloc::Global;

// Whether an empty file is begun with these bytes, and has no entries.
fn begins(alloc: Global, wanted: &[u8]) -> bool {
    let mut disk = MemoryDisk::new(alloc);
    match Journal::open(alloc, &mut disk) {
        Ok((journal, entries)) => {
            entries.len() == 0 && journal.len() == 23 && disk.bytes.as_slice() == wanted
        }
        Err(_) => false,
    }
}

#[test]
fn an_empty_file_is_begun_with_23_bytes(rt: HostRuntime) {
    expect(&rt, &"empty", begins(rt.alloc(), &BEGUN));
}

// Lengths from and to which the journal of one entry is cut, and what it is opened as.
const CUTS: [(usize, usize, Result<usize, OpenFault>); 4] = [
    (0, 1, Ok(0)),
    (2, 22, Err(OpenFault::NotAJournal)),
    (23, 198, Err(OpenFault::BadEntry { place: 22 })),
    (199, 199, Ok(1)),
];

fn opens_cut(alloc: Global, len: usize, wanted: &Result<usize, OpenFault>) -> bool {
    match one_entry(alloc, 1) {
        Ok(mut bytes) => {
            bytes.truncate(len);
            entries_in(alloc, bytes) == *wanted
        }
        Err(_) => false,
    }
}

#[test]
fn a_journal_cut_short_is_refused_or_begun_anew(rt: HostRuntime) {
    for (first, last, wanted) in &CUTS {
        for len in *first..*last + 1 {
            expect(&rt, &len, opens_cut(rt.alloc(), len, wanted));
        }
    }
}

// Gate bytes, and how many entries they show.
const GATES: [(u8, usize); 6] = [(0, 0), (1, 1), (2, 0), (0x37, 0), (0x81, 0), (0xff, 0)];

// Whether the journal of one entry behind this gate byte is opened twice with so many entries, the
// file's bytes staying.
fn opens_twice(alloc: Global, gate: u8, count: usize) -> Result<bool, OpenFault> {
    let bytes = one_entry(alloc, gate)?;
    let mut disk = MemoryDisk::holding(alloc, bytes)?;
    let (_journal, first) = Journal::open(alloc, &mut disk)?;
    let (_journal, second) = Journal::open(alloc, &mut disk)?;
    let kept = one_entry(alloc, gate)?;
    let same = disk.bytes.as_slice() == kept.as_slice();
    Ok(same && first.len() == count && second.len() == count)
}

#[test]
fn an_entry_counts_behind_the_gate_byte_1_alone(rt: HostRuntime) {
    for (gate, count) in &GATES {
        expect(
            &rt,
            gate,
            opens_twice(rt.alloc(), *gate, *count) == Ok(true),
        );
    }
}

// Whether the one entry is given as its bytes, and the journal's length counts it.
fn gives_its_bytes(alloc: Global) -> Result<bool, OpenFault> {
    let bytes = one_entry(alloc, 1)?;
    let long = bytes.len() == 199;
    let mut disk = MemoryDisk::holding(alloc, bytes)?;
    let (journal, entries) = Journal::open(alloc, &mut disk)?;
    let given = match entries.as_slice() {
        [entry] => entry.bytes.as_slice() == LINE,
        _ => false,
    };
    Ok(long && given && journal.len() == 199)
}

#[test]
fn an_entry_is_given_byte_by_byte(rt: HostRuntime) {
    expect(&rt, &"one entry", gives_its_bytes(rt.alloc()) == Ok(true));
}

// Files, and what they are opened as.
const FILES: [(&[u8], Result<usize, OpenFault>); 14] = [
    (b"", Ok(0)),
    (b"\x01", Ok(0)),
    (b"\x37", Ok(0)),
    (b"\x37\x01", Ok(0)),
    (b"\x01\x00", Err(OpenFault::NotAJournal)),
    (&[0; 23], Ok(0)),
    (&[0; 24], Err(OpenFault::NotAJournal)),
    (&BEGUN, Ok(0)),
    (
        b"\x01\x00\x00\x00\x11regdesk journal 2\x00",
        Err(OpenFault::NotAJournal),
    ),
    (
        b"\x01\x00\x00\x00\x10regdesk journal \x00\x00",
        Err(OpenFault::NotAJournal),
    ),
    (
        b"\x01\x00\x00\x00\x12regdesk journal 1 \x00",
        Err(OpenFault::NotAJournal),
    ),
    (
        b"\x01\x00\x00\x00\x11regdesk journal 1\x01\x00\x00\x00\x00\x00",
        Err(OpenFault::BadEntry { place: 22 }),
    ),
    (
        b"\x01\x00\x00\x00\x11regdesk journal 1\x01\x01\x00\x00\x01aa\x00",
        Err(OpenFault::BadEntry { place: 22 }),
    ),
    (
        b"\x01\x00\x00\x00\x11regdesk journal 1\x01\x00\x00\x00\x01a\x01\x00",
        Err(OpenFault::BadEntry { place: 28 }),
    ),
];

fn opens_file(alloc: Global, bytes: &[u8], wanted: &Result<usize, OpenFault>) -> bool {
    match Vec::from_slice(alloc, bytes) {
        Ok(bytes) => entries_in(alloc, bytes) == *wanted,
        Err(_) => false,
    }
}

#[test]
fn only_a_journal_is_opened(rt: HostRuntime) {
    for (index, (bytes, wanted)) in FILES.iter().enumerate() {
        expect(&rt, &index, opens_file(rt.alloc(), bytes, wanted));
    }
}
