//! Tests of disks: what they hold, what a crash leaves of one in memory, and a real file.
use crate::line_tests::failing;
use crate::rows::expect;
use reg_io::{CrashImage, Disk, Failed, FailingDisk, JournalFile, MemoryDisk};
use std::alloc::{AllocError, Global};
use std::fs;
use std::test::Fail;

// Whether bytes are written at the front of a disk, over others and behind them.
fn keeps_bytes(disk: &mut MemoryDisk) -> bool {
    disk.write_at(0, b"abcd").is_ok()
        && disk.len() == Ok(4)
        && disk.bytes.len() == 4
        && disk.write_at(2, b"XYZ").is_ok()
        && disk.bytes.as_slice() == b"abXYZ".as_slice()
}

// Whether bytes in the middle of those are read.
fn reads_bytes(disk: &mut MemoryDisk) -> bool {
    let mut room = [0; 3];
    disk.bytes.len() == 5 && disk.read(1, &mut room).is_ok() && room == *b"bXY"
}

// Whether a disk loses what stands behind its first byte.
fn is_cut(disk: &mut MemoryDisk) -> bool {
    disk.bytes.len() == 5
        && disk.cut(1).is_ok()
        && disk.sync().is_ok()
        && disk.bytes.as_slice() == b"a".as_slice()
}

#[test]
fn a_disk_keeps_what_was_written_over_and_behind(rt: HostRuntime) {
    let mut disk = MemoryDisk::new(rt.alloc());
    expect(&rt, &"writing", keeps_bytes(&mut disk));
    expect(&rt, &"reading", reads_bytes(&mut disk));
    expect(&rt, &"cutting", is_cut(&mut disk));
}

// What a crash leaves of a disk: what a read gives, what the last sync confirmed, and what a read
// gives with the figure 7 (0x37) in each byte that was written since.
fn leaves(disk: &MemoryDisk, wanted: &[&'static str; 3]) -> Result<bool, AllocError> {
    let read = disk.after_crash(CrashImage::AsRead)?;
    let confirmed = disk.after_crash(CrashImage::Confirmed)?;
    let scrambled = disk.after_crash(CrashImage::Scrambled)?;
    Ok(
        read.as_slice() == wanted[0].as_bytes()
            && confirmed.as_slice() == wanted[1].as_bytes()
            && scrambled.as_slice() == wanted[2].as_bytes(),
    )
}

// A disk that was made with six bytes, and whose third call fails.
fn six_bytes(alloc: Global) -> Result<FailingDisk, AllocError> {
    let disk = MemoryDisk::holding(alloc, Vec::from_slice(alloc, b"abcdef")?)?;
    Ok(FailingDisk::new(disk, failing(alloc, &[3])?))
}

// What is done to that disk, by a number, and what a crash then leaves.
const STEPS: [(u8, [&str; 3]); 5] = [
    (0, ["abcdef", "abcdef", "abcdef"]),
    (1, ["abXYef", "abcdef", "ab77ef"]),
    (2, ["abXY", "abcdef", "ab77"]),
    (3, ["abXY", "abcdef", "7b77"]),
    (4, ["abXY", "abXY", "abXY"]),
];

fn is_done(disk: &mut FailingDisk, number: u8) -> bool {
    let len = disk.disk.bytes.len();
    match number {
        1 => len >= 2 && disk.write_at(2, b"XY").is_ok(),
        2 => len >= 4 && disk.cut(4).is_ok(),
        3 => disk.write_at(0, b"Z").is_err(),
        4 => disk.sync().is_ok(),
        _ => true,
    }
}

#[test]
fn a_crash_leaves_what_a_sync_confirmed_and_perhaps_more(rt: HostRuntime) -> Result<(), Fail> {
    let mut disk = six_bytes(rt.alloc())?;
    for (number, wanted) in &STEPS {
        let is_right = is_done(&mut disk, *number) && leaves(&disk.disk, wanted) == Ok(true);
        expect(&rt, number, is_right);
    }
    Ok(())
}

const FILE: &str = "reg_io_journal_test";

// Whether a file that is not there is made, and keeps what is written.
fn is_a_disk(file: &mut JournalFile<HostRuntime>) -> bool {
    let mut room = [0; 2];
    file.len() == Ok(0)
        && file.write_at(0, b"abcd").is_ok()
        && file.write_at(1, b"XY").is_ok()
        && file.read(1, &mut room).is_ok()
        && room == *b"XY"
        && file.cut(3).is_ok()
        && file.sync().is_ok()
        && file.len() == Ok(3)
        && file.faults() == 0
}

// Whether a file that can't be made counts each call.
fn counts_failures(file: &mut JournalFile<HostRuntime>) -> bool {
    file.len() == Err(Failed) && file.sync() == Err(Failed) && file.faults() == 2
}

#[test]
fn a_file_is_a_disk_and_counts_its_failures(rt: HostRuntime) -> Result<(), Fail> {
    expect(&rt, &FILE, is_a_disk(&mut JournalFile::new(&rt, FILE)));
    fs::remove_file(&rt, FILE)?;
    let mut missing = JournalFile::new(&rt, "reg_io_no_such_folder/journal");
    expect(&rt, &"missing", counts_failures(&mut missing));
    Ok(())
}
