//! Each call of the disk fails in turn: what was replied before it, and what each image of a crash
//! then opens with.
use crate::shop::{Left, call_over, calls};
use reg_io::{CrashImage, FailingDisk, MemoryDisk};
use std::alloc::{AllocError, Global};
use std::thread::Threads;

// Three documents without records.
const DOCUMENTS: &str =
    "{\"clerk\":\"anna\",\"date\":\"2024-01-10\",\"no\":1,\"op\":\"manual\",\"sets\":[]}
{\"clerk\":\"anna\",\"date\":\"2024-01-10\",\"no\":2,\"op\":\"manual\",\"sets\":[]}
{\"clerk\":\"anna\",\"date\":\"2024-01-10\",\"no\":3,\"op\":\"manual\",\"sets\":[]}
";

// What is written for the first of them, none to all.
const REPLIES: [&str; 4] = [
    "",
    "{\"ok\":{\"active\":true,\"doc\":1,\"state\":\"posted\"}}\n",
    "{\"ok\":{\"active\":true,\"doc\":1,\"state\":\"posted\"}}
{\"ok\":{\"active\":true,\"doc\":2,\"state\":\"posted\"}}\n",
    "{\"ok\":{\"active\":true,\"doc\":1,\"state\":\"posted\"}}
{\"ok\":{\"active\":true,\"doc\":2,\"state\":\"posted\"}}
{\"ok\":{\"active\":true,\"doc\":3,\"state\":\"posted\"}}\n",
];

// What an import writes of the first of its documents; of all with their counts.
const TOLD: [&str; 4] = [
    "",
    "a posted 1\n",
    "a posted 1\nb posted 2\n",
    "a posted 1\nb posted 2\nc posted 3\nposted 3 there 0 refused 0\n",
];

// A call that posts three documents, and what it writes of the first of them.
#[derive(Clone, Copy)]
struct Posting {
    asked: &'static [&'static str],
    input: &'static str,
    told: &'static [&'static str; 4],
}

const RUN: Posting = Posting {
    asked: &["run", "shop.toml"],
    input: DOCUMENTS,
    told: &REPLIES,
};

const IMPORT: Posting = Posting {
    asked: &["import", "shop.toml", "rows.csv"],
    input: "",
    told: &TOLD,
};

// What a check writes of so many.
const COUNTS: [&str; 4] = [
    "documents 0 records 0 postings 0 journal 0\n",
    "documents 1 records 0 postings 0 journal 1\n",
    "documents 2 records 0 postings 0 journal 2\n",
    "documents 3 records 0 postings 0 journal 3\n",
];

// The first and the last of calls, of which one fails; then the status, how many documents were
// acknowledged, and how many a read still gives: one more where the last sync of its entry failed.
// A crash leaves those that were acknowledged. A new journal is opened by nine calls, and an entry
// is appended by four.
const STOPS: [(u64, u64, u8, usize, usize); 7] = [
    (1, 12, 6, 0, 0),
    (13, 13, 6, 0, 1),
    (14, 16, 6, 1, 1),
    (17, 17, 6, 1, 2),
    (18, 20, 6, 2, 2),
    (21, 21, 6, 2, 3),
    (22, 22, 0, 3, 3),
];

// Why a test failed: the call after which something else was left, or memory.
#[derive(Clone, Copy, Debug)]
enum Stop {
    Call(u64),
    Memory,
}

impl From<AllocError> for Stop {
    fn from(_refused: AllocError) -> Stop {
        Stop::Memory
    }
}

// Whether the output is just the text of this place.
fn is_text(out: &[u8], texts: &[&str; 4], place: usize) -> bool {
    match texts.get(place) {
        Some(text) => out == text.as_bytes(),
        None => false,
    }
}

// Whether an image of the disk opens with so many documents.
fn opens_with<R: Threads + Sync>(
    rt: &R,
    alloc: Global,
    left: &Left<FailingDisk>,
    image: CrashImage,
    documents: usize,
) -> Result<bool, AllocError> {
    let bytes = left.disk.disk.after_crash(image)?;
    let disk = MemoryDisk::holding(alloc, bytes)?;
    let checked = call_over(rt, alloc, &["check", "shop.toml"], "", disk)?;
    Ok(checked.status == 0 && is_text(checked.out.bytes.as_slice(), &COUNTS, documents))
}

// Whether a posting whose call of this number fails ends with this status, behind so many documents
// that were told, and a read and the other images of a crash have so many documents.
fn stops<R: Threads + Sync>(
    rt: &R,
    alloc: Global,
    posting: &Posting,
    number: u64,
    row: &(u64, u64, u8, usize, usize),
) -> Result<bool, AllocError> {
    let (_, _, status, told, read) = *row;
    let disk = FailingDisk::new(MemoryDisk::new(alloc), calls(alloc, number)?);
    let left = call_over(rt, alloc, posting.asked, posting.input, disk)?;
    Ok(
        left.status == status
            && is_text(left.out.bytes.as_slice(), posting.told, told)
            && opens_with(rt, alloc, &left, CrashImage::AsRead, read)?
            && opens_with(rt, alloc, &left, CrashImage::Confirmed, told)?
            && opens_with(rt, alloc, &left, CrashImage::Scrambled, told)?,
    )
}

fn each_stop<R: Threads + Sync>(rt: &R, alloc: Global, posting: &Posting) -> Result<(), Stop> {
    for row in &STOPS {
        for number in row.0..=row.1 {
            if !stops(rt, alloc, posting, number, row)? {
                return Err(Stop::Call(number));
            }
        }
    }
    Ok(())
}

#[test]
fn each_stop_of_a_run_leaves_what_was_acknowledged(rt: HostRuntime) -> Result<(), Stop> {
    each_stop(&rt, rt.alloc(), &RUN)
}

#[test]
fn each_stop_of_an_import_leaves_what_was_told(rt: HostRuntime) -> Result<(), Stop> {
    each_stop(&rt, rt.alloc(), &IMPORT)
}
