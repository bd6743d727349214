//! Runs of a shop over objects in memory: what goes in, which calls fail, and what has to come out.
use desk_run::{Finish, desk_main};
use reg_base::{List, Text};
use reg_io::{
    Disk, FailingCalls, FailingShelf, FailingSink, FailingSource, MemoryDisk, MemoryShelf,
    MemorySink, MemorySource, Shelf, Sink, Source,
};
use std::alloc::{AllocError, Global};
use std::thread::Threads;

pub(crate) const SHOP: &str = "[register.goods]\nkind = \"balance\"\ndimensions = [\"item:code\"]\n\
resources = [\"quantity:3\", \"amount:2\"]\n\n[document.fill]\nhead = []\nlines = [\"quantity:3\"]\n\
rules = 'each line receipt goods(item = \"nail\"; quantity = line.quantity);'\n\n\
[clerk.anna]\nrights = [\"manual\", \"read\"]\n";

// Three documents of no quantity, and so without records.
pub(crate) const ROWS: &str = "key,kind,date,line.quantity\na,fill,2024-01-10,0\n\
b,fill,2024-01-10,0\nc,fill,2024-01-10,0\n";

pub(crate) const RECEIPT: &str = "{\"clerk\":\"anna\",\"date\":\"2024-01-10T09:00:00\",\"no\":1,\
\"op\":\"manual\",\"sets\":[{\"records\":[{\"kind\":\"receipt\",\
\"sums\":[\"10.000\",\"50.00\"],\"values\":[\"nail\"]}],\"space\":\"goods\"}]}";

pub(crate) const POSTED: &str = "{\"ok\":{\"active\":true,\"doc\":1,\"state\":\"posted\"}}\n";

pub(crate) const NAILS: &str =
    "{\"ok\":{\"rows\":[{\"group\":[\"nail\"],\"sums\":[\"10.000\",\"50.00\"]}]}}\n";

// What a run is given, and which call of it fails.
#[derive(Clone, Copy)]
pub(crate) struct Given<'a> {
    pub(crate) config: &'a str,
    pub(crate) input: &'a [u8],
    // How many bytes a read gives, and a write takes, at the most.
    pub(crate) piece: usize,
    pub(crate) call: Call,
    // The number of the call that fails, from 1.
    pub(crate) number: usize,
}

// A call on one of the objects of a run.
#[derive(Clone, Copy)]
pub(crate) enum Call {
    ReadFile,
    Read,
    Write,
    WriteLine,
    /// The first read of a file, and a write of the line.
    ReadFileAndWriteLine,
}

impl Given<'_> {
    // The number of the call that fails, of each in order; no call has the number 0.
    fn numbers(&self) -> [u64; 4] {
        let number = self.number as u64;
        match self.call {
            Call::ReadFile => [number, 0, 0, 0],
            Call::Read => [0, number, 0, 0],
            Call::Write => [0, 0, number, 0],
            Call::WriteLine => [0, 0, 0, number],
            Call::ReadFileAndWriteLine => [1, 0, 0, number],
        }
    }
}

// What a run leaves: its status, its output, and its line on the error output.
#[derive(Clone, Copy)]
pub(crate) struct End<'a> {
    pub(crate) status: u8,
    pub(crate) out: &'a [u8],
    pub(crate) line: &'a [u8],
}

// Why a test failed.
#[derive(Clone, Copy, Debug)]
pub(crate) enum Difference {
    /// The run in such pieces whose call of this number fails left something else than its end.
    Run { piece: usize, number: usize },
    /// More runs were to be made than there are calls.
    Endless,
    Memory,
}

impl From<AllocError> for Difference {
    fn from(_refused: AllocError) -> Difference {
        Difference::Memory
    }
}

pub(crate) fn calls(alloc: Global, number: u64) -> Result<FailingCalls, AllocError> {
    Ok(FailingCalls::new(List::from_slice(alloc, &[number])?))
}

fn files(alloc: Global, config: &str) -> Result<List<(Text, List<u8>)>, AllocError> {
    let mut files = List::new(alloc);
    files.push(file(alloc, "shop.toml", config)?)?;
    files.push(file(alloc, "rows.csv", ROWS)?)?;
    Ok(files)
}

fn file(alloc: Global, name: &str, text: &str) -> Result<(Text, List<u8>), AllocError> {
    let name = Text::from_str(alloc, name)?;
    let bytes = List::from_slice(alloc, text.as_bytes())?;
    Ok((name, bytes))
}

fn shelf(alloc: Global, config: &str, failing: u64) -> Result<FailingShelf, AllocError> {
    let calls = calls(alloc, failing)?;
    let shelf = MemoryShelf::new(files(alloc, config)?);
    Ok(FailingShelf::new(shelf, calls))
}

fn source(alloc: Global, given: &Given, failing: u64) -> Result<FailingSource, AllocError> {
    let calls = calls(alloc, failing)?;
    let bytes = List::from_slice(alloc, given.input)?;
    let source = MemorySource::new(bytes, given.piece.max(1));
    Ok(FailingSource::new(source, calls))
}

fn sink(alloc: Global, piece: usize, failing: u64) -> Result<FailingSink, AllocError> {
    let calls = calls(alloc, failing)?;
    Ok(FailingSink::new(MemorySink::new(alloc, piece.max(1)), calls))
}

fn words(alloc: Global, all: &[&str]) -> Result<Vec<String>, AllocError> {
    let mut words = Vec::new(alloc);
    for word in all {
        words.push(String::from_str(alloc, word)?)?;
    }
    Ok(words)
}

// The output and the error output of a run.
#[derive(Drop)]
struct Outputs {
    out: FailingSink,
    err: FailingSink,
}

fn make_outputs(alloc: Global, given: &Given) -> Result<Outputs, AllocError> {
    let [_, _, write, line] = given.numbers();
    Ok(Outputs {
        out: sink(alloc, given.piece, write)?,
        err: sink(alloc, given.piece, line)?,
    })
}

// The status of a run on any objects.
fn run_on<R: Threads + Sync, F: Shelf, S: Source, O: Sink, E: Sink>(
    rt: &R,
    alloc: Global,
    words: &[String],
    shelf: &mut F,
    input: &mut S,
    out: &mut O,
    err: &mut E,
) -> u8 {
    let disk = MemoryDisk::new(alloc);
    desk_main(rt, alloc, words, shelf, disk, input, out, err).status
}

// What a call over a disk leaves.
#[derive(Drop)]
pub(crate) struct Left<D> {
    pub(crate) status: u8,
    pub(crate) out: MemorySink,
    pub(crate) disk: D,
}

// What a call leaves over a disk, beside the shop's configuration and the rows of its documents.
pub(crate) fn call_over<R: Threads + Sync, D: Disk + Send + Drop>(
    rt: &R,
    alloc: Global,
    asked: &[&str],
    input: &str,
    disk: D,
) -> Result<Left<D>, AllocError> {
    let words = words(alloc, asked)?;
    let mut shelf = MemoryShelf::new(files(alloc, SHOP)?);
    let mut source = MemorySource::new(List::from_slice(alloc, input.as_bytes())?, 64);
    let mut out = MemorySink::new(alloc, 64);
    let mut err = MemorySink::new(alloc, 64);
    let Finish { status, disk } = desk_main(
        rt,
        alloc,
        words.as_slice(),
        &mut shelf,
        disk,
        &mut source,
        &mut out,
        &mut err,
    );
    Ok(Left { status, out, disk })
}

// The status of a run of what is given, from this shelf.
fn run_from<R: Threads + Sync>(
    rt: &R,
    alloc: Global,
    given: &Given,
    shelf: &mut FailingShelf,
    outputs: &mut Outputs,
) -> Result<u8, AllocError> {
    let [_, read, _, _] = given.numbers();
    let words = words(alloc, &["run", "shop.toml"])?;
    let mut input = source(alloc, given, read)?;
    let Outputs { out, err } = outputs;
    Ok(run_on(rt, alloc, words.as_slice(), shelf, &mut input, out, err))
}

// The status of a run of what is given.
fn run<R: Threads + Sync>(
    rt: &R,
    alloc: Global,
    given: &Given,
    outputs: &mut Outputs,
) -> Result<u8, AllocError> {
    let [file, _, _, _] = given.numbers();
    let mut shelf = shelf(alloc, given.config, file)?;
    run_from(rt, alloc, given, &mut shelf, outputs)
}

// Whether a run that gave this left just the end on its outputs.
fn is_end(ran: Result<u8, AllocError>, outputs: &Outputs, end: &End) -> bool {
    ran == Ok(end.status)
        && outputs.out.sink.bytes.as_slice() == end.out
        && outputs.err.sink.bytes.as_slice() == end.line
}

// Fails where a run of what is given leaves something else than the end.
pub(crate) fn leaves<R: Threads + Sync>(
    rt: &R,
    alloc: Global,
    given: &Given,
    end: &End,
) -> Result<(), Difference> {
    let mut outputs = make_outputs(alloc, given)?;
    let ran = run(rt, alloc, given, &mut outputs);
    told(is_end(ran, &outputs, end), given)
}

fn told(is_end: bool, given: &Given) -> Result<(), Difference> {
    if is_end {
        return Ok(());
    }
    Err(Difference::Run {
        piece: given.piece,
        number: given.number,
    })
}
