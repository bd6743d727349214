//! Devices that fail, files up to their limit, and what stands behind them in std.
ghost use Rattle.std.specs.Prelude.{◌≤◌, IfOk, OnErr, Some};

use crate::line_tests::{failing, is_shown, source};
use crate::rows::expect;
use reg_base::{List, Text};
use reg_io::{
    Device, Failed, FailingShelf, FailingSink, FailingSource, Folder, Lines, MemoryShelf,
    MemorySink, MemorySource, ReaderSource, Shelf, ShelfFault, Sink, SinkFault, Source, WriterSink,
    write_all,
};
use std::alloc::{AllocError, Global};
use std::io::{Read, Write};
use std::test::Fail;
use std::{fs, io};

// Which calls of a sink fail, the bytes that it takes, the answer, and the faults that it counts.
type Writing = (&'static [u64], &'static str, Result<(), SinkFault>, u64);

const WRITINGS: [Writing; 3] = [
    (&[], "abcdefg", Ok(()), 0),
    (&[3], "abcdef", Err(SinkFault::Failed), 1),
    (&[1], "", Err(SinkFault::Failed), 1),
];

// Whether seven bytes are written to a sink, three by three, as the row says.
fn is_written(alloc: Global, row: &Writing) -> bool {
    let (numbers, taken, answer, faults) = row;
    let Ok(failing) = failing(alloc, numbers) else {
        return false;
    };
    let mut sink = FailingSink::new(MemorySink::new(alloc, 3), failing);
    write_all(&mut sink, b"abcdefg") == *answer
        && sink.sink.bytes.as_slice() == taken.as_bytes()
        && sink.sink.faults == *faults
}

#[test]
fn all_bytes_are_written_or_a_front_of_them(rt: HostRuntime) {
    for row in &WRITINGS {
        expect(&rt, &row.1, is_written(rt.alloc(), row));
    }
}

fn add_file(
    alloc: Global,
    files: &mut List<(Text, List<u8>)>,
    name: &str,
    bytes: &[u8],
) -> Result<(), AllocError> {
    let name = Text::from_str(alloc, name)?;
    files.push((name, List::from_slice(alloc, bytes)?))
}

// Two files on a shelf whose fourth call fails.
fn failing_shelf(alloc: Global) -> Result<FailingShelf, AllocError> {
    let mut files = List::new(alloc);
    add_file(alloc, &mut files, "a", b"one")?;
    add_file(alloc, &mut files, "b", b"two")?;
    let failing = failing(alloc, &[4])?;
    Ok(FailingShelf::new(MemoryShelf::new(files), failing))
}

// Whether a shelf gives these bytes of a file.
fn gives<F: Shelf>(shelf: &mut F, alloc: Global, name: &str, most: u64, wanted: &[u8]) -> bool {
    match shelf.read_file(alloc, name, most) {
        Ok(bytes) => bytes.as_slice() == wanted,
        Err(_) => false,
    }
}

// Whether a shelf does not give a file, and why.
fn refuses<F: Shelf>(
    shelf: &mut F,
    alloc: Global,
    name: &str,
    most: u64,
    wanted: ShelfFault,
) -> bool {
    match shelf.read_file(alloc, name, most) {
        Ok(_) => false,
        Err(fault) => fault == wanted,
    }
}

// Files, how many bytes may be read of each, why it is not read, and the faults counted so far.
const UNREAD: [(&str, u64, ShelfFault, u64); 3] = [
    ("b", 2, ShelfFault::TooLong, 0),
    ("c", 9, ShelfFault::Failed, 1),
    ("a", 3, ShelfFault::Failed, 2),
];

#[test]
fn files_are_read_up_to_their_limit(rt: HostRuntime) -> Result<(), Fail> {
    let mut shelf = failing_shelf(rt.alloc())?;
    expect(&rt, &"b", gives(&mut shelf, rt.alloc(), "b", 3, b"two"));
    for (name, most, fault, faults) in &UNREAD {
        expect(
            &rt,
            name,
            refuses(&mut shelf, rt.alloc(), name, *most, *fault),
        );
        expect(&rt, faults, shelf.shelf.faults == *faults);
    }
    Ok(())
}

// A reader and a writer of std whose second call fails, and whose third takes nothing.
#[derive(Drop)]
struct Faulty {
    calls: u8,
}

impl Faulty {
    fn next(&mut self) -> io::Result<usize>
        ensures { IfOk result (λ n. n ≤ 1) }
    {
        self.calls = self.calls.saturating_add(1);
        match self.calls {
            1 => Ok(1),
            2 => Err(io::Error::from(io::ErrorKind::Other)),
            _ => Ok(0),
        }
    }
}

impl Read for Faulty {
    fn read(&mut self, buf: &mut [u8]) -> io::Result<usize> {
        let count = self.next()?.min(buf.len());
        buf[..count].copy_from_slice(&b"a"[..count]);
        Ok(count)
    }
}

impl Write for Faulty {
    fn write(&mut self, buf: &[u8]) -> io::Result<usize> {
        Ok(self.next()?.min(buf.len()))
    }

    fn flush(&mut self) -> io::Result<()> {
        Ok(())
    }
}

// What a call answers, and how many failures are counted behind it.
type Call = (Result<usize, Failed>, u64);

const READS: [Call; 3] = [(Ok(1), 0), (Err(Failed), 1), (Ok(0), 1)];

const WRITES: [Call; 3] = [(Ok(1), 0), (Err(Failed), 1), (Ok(0), 2)];

// Whether the next read is as the row says, and a byte that is read is the letter.
fn is_read(reader: &mut ReaderSource<Faulty>, row: &Call) -> bool {
    let mut room = [0; 4];
    let count = reader.read(&mut room);
    count == row.0 && reader.faults() == row.1 && (count != Ok(1) || room[0] == b'a')
}

fn is_taken(writer: &mut WriterSink<Faulty>, row: &Call) -> bool {
    writer.write(b"ab") == row.0 && writer.faults() == row.1
}

#[test]
fn a_reader_and_a_writer_of_std_count_their_failures(rt: HostRuntime) {
    let mut reader = ReaderSource::new(Faulty { calls: 0 });
    for row in &READS {
        expect(&rt, &"reading", is_read(&mut reader, row));
    }
    let mut writer = WriterSink::new(Faulty { calls: 0 });
    for row in &WRITES {
        expect(&rt, &"writing", is_taken(&mut writer, row));
    }
}

// The calls made before, what writing two bytes answers, and how many failures are counted.
type Ending = (u8, Result<(), SinkFault>, u64);

const ENDINGS: [Ending; 2] = [
    (0, Err(SinkFault::Failed), 1),
    (2, Err(SinkFault::TookNothing), 1),
];

fn is_ended(row: &Ending) -> bool {
    let mut writer = WriterSink::new(Faulty { calls: row.0 });
    write_all(&mut writer, b"ab") == row.1 && writer.faults() == row.2
}

#[test]
fn a_write_that_took_nothing_is_told_from_one_that_failed(rt: HostRuntime) {
    for row in &ENDINGS {
        expect(&rt, &row.0, is_ended(row));
    }
}

// Whether the reads of a source fail exactly where its second and fourth calls are listed.
fn fails_as_listed(source: &mut FailingSource) -> bool {
    let mut room = [0; 2];
    [false, true, false, true, false]
        .iter()
        .all(|fails| source.read(&mut room).is_err() == *fails)
}

#[test]
fn calls_fail_exactly_as_listed(rt: HostRuntime) -> Result<(), Fail> {
    let failing = failing(rt.alloc(), &[2, 4])?;
    let mut source = FailingSource::new(source(rt.alloc(), b"abcdef", 2)?, failing);
    expect(&rt, &"reads", fails_as_listed(&mut source));
    expect(&rt, &"two faults", source.faults == 2);
    Ok(())
}

const FILE: &str = "reg_io_folder_test";

// Whether a folder gives the file of five bytes, and tells why it does not give others.
fn reads_files(folder: &mut Folder<HostRuntime>, alloc: Global) -> bool {
    gives(folder, alloc, FILE, 5, b"three")
        && refuses(folder, alloc, FILE, 4, ShelfFault::TooLong)
        && folder.faults() == 0
        && refuses(folder, alloc, "reg_io_no_such_file", 4, ShelfFault::Failed)
        && folder.faults() == 1
}

#[test]
fn a_folder_reads_a_file_and_counts_one_that_is_not_there(rt: HostRuntime) -> Result<(), Fail> {
    fs::write(&rt, FILE, "three")?;
    expect(&rt, &FILE, reads_files(&mut Folder::new(&rt), rt.alloc()));
    fs::remove_file(&rt, FILE)?;
    Ok(())
}

// A connection, which is read from and written to.
#[derive(Drop)]
struct Link {
    input: MemorySource,
    output: MemorySink,
}

impl Device for Link {
    ghost left = { λ l. Some l.input };

    ghost taken = { λ l. Some l.output.bytes.items };

    ghost write_faults = { λ l. l.output.faults };
}

impl Source for Link {
    fn read(&mut self, into: &mut [u8]) -> Result<usize, Failed> {
        self.input.read(into)
    }
}

impl Sink for Link {
    fn write(&mut self, bytes: &[u8]) -> Result<usize, Failed> {
        self.output.write(bytes)
    }
}

// Reads a few bytes of an object and writes them back.
fn echo<L: Source + Sink>(link: &mut L) -> Result<usize, Failed>
    ensures { OnErr result (L.read_faults link.old ≤ L.read_faults link.new) }
{
    let mut room = [0; 8];
    let count = link.read(&mut room)?;
    link.write(&room[..count])
}

// Six bytes to be read from a connection, four by four.
fn new_link(alloc: Global) -> Result<Link, AllocError> {
    Ok(Link {
        input: source(alloc, b"abcdef", 4)?,
        output: MemorySink::new(alloc, 3),
    })
}

// Whether this is what the lines of a connection show.
fn link_shows(alloc: Global, link: &mut Link, wanted: &str) -> bool {
    match Lines::new(alloc, link, 10) {
        Ok(mut lines) => {
            let is_shown = is_shown(alloc, &mut lines, wanted);
            let _link = lines.into_source();
            is_shown
        }
        Err(_) => false,
    }
}

#[test]
fn one_object_is_read_from_and_written_to(rt: HostRuntime) -> Result<(), Fail> {
    let mut link = new_link(rt.alloc())?;
    expect(&rt, &"three bytes", echo(&mut link) == Ok(3));
    expect(
        &rt,
        &"abc",
        link.output.bytes.as_slice() == b"abc".as_slice(),
    );
    expect(
        &rt,
        &"[ef]end",
        link_shows(rt.alloc(), &mut link, "[ef]end"),
    );
    Ok(())
}
