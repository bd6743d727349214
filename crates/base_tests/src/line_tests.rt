//! Lines of inputs, of short ones and of long ones, by reads that cut them and reads that fail.
use crate::rows::expect;
use reg_base::{List, Memory};
use reg_io::{FailingCalls, FailingSource, Line, LineFault, Lines, MemorySource, Source};
use std::alloc::{AllocError, Global};
use std::test::Fail;

pub(crate) fn source(
    alloc: Global,
    bytes: &[u8],
    chunk: usize,
) -> Result<MemorySource, AllocError> {
    let bytes = List::from_slice(alloc, bytes)?;
    Ok(MemorySource::new(bytes, chunk.max(1)))
}

pub(crate) fn failing(alloc: Global, numbers: &[u64]) -> Result<FailingCalls, AllocError> {
    Ok(FailingCalls::new(List::from_slice(alloc, numbers)?))
}

// Shows the first answers of a reader of lines, and then the end or the fault, twice where it
// stays: a line in brackets, one of over a hundred bytes by its length, and the length of a line
// that is too long between marks.
fn show<S: Source>(lines: &mut Lines<S>, out: &mut String) -> Result<(), AllocError> {
    for _ in 0..12 {
        match lines.next_line() {
            Ok(Some(line)) => show_line(&line, out)?,
            Ok(None) => return out.push_str("end"),
            Err(fault) => out.push_str(fault_mark(fault))?,
        }
    }
    Ok(())
}

fn show_line(line: &Line, out: &mut String) -> Result<(), AllocError> {
    match line {
        Line::Text { bytes } if bytes.len() > 100 => show_length("[", bytes.len() as u64, "]", out),
        Line::Text { bytes } => show_text(bytes.as_slice(), out),
        Line::TooLong { bytes } => show_length("<", *bytes, ">", out),
    }
}

fn show_text(bytes: &[u8], out: &mut String) -> Result<(), AllocError> {
    out.push_str("[")?;
    out.push_str(std::str::from_utf8(bytes).unwrap_or("?"))?;
    out.push_str("]")
}

fn show_length(front: &str, len: u64, end: &str, out: &mut String) -> Result<(), AllocError> {
    let text = format!(in *out.allocator(); "{front}{len}{end}")?;
    out.push_str(text.as_str())
}

fn fault_mark(fault: LineFault) -> &'static str {
    match fault {
        LineFault::Read => "R",
        LineFault::InputTooLong => "L",
        LineFault::Memory => "M",
    }
}

// Whether this is what a reader of lines shows.
pub(crate) fn is_shown<S: Source>(alloc: Global, lines: &mut Lines<S>, wanted: &str) -> bool {
    let mut out = String::new(alloc);
    show(lines, &mut out).is_ok() && out.as_str() == wanted
}

// The lines of an input, of which one read gives a chunk, and all reads at most so many bytes.
fn lines_of(
    alloc: Global,
    input: &[u8],
    chunk: usize,
    most: u64,
) -> Result<Lines<MemorySource>, Memory> {
    Lines::new(alloc, source(alloc, input, chunk)?, most)
}

// Whether this is what the lines of an input show.
fn shows(alloc: Global, input: &[u8], chunk: usize, most: u64, wanted: &str) -> bool {
    match lines_of(alloc, input, chunk, most) {
        Ok(mut lines) => is_shown(alloc, &mut lines, wanted),
        Err(_) => false,
    }
}

#[test]
fn lines_are_the_same_however_reads_cut_the_input(rt: HostRuntime) {
    let input = b"one\r\n\ntwo\r\r\n three\nfour\r";
    let wanted = "[one][][two\r][ three][four\r]end";
    for chunk in [1, 2, 3, 7, 4096] {
        expect(&rt, &chunk, shows(rt.alloc(), input, chunk, 1000, wanted));
    }
}

// The longest line, longer ones, the end behind each, and what is told.
const LONG_LINES: [(usize, &[u8], &str); 5] = [
    (1_048_576, b"\n", "[1048576]end"),
    (1_048_577, b"\nb\n", "<1048577>[b]end"),
    (1_048_576, b"\r\nb\n", "<1048577>[b]end"),
    (4_000_000, b"\nb", "<4000000>[b]end"),
    (1_048_577, b"", "<1048577>end"),
];

// Whether this is what a line of so many letters shows, and what stands behind it.
fn long_line_shows(alloc: Global, len: usize, end: &[u8], wanted: &str) -> bool {
    match vec![in alloc; b'a'; len] {
        Ok(mut line) => {
            line.extend_from_slice(end).is_ok() && shows(alloc, &line, 4096, 5_000_000, wanted)
        }
        Err(_) => false,
    }
}

#[test]
fn a_line_that_is_too_long_is_told_and_the_next_one_is_given(rt: HostRuntime) {
    for (len, end, wanted) in &LONG_LINES {
        expect(&rt, wanted, long_line_shows(rt.alloc(), *len, end, wanted));
    }
}

// An input, how many bytes of it may be given, and what is told.
const LIMITED: [(&[u8], u64, &str); 5] = [
    (b"a\nbc\n", 5, "[a][bc]end"),
    (b"a\nbc\n", 4, "[a]LLLLLLLLLLL"),
    (b"a\nbcd", 5, "[a][bcd]end"),
    (b"a\nbcde", 5, "[a]LLLLLLLLLLL"),
    (b"", 0, "end"),
];

#[test]
fn an_input_past_its_limit_is_refused_behind_its_whole_lines(rt: HostRuntime) {
    for (input, most, wanted) in &LIMITED {
        expect(&rt, wanted, shows(rt.alloc(), input, 4096, *most, wanted));
    }
}

// The lines of a source whose second read fails.
fn failing_lines(alloc: Global) -> Result<Lines<FailingSource>, Memory> {
    let failing = failing(alloc, &[2])?;
    let source = source(alloc, b"a\nb\nc\n", 3)?;
    Lines::new(alloc, FailingSource::new(source, failing), 1000)
}

#[test]
fn a_failed_read_comes_behind_the_whole_lines_and_stays(rt: HostRuntime) -> Result<(), Fail> {
    let mut lines = failing_lines(rt.alloc())?;
    let wanted = "[a]RRRRRRRRRRR";
    expect(&rt, &wanted, is_shown(rt.alloc(), &mut lines, wanted));
    expect(&rt, &"one fault", lines.into_source().faults == 1);
    Ok(())
}
