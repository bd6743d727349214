//! Each call fails in turn, reads and writes being cut into pieces of several sizes: the status,
//! and exactly what was written before it. Behind the last call a run is good.
use crate::shop::{Call, Difference, End, Given, NAILS, POSTED, RECEIPT, SHOP, leaves};
use std::alloc::{AllocError, Global};
use std::thread::Threads;

const BALANCE: &str = "{\"clerk\":\"anna\",\"op\":\"balance\",\"register\":\"goods\"}";

const NO_OBJECT: &str = "{\"refused\":{\"code\":1,\"kind\":3,\"name\":\"BadLine\"}}\n";

// How many bytes a read gives, and a write takes, at the most; the last is a whole line.
const PIECES: [usize; 6] = [1, 2, 3, 5, 7, RECEIPT.len() + 1];

// The replies to the lines of the input, in order.
const REPLIES: [&str; 6] = [POSTED, NO_OBJECT, "", "", NAILS, POSTED];

// The input, and the replies to it one after another.
#[derive(Drop)]
struct Texts {
    input: String,
    replies: String,
}

// An input of four lines that are answered and two that are not, with each end of a line; the last
// one is the first again, and has its reply again.
fn input(alloc: Global) -> Result<String, AllocError> {
    format!(in alloc; "{RECEIPT}\n[]\r\n \t\r\n\n{BALANCE}\r\n{RECEIPT}")
}

// Texts one after another.
fn joined(alloc: Global, parts: &[&str]) -> Result<String, AllocError> {
    let mut all = String::new(alloc);
    for part in parts {
        all.push_str(part)?;
    }
    Ok(all)
}

fn make_texts(alloc: Global) -> Result<Texts, AllocError> {
    Ok(Texts {
        input: input(alloc)?,
        replies: joined(alloc, &REPLIES)?,
    })
}

// How many bytes the replies to so many first lines have.
fn replies_len(lines: usize) -> usize {
    let mut len = 0_usize;
    for reply in REPLIES.iter().take(lines) {
        len = len.saturating_add(reply.len());
    }
    len
}

// How many bytes so many first writes take, where each part is written in pieces of its own.
fn written_len(parts: &[&str], mut writes: usize, piece: usize) -> usize {
    let mut len = 0_usize;
    for part in parts {
        let pieces = part.len().div_ceil(piece.max(1));
        if writes < pieces {
            return len.saturating_add(writes.saturating_mul(piece));
        }
        writes -= pieces;
        len = len.saturating_add(part.len());
    }
    len
}

// How many line feeds the first bytes have.
fn line_feeds(bytes: &[u8], first: usize) -> usize {
    bytes.iter().take(first).filter(|b| **b == b'\n').count()
}

// The first bytes, so many of them.
fn front(bytes: &[u8], len: usize) -> &[u8] {
    bytes.get(..len).unwrap_or(bytes)
}

// A run of the input in such pieces, of which the call of this number fails.
fn given(texts: &Texts, piece: usize, call: Call, number: usize) -> Given<'_> {
    Given {
        config: SHOP,
        input: texts.input.as_bytes(),
        piece,
        call,
        number,
    }
}

// The end of a run that wrote so many first bytes of the replies.
fn end<'a>(texts: &'a Texts, written: usize, status: u8, line: &'a str) -> End<'a> {
    End {
        status,
        out: front(texts.replies.as_bytes(), written),
        line: line.as_bytes(),
    }
}

// The reads of the input in such pieces fail, one a run, and at last one that is not made.
fn reads_fail<R: Threads + Sync>(
    rt: &R,
    alloc: Global,
    texts: &Texts,
    piece: usize,
) -> Result<(), Difference> {
    let reads = texts.input.len().div_ceil(piece.max(1)).saturating_add(1);
    for read in 1..=reads {
        let read_len = (read - 1).saturating_mul(piece);
        let written = replies_len(line_feeds(texts.input.as_bytes(), read_len));
        let end = end(texts, written, 7, "regdesk: read\n");
        leaves(rt, alloc, &given(texts, piece, Call::Read, read), &end)?;
    }
    let good = given(texts, piece, Call::Read, reads.saturating_add(1));
    leaves(rt, alloc, &good, &end(texts, texts.replies.len(), 0, ""))
}

#[test]
fn a_failed_read_leaves_the_answers_to_the_whole_lines_before_it(
    rt: HostRuntime,
) -> Result<(), Difference> {
    let texts = make_texts(rt.alloc())?;
    for piece in PIECES {
        reads_fail(&rt, rt.alloc(), &texts, piece)?;
    }
    Ok(())
}

// The writes of the replies in such pieces fail, one a run, until one is not made.
fn writes_fail<R: Threads + Sync>(
    rt: &R,
    alloc: Global,
    texts: &Texts,
    piece: usize,
) -> Result<(), Difference> {
    for write in 1..=1000_usize {
        let given = given(texts, piece, Call::Write, write);
        let written = written_len(&REPLIES, write - 1, piece);
        if written == texts.replies.len() {
            return leaves(rt, alloc, &given, &end(texts, written, 0, ""));
        }
        let end = end(texts, written, 8, "regdesk: write\n");
        leaves(rt, alloc, &given, &end)?;
    }
    Err(Difference::Endless)
}

#[test]
fn a_failed_write_leaves_a_front_of_the_answers(rt: HostRuntime) -> Result<(), Difference> {
    let texts = make_texts(rt.alloc())?;
    for piece in PIECES {
        writes_fail(&rt, rt.alloc(), &texts, piece)?;
    }
    Ok(())
}

// The read of the file fails, and then one that is not made.
fn file_fails<R: Threads + Sync>(rt: &R, alloc: Global, texts: &Texts) -> Result<(), Difference> {
    let missing = end(texts, 0, 9, "regdesk: file shop.toml\n");
    leaves(rt, alloc, &given(texts, 7, Call::ReadFile, 1), &missing)?;
    let good = end(texts, texts.replies.len(), 0, "");
    leaves(rt, alloc, &given(texts, 7, Call::ReadFile, 2), &good)
}

#[test]
fn a_file_that_cannot_be_read_leaves_nothing_written(rt: HostRuntime) -> Result<(), Difference> {
    let texts = make_texts(rt.alloc())?;
    file_fails(&rt, rt.alloc(), &texts)
}

// A configuration, the calls that fail beside the writing of the line, the status, and the line as
// it is written, part by part.
type Refused = (&'static str, Call, u8, [&'static str; 3]);

const REFUSED: [Refused; 2] = [
    (
        "x = 1",
        Call::WriteLine,
        3,
        ["regdesk: configuration: 4 Unknown ", "x", "\n"],
    ),
    (
        SHOP,
        Call::ReadFileAndWriteLine,
        9,
        ["regdesk: file ", "shop.toml", "\n"],
    ),
];

// The writes of a line in such pieces fail, one a run, until one is not made.
fn line_writes_fail<R: Threads + Sync>(
    rt: &R,
    alloc: Global,
    refused: &Refused,
    piece: usize,
) -> Result<(), Difference> {
    let (config, call, status, parts) = refused;
    let line = joined(alloc, parts)?;
    for write in 1..=100_usize {
        let given = Given {
            config,
            input: RECEIPT.as_bytes(),
            piece,
            call: *call,
            number: write,
        };
        let written = written_len(parts, write - 1, piece);
        let end = End {
            status: *status,
            out: b"",
            line: front(line.as_bytes(), written),
        };
        leaves(rt, alloc, &given, &end)?;
        if written == line.len() {
            return Ok(());
        }
    }
    Err(Difference::Endless)
}

#[test]
fn a_failed_write_of_the_line_leaves_its_front_and_the_status(
    rt: HostRuntime,
) -> Result<(), Difference> {
    for refused in &REFUSED {
        for piece in PIECES {
            line_writes_fail(&rt, rt.alloc(), refused, piece)?;
        }
    }
    Ok(())
}
