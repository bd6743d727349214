//! The lines that are written of groups: room for one is made first, then it is put without memory.
ghost use Rattle.std.specs.Prelude.{◌≡◌, ◌≤◌, ◌+◌, ◌++◌, ◌∷◌, [], OnOk, length};
ghost use Rattle.std.specs.Prelude.{vec_len, vec_capacity};
ghost use Rattle.std.specs.List.{flat_map};
ghost use Rattle.reg_base.specs.Numbers.{number_text};
ghost use Rattle.csv_import.specs.Imports.{outcome_text};
ghost use Rattle.csv_import.specs.Posting.{counts_text};

use crate::counts::Counts;
use crate::outcome::Outcome;
use itoa::Buffer;
use reg_base::{Code, Memory};

// How many bytes a line has at the most.
const LONGEST_LINE: usize = 64;

// Makes room for a line.
pub(crate) fn make_room(out: &mut Vec<u8>) -> Result<(), Memory>
    ensures room { OnOk result (vec_len out.new + 64 ≤ vec_capacity out.new) }
    ensures same { out.new.items ≡ out.old.items }
{
    out.reserve(LONGEST_LINE)?;
    Ok(())
}

// Puts the line of a group, for which there is room.
pub(crate) fn put_line(out: &mut Vec<u8>, key: &Code, outcome: &Outcome)
    requires room { vec_len out.old + 64 ≤ vec_capacity out.old }
    ensures { out.new.items ≡ out.old.items ++ (key.now ++ outcome_text outcome.now) }
{
    match outcome {
        Outcome::Posted(doc) => put_outcome(out, key, " posted ", u64::from(*doc)),
        Outcome::There(doc) => put_outcome(out, key, " there ", u64::from(*doc)),
        Outcome::Refused(number) => put_outcome(out, key, " refused ", *number),
    }
}

fn put_outcome(out: &mut Vec<u8>, key: &Code, word: &str, number: u64)
    requires room { vec_len out.old + 64 ≤ vec_capacity out.old }
    requires short { length word.now ≤ 9 }
    ensures { out.new.items
        ≡ out.old.items ++ (key.now ++ (word.now ++ (number_text number ++ 10 ∷ []))) }
{
    let mut buffer = Buffer::new();
    let number = digits(&mut buffer, number);
    put_pieces(out, &[key.as_str(), word, number, "\n"]);
}

// Puts the last line, for which there is room.
pub(crate) fn put_counts(out: &mut Vec<u8>, counts: &Counts)
    requires room { vec_len out.old + 64 ≤ vec_capacity out.old }
    ensures { out.new.items ≡ out.old.items ++ counts_text counts.now }
{
    let mut posted_buffer = Buffer::new();
    let mut there_buffer = Buffer::new();
    let mut refused_buffer = Buffer::new();
    let posted = short_digits(&mut posted_buffer, counts.posted);
    let there = short_digits(&mut there_buffer, counts.there);
    let refused = short_digits(&mut refused_buffer, counts.refused);
    put_pieces(
        out,
        &[
            "posted ",
            posted,
            " there ",
            there,
            " refused ",
            refused,
            "\n",
        ],
    );
}

// The digits of a number, without memory.
fn digits(buffer: &mut Buffer, number: u64) -> &str
    ensures text { result.now ≡ number_text number }
    ensures short { length result.now ≤ 20 }
{
    buffer.format(number)
}

// The digits of a count, without memory.
fn short_digits(buffer: &mut Buffer, number: u32) -> &str
    ensures text { result.now ≡ number_text number }
    ensures short { length result.now ≤ 10 }
{
    buffer.format(number)
}

// Puts the pieces of a line one after another.
fn put_pieces(out: &mut Vec<u8>, pieces: &[&str])
    requires room { vec_len out.old + length (flat_map (λ piece. piece.now) pieces.now)
        ≤ vec_capacity out.old }
    ensures { out.new.items ≡ out.old.items ++ flat_map (λ piece. piece.now) pieces.now }
{
    'put: for piece in pieces {
        put_text(out, piece.as_bytes());
    }
}

// Puts a text, for which there is room.
fn put_text(out: &mut Vec<u8>, text: &[u8])
    requires room { vec_len out.old + length text.now ≤ vec_capacity out.old }
    ensures text { out.new.items ≡ out.old.items ++ text.now }
    ensures len { vec_len out.new ≡ vec_len out.old + length text.now }
    ensures capacity { vec_capacity out.old ≤ vec_capacity out.new }
{
    out.extend_from_slice(text).unwrap();
}
