//! The line that counts what a journal holds.
ghost use Rattle.std.specs.Prelude.{◌≡◌, IfOk, string_bytes};
ghost use Rattle.desk_core.specs.Counts.{counts_of};
ghost use Rattle.desk_run.specs.CheckTexts.{check_text as text_of_check};
ghost use Rattle.desk_run.specs.Texts.{WritesText};

use crate::fault::TextFault;
use desk_core::{Counts, Desk};
use reg_base::Memory;
use reg_io::{Sink, write_all};
use std::alloc::Global;

// Writes how many documents the desk has, how many of their records and entries count, and how many
// entries its journal has.
pub(crate) fn write_counts<O: Sink>(
    alloc: Global,
    desk: &Desk,
    entries: usize,
    out: &mut O,
) -> Result<(), TextFault>
    ensures { WritesText (text_of_check (counts_of desk.now.desk.serial.documents) entries)
        (O.taken out.old) (O.taken out.new) (O.write_faults out.old) (O.write_faults out.new)
        result }
{
    let Counts {
        documents,
        records,
        postings,
    } = desk.counts();
    let text = check_text(alloc, documents, records, postings, entries)?;
    write_text(out, text.as_bytes())
}

// The line of these counts.
fn check_text(
    alloc: Global,
    documents: u32,
    records: u32,
    postings: u32,
    entries: usize,
) -> Result<String, Memory>
    ensures { IfOk result (λ text. string_bytes text ≡ text_of_check (record {
      documents = documents;
      records = records;
      postings = postings;
    }) entries) }
{
    let text = format!(in alloc;
        "documents {documents} records {records} postings {postings} journal {entries}\n"
    )?;
    Ok(text)
}

// Writes a text in one call.
pub(crate) fn write_text<O: Sink>(out: &mut O, text: &[u8]) -> Result<(), TextFault>
    ensures { WritesText text.now (O.taken out.old) (O.taken out.new) (O.write_faults out.old)
        (O.write_faults out.new) result }
{
    write_all(out, text)?;
    Ok(())
}
