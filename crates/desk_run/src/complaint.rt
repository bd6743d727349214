//! The line of a fault on the error output, written in pieces so that it takes no memory.
ghost use Rattle.std.specs.Prelude.{◌≡◌, ◌++◌, codes, map, None, Some, string_bytes, OnOk, OnErr};
ghost use Rattle.std.specs.List.{flat_map};
ghost use Rattle.std.specs.Io.KnownBytes.{Appends};
ghost use Rattle.reg_io.specs.Counts.{AppendsPrefix, HasCause};
ghost use Rattle.reg_base.specs.Numbers.{number_text};
ghost use Rattle.cfg_model.specs.FaultTexts.{count_text, config_fault_text};
ghost use Rattle.rule_lang.specs.FaultTexts.{rule_fault_text, words as rule_words};
ghost use Rattle.desk_run.specs.FaultLines.{file_word, job_line, opening_line};
ghost use Rattle.desk_run.specs.FaultLines.{program_line, row_line, row_words, setup_line};
ghost use Rattle.desk_run.specs.declared.fault.NamedFile.TheVariants as NamedFileIs;
ghost use Rattle.desk_run.specs.Ends.{Complains, WritesLine};

use crate::fault::{Fault, JobFault, NamedFile, OpeningFault, SetupFault};
use cfg_model::CfgFault;
use csv_groups::RowWhy;
use itoa::Buffer;
use reg_io::{Sink, SinkFault, write_all};
use rule_lang::RuleFault;

/// Writes the line of the end's fault, where there is one. A fault of the writing is not reported.
pub fn complain<E: Sink>(words: &[String], end: &Result<(), Fault>, err: &mut E)
    ensures { Complains (map (λ w. string_bytes w) words.now) end.now
        (E.taken err.old) (E.taken err.new) (E.write_faults err.old) (E.write_faults err.new) }
{
    let Err(fault) = end else {
        return;
    };
    match fault {
        Fault::Usage => write_line(err, &["regdesk: usage: regdesk COMMAND\n"]),
        Fault::Setup(fault) => write_setup_fault(err, words, fault),
        Fault::Opening(fault) => write_opening_fault(err, fault),
        Fault::Job(fault) => write_job_fault(err, fault),
    }
}

// Writes the line of a desk that was not set up.
fn write_setup_fault<E: Sink>(err: &mut E, words: &[String], fault: &SetupFault)
    ensures { WritesLine (setup_line (map (λ w. string_bytes w) words.now) fault.now)
        (E.taken err.old) (E.taken err.new) (E.write_faults err.old) (E.write_faults err.new) }
{
    match fault {
        SetupFault::Failed { file } => {
            write_line(err, &["regdesk: file ", file_word(words, *file), "\n"])
        }
        SetupFault::TooLong => write_line(err, &["regdesk: too long\n"]),
        SetupFault::Configuration { fault } => write_config_fault(err, fault),
        SetupFault::Rules { fault } => write_rules_fault(err, fault),
        SetupFault::Memory => write_line(err, &["regdesk: memory\n"]),
    }
}

// Writes the line of a journal that does not open.
fn write_opening_fault<E: Sink>(err: &mut E, fault: &OpeningFault)
    ensures { WritesLine (opening_line fault.now)
        (E.taken err.old) (E.taken err.new) (E.write_faults err.old) (E.write_faults err.new) }
{
    match fault {
        OpeningFault::NotAJournal => write_line(err, &["regdesk: journal: not a journal\n"]),
        OpeningFault::BadEntry { place } => write_number(err, "bad entry at ", *place),
        OpeningFault::Entry { index } => write_number(err, "entry ", u64::from(*index)),
        OpeningFault::Disk => write_line(err, &["regdesk: disk\n"]),
        OpeningFault::Memory => write_line(err, &["regdesk: memory\n"]),
    }
}

// Writes the line of what was not done to its end.
fn write_job_fault<E: Sink>(err: &mut E, fault: &JobFault)
    ensures { WritesLine (job_line fault.now)
        (E.taken err.old) (E.taken err.new) (E.write_faults err.old) (E.write_faults err.new) }
{
    match fault {
        JobFault::Row { row, why } => write_row_fault(err, u64::from(*row), why),
        JobFault::Refused { line } => write_refusal(err, line.as_slice()),
        JobFault::InputTooLong => write_line(err, &["regdesk: too long\n"]),
        JobFault::Read => write_line(err, &["regdesk: read\n"]),
        JobFault::Write => write_line(err, &["regdesk: write\n"]),
        JobFault::Disk => write_line(err, &["regdesk: disk\n"]),
        JobFault::Memory => write_line(err, &["regdesk: memory\n"]),
    }
}

// Writes the line of a row that is refused.
fn write_row_fault<E: Sink>(err: &mut E, row: u64, why: &RowWhy)
    ensures { WritesLine (row_line row why.now)
        (E.taken err.old) (E.taken err.new) (E.write_faults err.old) (E.write_faults err.new) }
{
    let mut row_buffer = Buffer::new();
    let mut number_buffer = Buffer::new();
    let row = digits(&mut row_buffer, row);
    let number = digits(&mut number_buffer, why.number());
    match why {
        RowWhy::Shape => write_row(err, row, number, why.name()),
        RowWhy::UnknownColumn { column } => {
            write_row_column(err, row, number, why.name(), column.as_str())
        }
        RowWhy::MissingColumn { column } => {
            write_row_column(err, row, number, why.name(), column.as_str())
        }
        RowWhy::BadValue { column } => {
            write_row_column(err, row, number, why.name(), column.as_str())
        }
        RowWhy::Scattered => write_row(err, row, number, why.name()),
        RowWhy::HeadDiffers { column } => {
            write_row_column(err, row, number, why.name(), column.as_str())
        }
    }
}

// Writes the line of a row without a column.
fn write_row<E: Sink>(err: &mut E, row: &str, number: &str, name: &str)
    ensures { WritesLine (row_words row.now number.now name.now None)
        (E.taken err.old) (E.taken err.new) (E.write_faults err.old) (E.write_faults err.new) }
{
    write_line(err, &["regdesk: row ", row, ": ", number, " ", name, "\n"]);
}

// Writes the line of a row with the column of its fault.
fn write_row_column<E: Sink>(err: &mut E, row: &str, number: &str, name: &str, column: &str)
    ensures { WritesLine (row_words row.now number.now name.now (Some column.now))
        (E.taken err.old) (E.taken err.new) (E.write_faults err.old) (E.write_faults err.new) }
{
    write_line(
        err,
        &[
            "regdesk: row ",
            row,
            ": ",
            number,
            " ",
            name,
            " ",
            column,
            "\n",
        ],
    );
}

// Writes the line of a reply behind its front.
fn write_refusal<E: Sink>(err: &mut E, line: &[u8])
    ensures { WritesLine (codes "regdesk: refused: " ++ line.now)
        (E.taken err.old) (E.taken err.new) (E.write_faults err.old) (E.write_faults err.new) }
{
    match write_all(err, "regdesk: refused: ".as_bytes()) {
        Ok(()) => write_end(err, line),
        Err(_) => {}
    }
}

// Writes bytes, and lets a fault of the writing be.
fn write_end<E: Sink>(err: &mut E, bytes: &[u8])
    ensures { WritesLine bytes.now
        (E.taken err.old) (E.taken err.new) (E.write_faults err.old) (E.write_faults err.new) }
{
    match write_all(err, bytes) {
        Ok(()) => {}
        Err(_) => {}
    }
}

// Writes the line of a journal whose fault has a number.
fn write_number<E: Sink>(err: &mut E, front: &str, number: u64)
    ensures { WritesLine (program_line (codes "journal: ") (front.now ++ number_text number))
        (E.taken err.old) (E.taken err.new) (E.write_faults err.old) (E.write_faults err.new) }
{
    let mut buffer = Buffer::new();
    let number = digits(&mut buffer, number);
    write_line(err, &["regdesk: journal: ", front, number, "\n"]);
}

// Writes the line of a configuration that is refused.
fn write_config_fault<E: Sink>(err: &mut E, fault: &CfgFault)
    ensures { WritesLine (program_line (codes "configuration: ") (config_fault_text fault.now))
        (E.taken err.old) (E.taken err.new) (E.write_faults err.old) (E.write_faults err.new) }
{
    match fault {
        CfgFault::NotToml => write_line(err, &["regdesk: configuration: 1 NotToml\n"]),
        CfgFault::Field { path } => {
            write_line(
                err,
                &["regdesk: configuration: 2 Field ", path.as_str(), "\n"],
            )
        }
        CfgFault::Twice { name } => {
            write_line(
                err,
                &["regdesk: configuration: 3 Twice ", name.as_str(), "\n"],
            )
        }
        CfgFault::Unknown { name } => {
            write_line(
                err,
                &["regdesk: configuration: 4 Unknown ", name.as_str(), "\n"],
            )
        }
        CfgFault::Count { what, number } => {
            write_count_fault(err, what.as_str(), *number as u64)
        }
        CfgFault::Memory => write_line(err, &["regdesk: configuration: 0 Memory\n"]),
    }
}

// Writes the line of a limit that is passed at a path.
fn write_count_fault<E: Sink>(err: &mut E, what: &str, number: u64)
    ensures { WritesLine (program_line (codes "configuration: ") (count_text what.now number))
        (E.taken err.old) (E.taken err.new) (E.write_faults err.old) (E.write_faults err.new) }
{
    let mut buffer = Buffer::new();
    let number = digits(&mut buffer, number);
    write_line(
        err,
        &["regdesk: configuration: 5 Count ", what, " ", number, "\n"],
    );
}

// Writes the line of rules that are refused.
fn write_rules_fault<E: Sink>(err: &mut E, fault: &RuleFault)
    ensures { WritesLine (program_line (codes "rules: ") (rule_fault_text fault.now))
        (E.taken err.old) (E.taken err.new) (E.write_faults err.old) (E.write_faults err.new) }
{
    match fault {
        RuleFault::Wrong { kind, place, why } => {
            write_wrong_rule(err, kind.as_str(), *place as u64, why.number())
        }
        RuleFault::Memory => write_line(err, &["regdesk: rules: memory\n"]),
    }
}

// Writes the line of a rule that is wrong: document type, place and number of the reason.
fn write_wrong_rule<E: Sink>(err: &mut E, kind: &str, place: u64, reason: u8)
    ensures { WritesLine (program_line (codes "rules: ") (rule_words kind.now place reason))
        (E.taken err.old) (E.taken err.new) (E.write_faults err.old) (E.write_faults err.new) }
{
    let mut place_buffer = Buffer::new();
    let mut reason_buffer = Buffer::new();
    let place = digits(&mut place_buffer, place);
    let reason = digits(&mut reason_buffer, u64::from(reason));
    write_line(
        err,
        &["regdesk: rules: ", kind, " ", place, " ", reason, "\n"],
    );
}

// The digits of a number, without memory.
fn digits(buffer: &mut Buffer, number: u64) -> &str
    ensures { result.now ≡ number_text number }
{
    buffer.format(number)
}

// Writes the pieces of a line, and lets a fault of the writing be.
fn write_line<E: Sink>(err: &mut E, pieces: &[&str])
    ensures { WritesLine (flat_map (λ piece. piece.now) pieces.now)
        (E.taken err.old) (E.taken err.new) (E.write_faults err.old) (E.write_faults err.new) }
{
    match write_pieces(err, pieces) {
        Ok(()) => {}
        Err(_) => {}
    }
}

// Writes the pieces one after another, up to the first that is not taken whole.
fn write_pieces<E: Sink>(err: &mut E, pieces: &[&str]) -> Result<(), SinkFault>
    ensures ok { OnOk result (Appends (E.taken err.old) (E.taken err.new)
        (flat_map (λ piece. piece.now) pieces.now)) }
    ensures front { OnErr result (AppendsPrefix (E.taken err.old) (E.taken err.new)
        (flat_map (λ piece. piece.now) pieces.now)) }
    ensures cause { HasCause (E.write_faults err.old) (E.write_faults err.new) result }
{
    'written: for piece in pieces {
        write_all(err, piece.as_bytes())?;
    }
    Ok(())
}

// The file that the words name in a place.
fn file_word(words: &[String], file: NamedFile) -> &str
    ensures { result.now ≡ file_word file (map (λ w. string_bytes w) words.now) }
{
    match file {
        NamedFile::Configuration => second_word(words),
        NamedFile::Documents => third_word(words),
    }
}

fn second_word(words: &[String]) -> &str
    ensures { result.now
        ≡ file_word NamedFileIs.Configuration (map (λ w. string_bytes w) words.now) }
{
    match words {
        [_, name, ..] => name.as_str(),
        _ => "",
    }
}

fn third_word(words: &[String]) -> &str
    ensures { result.now ≡ file_word NamedFileIs.Documents (map (λ w. string_bytes w) words.now) }
{
    match words {
        [_, _, name, ..] => name.as_str(),
        _ => "",
    }
}
