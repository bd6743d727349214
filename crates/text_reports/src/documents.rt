//! The list of documents.
ghost use Rattle.std.specs.Prelude.{◌≡◌, ◌++◌, ◌∷◌, map, codes, IfOk, OnOk, OnErr};
ghost use Rattle.text_reports.specs.ShownValues.{shown_or};
ghost use Rattle.text_reports.specs.DocumentLists.{document_list_text, list_header as words};
ghost use Rattle.text_reports.specs.DocumentLists.{list_line as line_of};

use crate::cells::{header, shown_number, shown_state};
use crate::table::{Align, Column, print_report};
use reg_base::{Code, DocRow, List, Memory, Name, Text};
use std::alloc::Global;

// The columns; nothing follows the key.
const NUMBER: Column = Column {
    width: 10,
    align: Align::Right,
};

const DATE: Column = Column {
    width: 19,
    align: Align::Left,
};

const KIND: Column = Column {
    width: 24,
    align: Align::Left,
};

const STATE: Column = Column {
    width: 8,
    align: Align::Left,
};

const KEY: Column = Column {
    width: 0,
    align: Align::Bare,
};

const COLUMNS: [Column; 5] = [NUMBER, DATE, KIND, STATE, KEY];

/// Appends a list of documents, a line for each row, in their order: number, date, kind (`manual`
/// where there is none), state, and key (a dash where there is none).
#[tactic(auto, unfolding(crate::specs::DocumentLists::document_list_text))]
pub fn document_list(alloc: Global, docs: &[DocRow], out: &mut Vec<u8>) -> Result<(), Memory>
    ensures ok { OnOk result (out.new.items ≡ out.old.items ++ document_list_text docs.now) }
    ensures err { OnErr result (out.new.items ≡ out.old.items) }
{
    let lines = document_lines(alloc, docs)?;
    print_report(alloc, &COLUMNS, lines.as_slice(), out)
}

fn document_lines(alloc: Global, docs: &[DocRow]) -> Result<List<List<Text>>, Memory>
    ensures { IfOk result (λ lines. lines ≡ words ∷ map line_of docs.now) }
{
    let mut lines = List::new(alloc);
    lines.push(list_header(alloc)?)?;
    'docs: for doc in docs {
        lines.push(document_line(alloc, doc)?)?;
    }
    Ok(lines)
}

fn list_header(alloc: Global) -> Result<List<Text>, Memory>
    ensures { IfOk result (λ cells. cells ≡ words) }
{
    header(alloc, &["number", "date", "kind", "state", "key"])
}

fn document_line(alloc: Global, doc: &DocRow) -> Result<List<Text>, Memory>
    ensures { IfOk result (λ cells. cells ≡ line_of doc.now) }
{
    let mut cells = List::new(alloc);
    cells.push(Text::from_string(shown_number(alloc, doc.number)?))?;
    cells.push(Text::from_string(doc.date.to_text(alloc)?))?;
    cells.push(Text::from_str(alloc, kind_or_manual(&doc.kind))?)?;
    cells.push(Text::from_str(alloc, shown_state(doc.state))?)?;
    cells.push(Text::from_str(alloc, key_or_dash(&doc.key))?)?;
    Ok(cells)
}

// The kind, or the word for a manual document.
fn kind_or_manual(kind: &Option<Name>) -> &str
    ensures { result.now ≡ shown_or (codes "manual") kind.now }
{
    match kind {
        Some(name) => name.as_str(),
        None => "manual",
    }
}

fn key_or_dash(key: &Option<Code>) -> &str
    ensures { result.now ≡ shown_or (codes "-") key.now }
{
    match key {
        Some(code) => code.as_str(),
        None => "-",
    }
}
