//! Lists of documents.
ghost use Rattle.std.specs.Prelude.{◌≡◌, ◌++◌, IfOk, OnOk};
ghost use Rattle.std.specs.Option.{option_copied};
ghost use Rattle.reg_base.specs.Documents.{AreInOrder};
ghost use Rattle.reg_base.specs.Tries.{Tries};
ghost use Rattle.desk_model.specs.Questions.{IsAnswer, question_documents};
ghost use Rattle.desk_model.specs.Serial.{question_answer};
ghost use Rattle.desk_tables.specs.Listed.{row_if, rows_at};

use crate::registers::range_of;
use cfg_model::Config;
use desk_plans::{PartFault, Tried, document_kind};
use desk_words::{Answer, DocumentsQuestion, Refusal};
use doc_store::Store;
use reg_base::{DocRow, Document, List, Memory, Name, ROW_LIMIT, TableFault};
use std::alloc::Global;

/// What `documents` is answered.
pub fn answer_documents(
    alloc: Global,
    config: &Config,
    store: &Store,
    question: &DocumentsQuestion,
) -> Tried<Answer>
    ensures value { Tries result (question_answer store.now.documents
        (question_documents config.now question.now)) }
    ensures answer { IfOk result IsAnswer }
{
    order_holds(store);
    let range = range_of(&question.dates, &None);
    let numbers = store.documents(range.from, range.to)?;
    if numbers.len() > ROW_LIMIT as usize {
        return Err(PartFault::Refused(Refusal::Table {
            fault: TableFault::TooManyRows { limit: ROW_LIMIT },
        }));
    }
    let rows = rows_of(alloc, config, store, numbers.as_slice())?;
    Ok(Answer::Documents { rows })
}

// The documents of a store stand in order of number: so each is found by its number.
fn order_holds(store: &Store)
    ensures { AreInOrder store.now.documents }
{
    store.walk();
}

// The rows of the documents of these numbers.
fn rows_of(
    alloc: Global,
    config: &Config,
    store: &Store,
    numbers: &[u32],
) -> Result<List<DocRow>, Memory>
    ensures { IfOk result (λ rows. rows ≡ rows_at config.now store.now.documents numbers.now) }
{
    let mut rows = Vec::new(alloc);
    for number in numbers {
        push_row(&mut rows, config, store.document(*number))?;
    }
    Ok(List::from_vec(rows))
}

// Puts the row of a document behind the others, where there is one.
fn push_row(
    rows: &mut Vec<DocRow>,
    config: &Config,
    document: Option<&Document>,
) -> Result<(), Memory>
    ensures { OnOk result (rows.new.items
        ≡ rows.old.items ++ row_if config.now (option_copied document.entry)) }
{
    if let Some(document) = document {
        let kind = document_kind(config, document);
        rows.push(row_of(document, kind))?;
    }
    Ok(())
}

// The row of a document of a type of this name.
fn row_of(document: &Document, kind: Option<Name>) -> DocRow
    ensures { result ≡ record {
      number = document.now.doc.number;
      date = document.now.doc.date;
      kind = kind;
      key = document.now.doc.key;
      state = document.now.doc.state;
    } }
{
    let doc = &document.doc;
    DocRow {
        number: doc.number,
        date: doc.date,
        kind,
        key: doc.key,
        state: doc.state,
    }
}
