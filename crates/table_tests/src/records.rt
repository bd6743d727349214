//! The records that the tables of the tests are made of.
ghost use Rattle.std.specs.Prelude.{◌≡◌, [], All, length, nat_le, true};
ghost use Rattle.std.specs.List.{list_all};
ghost use Rattle.virt_tables.specs.Bounds.{HasShortRecords};

use cfg_model::{Dimension, Register, Resource};
use doc_store::Store;
use reg_base::{
    Code, Comment, Date, Doc, DocState, Document, List, Mark, Memory, Name, Rec, Scale, Sets, Value,
};
use std::alloc::Global;

// The document, the line, the day, the mark, the item and the number of each record.
const RECORDS: [(u32, u16, &str, Mark, &str, i64); 7] = [
    (2, 1, "2023-12-30", Mark::Receipt, "a", 10),
    (2, 2, "2024-01-05", Mark::Expense, "a", 3),
    (2, 3, "2024-01-05", Mark::Receipt, "b", 7),
    (1, 1, "2024-01-05", Mark::Receipt, "a", 3),
    (1, 2, "2024-02-29", Mark::Expense, "b", 2),
    (1, 3, "2024-03-01", Mark::Receipt, "c", 9),
    (1, 4, "2023-12-31", Mark::Receipt, "d", 4),
];

// The values of a record of an item.
fn values_of(alloc: Global, item: &str) -> Option<List<Value>> {
    let mut values = List::new(alloc);
    values.push(Value::Code(Code::parse(item)?)).ok()?;
    Some(values)
}

// The sums of a record with a number.
fn sums_of(alloc: Global, number: i64) -> Option<List<i64>> {
    let mut sums = List::new(alloc);
    sums.push(number).ok()?;
    Some(sums)
}

// The records of a document.
fn records_of(alloc: Global, number: u32) -> Option<List<Rec>> {
    let mut records = List::new(alloc);
    'records: for (document, line, day, mark, item, sum) in &RECORDS {
        if *document != number {
            continue;
        }
        let record = Rec {
            line: *line,
            period: Date::parse(day).ok()?,
            mark: *mark,
            values: values_of(alloc, item)?,
            sums: sums_of(alloc, *sum)?,
        };
        records.push(record).ok()?;
    }
    Some(records)
}

fn doc_of(alloc: Global, date: Date, number: u32) -> Doc {
    Doc {
        number,
        kind: None,
        date,
        head: List::new(alloc),
        lines: List::new(alloc),
        comment: Comment::empty(alloc),
        key: None,
        state: DocState::Posted,
        active: true,
    }
}

// The sets of a document with these records in the first register.
fn sets_of(alloc: Global, records: List<Rec>) -> Option<Sets> {
    let mut registers = List::new(alloc);
    registers.push(records).ok()?;
    Some(Sets {
        registers,
        ledgers: List::new(alloc),
    })
}

// Stages a document, and keeps it.
fn put(store: &mut Store, doc: Doc, sets: Sets) -> Result<(), Memory>
    requires { store.old.staged ≡ [] }
    ensures { store.new.staged ≡ [] }
{
    store.room(0, &doc, &sets)?;
    store.stage(0, doc, sets);
    store.keep(0);
    Ok(())
}

// Puts a document of a day with its records.
fn put_of(alloc: Global, store: &mut Store, number: u32, day: &str) -> Option<()>
    requires { store.old.staged ≡ [] }
    ensures { store.new.staged ≡ [] }
{
    let date = Date::parse(day).ok()?;
    let sets = sets_of(alloc, records_of(alloc, number)?)?;
    put(store, doc_of(alloc, date, number), sets).ok()
}

/// The documents of all records; none where memory is wanted.
pub(crate) fn store_of(alloc: Global) -> Option<Store> {
    let mut store = Store::new(alloc, 1, 0).ok()?;
    put_of(alloc, &mut store, 2, "2023-12-30")?;
    put_of(alloc, &mut store, 1, "2024-01-05")?;
    Some(store)
}

// Whether the sets of a document are short.
fn is_short(document: &Document) -> bool
    ensures { result ≡ list_all (λ set. nat_le (length set) 5_000) document.now.sets.registers }
{
    document
        .sets
        .registers
        .as_slice()
        .iter()
        .all(|set| set.len() <= 5_000)
}

/// Whether the sets of all documents are short, as a table asks.
pub(crate) fn are_short(store: &Store) -> bool
    ensures { result ≡ true → All HasShortRecords store.now.documents }
{
    'documents: for document in store.walk() {
        if !is_short(document) {
            return false;
        }
    }
    true
}

/// A register of items, with or without balances.
pub(crate) fn register_of(alloc: Global, balance: bool) -> Option<Register> {
    let mut dimensions = List::new(alloc);
    let name = Name::parse("item")?;
    dimensions.push(Dimension { name, lot: false }).ok()?;
    let mut resources = List::new(alloc);
    let name = Name::parse("count")?;
    let scale = Scale::new(0)?;
    resources.push(Resource { name, scale }).ok()?;
    Some(Register {
        name: Name::parse("stock")?,
        balance,
        dimensions,
        resources,
        split: false,
    })
}
