//! Tests of a store: documents put, replaced and removed, and what slot 0 sees before that.
ghost use Rattle.std.specs.Prelude.{◌≡◌, [], length};
ghost use Rattle.doc_store.specs.Stores.{IsViewer};

use crate::rows::expect;
use doc_store::Store;
use reg_base::{Code, Comment, Date, Doc, DocState, List, Memory, Sets};
use std::alloc::Global;

// How many documents a walk goes over.
fn walked(store: &Store) -> usize
    ensures { result ≡ length store.now.documents }
{
    let mut count = 0;
    'documents: for _document in store.walk() {
        count += 1;
    }
    count
}

fn doc_of(alloc: Global, date: Date, number: u32, key: &str) -> Doc {
    Doc {
        number,
        kind: None,
        date,
        head: List::new(alloc),
        lines: List::new(alloc),
        comment: Comment::empty(alloc),
        key: Code::parse(key),
        state: DocState::Posted,
        active: true,
    }
}

// Stages a removal, where there is no key, or a document with this key.
fn stage(alloc: Global, store: &mut Store, number: u32, key: Option<&str>) -> Result<(), Memory>
    requires { store.old.staged ≡ [] }
{
    let Some(key) = key else {
        return store.stage_removal(0, number);
    };
    let Ok(date) = Date::parse("2024-01-10") else {
        return Ok(());
    };
    let doc = doc_of(alloc, date, number, key);
    let sets = Sets {
        registers: List::new(alloc),
        ledgers: List::new(alloc),
    };
    store.room(0, &doc, &sets)?;
    store.stage(0, doc, sets);
    Ok(())
}

// The holder of a key.
fn holder(store: &Store, viewer: Option<u8>, key: &str) -> Option<u32>
    requires { IsViewer viewer }
{
    store.by_key(viewer, &Code::parse(key)?)
}

// How many documents there are, the holders of the keys `a` and `b`, and whether there is a
// document 2.
type Wanted = (usize, Option<u32>, Option<u32>, bool);

// Whether a store shows this.
fn shows(store: &Store, wanted: &Wanted) -> bool {
    let (count, a, b, second) = *wanted;
    store.count() == count
        && walked(store) == count
        && holder(store, None, "a") == a
        && holder(store, None, "b") == b
        && store.doc(None, 2).is_some() == second
        && store.document(2).is_some() == second
}

// Stages a change, and keeps or drops it.
fn change(alloc: Global, store: &mut Store, number: u32, key: Option<&str>, keeps: bool) -> bool
    requires { store.old.staged ≡ [] }
    ensures { store.new.staged ≡ [] }
{
    let staged = stage(alloc, store, number, key);
    if keeps {
        store.keep(0);
    } else {
        store.drop_slot(0);
    }
    staged.is_ok()
}

// A document with a key, or without one where the key is empty, or a removal; whether it is kept;
// and what stands then.
const CHANGES: [(&str, u32, Option<&str>, bool, Wanted); 10] = [
    ("one put", 2, Some("a"), true, (1, Some(2), None, true)),
    ("put before", 1, Some("a"), true, (2, Some(1), None, true)),
    ("dropped", 3, Some("b"), false, (2, Some(1), None, true)),
    (
        "put behind",
        3,
        Some("b"),
        true,
        (3, Some(1), Some(3), true),
    ),
    (
        "key changed",
        1,
        Some("b"),
        true,
        (3, Some(2), Some(1), true),
    ),
    (
        "change dropped",
        1,
        Some("a"),
        false,
        (3, Some(2), Some(1), true),
    ),
    (
        "removal dropped",
        2,
        None,
        false,
        (3, Some(2), Some(1), true),
    ),
    ("removed", 2, None, true, (2, None, Some(1), false)),
    ("nothing removed", 2, None, true, (2, None, Some(1), false)),
    (
        "key taken away",
        1,
        Some(""),
        true,
        (2, None, Some(3), false),
    ),
];

#[test]
fn documents_are_found_by_number_and_by_key(rt: HostRuntime) -> Result<(), Memory> {
    let mut store = Store::new(rt.alloc(), 1, 0)?;
    'changes: for (says, number, key, keeps, wanted) in &CHANGES {
        let done = change(rt.alloc(), &mut store, *number, *key, *keeps);
        expect(&rt, says, done && shows(&store, wanted));
    }
    Ok(())
}

// A change of a store with document 1 of key `a` and document 3 of key `b`, and then the holders of
// both keys and whether there is a document 3, as slot 0 sees them.
const STAGED: [(&str, u32, Option<&str>, Option<u32>, Option<u32>, bool); 5] = [
    ("new one", 2, Some("b"), Some(1), Some(2), true),
    ("second of a key", 4, Some("a"), Some(1), Some(3), true),
    ("key changed", 1, Some("b"), None, Some(1), true),
    ("removed", 3, None, Some(1), None, false),
    ("nothing removed", 7, None, Some(1), Some(3), true),
];

fn slot_shows(store: &Store, a: Option<u32>, b: Option<u32>, third: bool) -> bool {
    holder(store, Some(0), "a") == a
        && holder(store, Some(0), "b") == b
        && store.doc(Some(0), 3).is_some() == third
        && shows(store, &(2, Some(1), Some(3), false))
}

#[test]
fn slot_0_alone_sees_what_is_staged(rt: HostRuntime) -> Result<(), Memory> {
    let mut store = Store::new(rt.alloc(), 1, 0)?;
    let first = change(rt.alloc(), &mut store, 1, Some("a"), true);
    let second = change(rt.alloc(), &mut store, 3, Some("b"), true);
    expect(&rt, &"two put", first && second);
    'staged: for (says, number, key, a, b, third) in &STAGED {
        let staged = stage(rt.alloc(), &mut store, *number, *key).is_ok();
        expect(&rt, says, staged && slot_shows(&store, *a, *b, *third));
        store.drop_slot(0);
    }
    Ok(())
}

#[test]
fn documents_are_walked_in_order(rt: HostRuntime) -> Result<(), Memory> {
    let mut store = Store::new(rt.alloc(), 1, 0)?;
    'numbers: for number in 0..300 {
        let done = change(rt.alloc(), &mut store, 300 - number, Some("a"), true);
        expect(&rt, &number, done);
    }
    let first = store.walk().next().map(|document| document.doc.number);
    let is_right = first == Some(1) && holder(&store, None, "a") == Some(1);
    expect(
        &rt,
        &"all",
        is_right && walked(&store) == 300 && store.count() == 300,
    );
    Ok(())
}
