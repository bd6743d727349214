//! The walk over the entries of documents.
ghost use Rattle.std.specs.Prelude.{◌≡◌, ℕ, ◌≤◌, ◌<◌, ◌^◌, ◌*◌, List, [], ◌∷◌, length, map, filter};
ghost use Rattle.std.specs.Prelude.{All, IfOk};
ghost use Rattle.std.specs.List.{flat_map};
ghost use Rattle.reg_base.specs.BookedEntries.{BookedEntry, entered_by};
ghost use Rattle.ledger_reg.specs.Walks.{Adds, booked, counts as counts_in, HasShortLedgers};

use doc_store::Documents;
use reg_base::{Cut, DocState, Document, Memory, Point, Posting, Range, inside};
use std::alloc::Global;

/// What is summed over entries.
pub(crate) trait Gathers {
    ghost use Rattle.ledger_reg.specs.declared.walk.Span.{Span};

    // Whether these are the entries of a span that it sums.
    ghost holds: { Span → List BookedEntry → Self → Type 0 };

    // How large its numbers are, all together.
    ghost size: { Self → ℕ };

    /// Adds an entry of a span.
    fn add(&mut self, alloc: Global, posting: &Posting, span: &Span) -> Result<(), Memory>
        requires { size self.old ≤ 2 ^ 64 * 2 ^ 46 }
        ensures { (number : ℕ) → IfOk result (λ _.
            Adds (holds span.now) size (booked number posting.now ∷ []) self.old self.new) };
}

/// Which entries are counted: those inside a cut, those whose dates are in a range, or all, which
/// a range tells apart.
#[derive(Drop)]
pub(crate) enum Span {
    Inside(Cut),
    During(Range),
    Through(Range),
}

/// Adds the entries of documents that a span counts.
pub(crate) fn add_documents<S: Gathers>(
    alloc: Global,
    sums: &mut S,
    documents: Documents<'_>,
    ledger: usize,
    span: &Span,
) -> Result<(), Memory>
    requires few { length documents < 2 ^ 32 }
    requires short { All HasShortLedgers documents }
    requires small { S.size sums.old ≡ 0 }
    ensures { IfOk result (λ _. Adds (S.holds span.now) S.size
        (filter (counts_in span.now) (flat_map (entered_by ledger) documents.entry))
        sums.old sums.new) }
{
    for document in documents {
        let set = entered_set(document, ledger);
        add_set(alloc, sums, set, document.doc.number, span)?;
    }
    Ok(())
}

// The entries of a document in a ledger, where they count.
fn entered_set(document: &Document, ledger: usize) -> &[Posting]
    requires { HasShortLedgers document.now }
    ensures value { map (booked document.now.doc.number) result.now
        ≡ entered_by ledger document.now }
    ensures short { length result.now ≤ 5_000 }
{
    if document.doc.state != DocState::Posted || !document.doc.active {
        return &[];
    }
    match document.sets.ledgers.get(ledger) {
        Some(set) => set.as_slice(),
        None => &[],
    }
}

// Adds the entries of a set that a span counts.
fn add_set<S: Gathers>(
    alloc: Global,
    sums: &mut S,
    set: &[Posting],
    number: u32,
    span: &Span,
) -> Result<(), Memory>
    requires size { S.size sums.old ≤ 2 ^ 64 * 2 ^ 45 }
    requires short { length set.now ≤ 5_000 }
    ensures { IfOk result (λ _. Adds (S.holds span.now) S.size
        (filter (counts_in span.now) (map (booked number) set.now)) sums.old sums.new) }
{
    for posting in set {
        add_counted(alloc, sums, posting, number, span)?;
    }
    Ok(())
}

// Adds an entry, where a span counts it.
fn add_counted<S: Gathers>(
    alloc: Global,
    sums: &mut S,
    posting: &Posting,
    number: u32,
    span: &Span,
) -> Result<(), Memory>
    requires { S.size sums.old ≤ 2 ^ 64 * 2 ^ 46 }
    ensures { IfOk result (λ _. Adds (S.holds span.now) S.size
        (filter (counts_in span.now) (booked number posting.now ∷ [])) sums.old sums.new) }
{
    if !counts(span, posting, number) {
        return Ok(());
    }
    sums.add(alloc, posting, span)
}

// Whether a span counts an entry.
fn counts(span: &Span, posting: &Posting, number: u32) -> bool
    ensures { result ≡ counts_in span.now (booked number posting.now) }
{
    let point = Point {
        date: posting.period,
        doc: number,
    };
    match span {
        Span::Inside(cut) => inside(*cut, point),
        Span::During(range) => range.from <= posting.period && posting.period <= range.to,
        Span::Through(_) => true,
    }
}
