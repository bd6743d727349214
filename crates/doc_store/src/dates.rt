//! Documents by their dates.
ghost use Rattle.std.specs.Prelude.{◌≡◌, ◌++◌, ◌∷◌, [], map, filter, IfOk, OnOk};
ghost use Rattle.reg_base.specs.Documents.{document_point, documents_between};
ghost use Rattle.doc_store.specs.Dates.{is_between as is_between_of};

use crate::documents::Documents;
use reg_base::{Date, Document, List, Memory, Point};
use std::alloc::Global;

// The numbers of the documents whose dates lie in a range, in order of their points.
pub(crate) fn numbers_between(
    alloc: Global,
    documents: Documents<'_>,
    from: Date,
    to: Date,
) -> Result<List<u32>, Memory>
    ensures { IfOk result (λ numbers. numbers
        ≡ map (λ d. d.doc.number) (documents_between from to documents.entry)) }
{
    let mut points = points_between(alloc, documents, from, to)?;
    points.sort_unstable();
    numbers_of(alloc, &points)
}

// The points of the documents whose dates lie in a range.
fn points_between(
    alloc: Global,
    documents: Documents<'_>,
    from: Date,
    to: Date,
) -> Result<Vec<Point>, Memory>
    ensures { IfOk result (λ points. points.items
        ≡ map document_point (filter (is_between_of from to) documents.entry)) }
{
    let mut points = Vec::new(alloc);
    for document in documents {
        push_between(&mut points, document, from, to)?;
    }
    Ok(points)
}

// Puts the point of a document behind the others, where its date lies in a range.
fn push_between(
    points: &mut Vec<Point>,
    document: &Document,
    from: Date,
    to: Date,
) -> Result<(), Memory>
    ensures { OnOk result (points.new.items ≡ points.old.items
        ++ map document_point (filter (is_between_of from to) (document.now ∷ []))) }
{
    if is_between(document, from, to) {
        points.push(Point {
            date: document.doc.date,
            doc: document.doc.number,
        })?;
    }
    Ok(())
}

fn is_between(document: &Document, from: Date, to: Date) -> bool
    ensures { result ≡ is_between_of from to document.now }
{
    from <= document.doc.date && document.doc.date <= to
}

// The document numbers of points.
fn numbers_of(alloc: Global, points: &[Point]) -> Result<List<u32>, Memory>
    ensures { IfOk result (λ numbers. numbers ≡ map (λ p. p.doc) points.now) }
{
    let mut numbers = Vec::new(alloc);
    'points: for point in points {
        numbers.push(point.doc)?;
    }
    Ok(List::from_vec(numbers))
}
