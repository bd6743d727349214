//! Copies of documents and of their records.
ghost use Rattle.std.specs.Prelude.{◌≡◌, [], IfOk, unwrap_or};

use crate::sides::copy_side;
use reg_base::{Cell, Comment, Doc, List, Memory, Posting, Rec, Sets};
use std::alloc::Global;

// What can be copied, unless memory is wanted.
pub(crate) trait Copied: Drop + Sized {
    fn copy(&self, alloc: Global) -> Result<Self, Memory>
        ensures { IfOk result (λ copy. copy ≡ self.now) };
}

impl Copied for Rec {
    fn copy(&self, alloc: Global) -> Result<Rec, Memory> {
        Ok(Rec {
            line: self.line,
            period: self.period,
            mark: self.mark,
            values: List::from_slice(alloc, self.values.as_slice())?,
            sums: List::from_slice(alloc, self.sums.as_slice())?,
        })
    }
}

impl Copied for Posting {
    fn copy(&self, alloc: Global) -> Result<Posting, Memory> {
        let debit = copy_side(alloc, &self.debit)?;
        let credit = copy_side(alloc, &self.credit)?;
        Ok(Posting {
            line: self.line,
            period: self.period,
            debit,
            credit,
            amount: self.amount,
        })
    }
}

impl Copied for List<Cell> {
    fn copy(&self, alloc: Global) -> Result<List<Cell>, Memory> {
        Ok(List::from_slice(alloc, self.as_slice())?)
    }
}

impl Copied for List<Rec> {
    fn copy(&self, alloc: Global) -> Result<List<Rec>, Memory> {
        copy_list(alloc, self.as_slice())
    }
}

impl Copied for List<Posting> {
    fn copy(&self, alloc: Global) -> Result<List<Posting>, Memory> {
        copy_list(alloc, self.as_slice())
    }
}

// A copy of a list, element by element.
fn copy_list<T: Copied>(alloc: Global, items: &[T]) -> Result<List<T>, Memory>
    ensures { IfOk result (λ copies. copies ≡ items.now) }
{
    let mut copies = Vec::new(alloc);
    'items: for item in items {
        let copy = item.copy(alloc)?;
        copies.push(copy)?;
    }
    Ok(List::from_vec(copies))
}

pub(crate) fn copy_doc(alloc: Global, doc: &Doc) -> Result<Doc, Memory>
    ensures { IfOk result (λ copy. copy ≡ doc.now) }
{
    let head = doc.head.copy(alloc)?;
    let lines = copy_list(alloc, doc.lines.as_slice())?;
    let comment = doc.comment.copy(alloc)?;
    Ok(Doc {
        number: doc.number,
        kind: doc.kind,
        date: doc.date,
        head,
        lines,
        comment,
        key: doc.key,
        state: doc.state,
        active: doc.active,
    })
}

pub(crate) fn copy_sets(alloc: Global, sets: &Sets) -> Result<Sets, Memory>
    ensures { IfOk result (λ copy. copy ≡ sets.now) }
{
    let registers = copy_list(alloc, sets.registers.as_slice())?;
    let ledgers = copy_list(alloc, sets.ledgers.as_slice())?;
    Ok(Sets { registers, ledgers })
}

// A copy of a comment, where one is given; an absent one is empty.
pub(crate) fn comment_or_empty(alloc: Global, comment: &Option<Comment>) -> Result<Comment, Memory>
    ensures { IfOk result (λ copy. copy ≡ unwrap_or comment.now []) }
{
    match comment {
        Some(comment) => comment.copy(alloc),
        None => Ok(Comment::empty(alloc)),
    }
}
