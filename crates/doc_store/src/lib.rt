//! Documents with their records: what is committed, and what is staged until it is kept.
//!
//! Means: a finite map by number. `Stored` in `specs/Stores.antt` is the list of committed
//! documents in order of number, with what is staged; `seen` says which documents a viewer sees.
//!
//! Stands on: `reg_base` for documents and records, and for what it means to put, replace and
//! remove one.
//!
//! Promises: a document is found by its number, and by its key the one of the least number, for
//! each viewer; what was staged is kept without memory; documents are walked in order of number.
//!
//! Leaves open: how documents are kept, and when memory is refused.
#![tactic(auto)]

mod balances;
mod committed;
mod dates;
mod documents;
mod index;
mod place;
mod staged;
mod store;

pub use balances::Balances;
pub use documents::Documents;
pub use reg_base::{
    Comment, Doc, DocRow, DocState, Document, Filter, Found, Mark, Posting, Rec, Sets, SumRow,
};
pub use staged::Staged;
pub use store::Store;
