//! Posting by rules, computed: what the rules of a document's type make, or why they make nothing.
//!
//! Means: `yield_of` of `post_model` says what posting a document makes; `Tries` in
//! `specs/Tries.antt` says that a call makes this or has its first fault.
//!
//! Stands on: `post_model` for what is made, `rule_lang` for statements, `cfg_model` for registers
//! and charts, `doc_store` for the balances that a posting asks for, `row_sums` for sums by group,
//! `reg_base` for documents, records and shares.
//!
//! Promises: `yield_sets` makes exactly what the definition makes, or is refused with its first
//! fault.
//!
//! Leaves open: where the records of other documents stand, and when memory is wanted.
#![tactic(auto)]

mod acts;
mod binds;
mod conditions;
mod entries;
mod expenses;
mod fault;
mod lefts;
mod numbers;
mod places;
mod reads;
mod records;
mod rounds;
mod scene;
mod terms;
mod write_offs;
mod yields;

pub use fault::YieldFault;
pub use yields::{statements_for, yield_sets};
