//! Posting by rules, as definitions and laws alone: what the rules of a document's type make.
//!
//! Means: `yield_of` in `specs/Yields.antt` is what posting a document makes, or its first fault,
//! where the records of each register are known.
//!
//! Stands on: `rule_lang` for statements, `cfg_model` for registers and charts, `reg_base` for
//! documents, records, balances and shares.
//!
//! Promises: laws that hold of everything that is made, as contracts of functions that do nothing.
//! What posting makes rests on what its reads name, and is within the limits of sets and numbers; a
//! write-off takes what was wanted, and no lot goes below zero by it.
//!
//! Leaves open: where the records come from, and how a yield is computed.
#![tactic(auto)]

mod holding;
mod laws;
mod made;

pub use holding::Holding;
pub use laws::{
    no_lot_goes_below_zero, write_offs_take_what_is_wanted, yields_are_within_limits,
    yields_rest_on_reads,
};
pub use made::{Made, Yield};
