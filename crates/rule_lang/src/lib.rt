//! The language of posting rules: the statements of each document type, checked and resolved.
//!
//! Means: the text of a type is a list of statements, or has a first fault; `rules_of` in
//! `specs/Rules.antt` says which, from the statements that `rule_text` reads.
//!
//! Stands on: `reg_base` for names and codes, `cfg_model` for what names mean, `rule_text` for
//! what a text says.
//!
//! Promises: `Rules::read` gives exactly the rules of a configuration, or their first fault. Each
//! name of an accepted statement is the place of what has it, each literal its value in the units
//! of its place, and the statements of a type in a sequence keep it. `Rules::print` writes exactly
//! the canonical text of a type, which is read back to the same statements.
//!
//! Leaves open: when memory is refused.
#![tactic(auto)]

mod act_texts;
mod acts;
mod binds;
mod conditions;
mod costs;
mod entries;
mod fault;
mod fields;
mod laws;
mod least;
mod makes;
mod print;
mod requirements;
mod rules;
mod sequences;
mod spelt;
mod statement;
mod term_texts;
mod terms;
mod tried;
mod write_offs;

pub use fault::{RuleFault, RuleWhy};
pub use laws::{places_are_resolved, rules_read_back, sequences_are_kept};
pub use rule_text::{Test, Verb};
pub use rules::{Rules, STATEMENT_LIMIT};
pub use statement::{Act, Bind, BindTo, CodeTerm, Cond, Part, Place, Statement, Sum, Term};
