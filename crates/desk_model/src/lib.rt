//! The desk machine as definitions and laws: what a request means, what it does, what is replied.
//!
//! Means: `step` in `specs/Desk.antt` says what a desk replies to a request and what it is after;
//! `serial` in `specs/Serial.antt` runs a command with its document number, as a replay does;
//! `answers_to` in `specs/Answers.antt` says what is written for the lines of an input.
//!
//! Stands on: `cfg_model` for the configuration, `desk_words` for requests and replies,
//! `reg_base` for documents, records and balances.
//!
//! Promises: the laws of `specs/Laws.antt`, and that each number of a reply has its scale, as the
//! contracts of functions that do nothing.
//!
//! Leaves open: how a desk keeps its documents; there is no other code here than plain types.
#![tactic(auto)]

mod last;
mod laws;
mod plan;

pub use last::Last;
pub use laws::{
    accepted_requests_replay, refusals_change_nothing, replies_have_scales, requests_act_once,
    tables_are_sums,
};
pub use plan::{Given, GivenEntry, GivenSet, Plan, Source, Space};
