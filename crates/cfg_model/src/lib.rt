//! The configuration of a desk: its registers, ledgers, document types, sequences and clerks.
//!
//! Means: a file's bytes are a configuration or have a first fault; `read_config` in
//! `specs/Reading.antt` says which, in the order in which a reader walks the file.
//!
//! Stands on: `reg_base` for names and scales, `toml` for what the bytes of a file say.
//!
//! Promises: `Config::read` gives exactly the configuration or the first fault that the file has.
//!
//! Leaves open: when memory is refused.
#![tactic(auto)]

mod account;
mod accounts;
mod below;
mod clerk;
mod config;
mod element;
mod entry;
mod fault;
mod group;
mod kind;
mod laws;
mod ledger;
mod parents;
mod register;
mod sequence;
mod walk;

pub use account::{Account, Nature};
pub use accounts::{ACCOUNT_LIMIT, EXTRA_LIMIT};
pub use clerk::Clerk;
pub use config::{
    CLERK_LIMIT, Config, DOCUMENT_LIMIT, LEDGER_LIMIT, REGISTER_LIMIT, SEQUENCE_LIMIT,
};
pub use entry::check_entry;
pub use fault::CfgFault;
pub use kind::{FIELD_LIMIT, Field, Kind};
pub use laws::{debits_equal_credits, each_row_balances, table_keys_ascend};
pub use ledger::Chart;
pub use reg_base::{EntryFault, Right};
pub use register::{DIMENSION_LIMIT, Dimension, RESOURCE_LIMIT, Register, Resource};
pub use sequence::Sequence;
