//! The run of a desk: words, a configuration and an input in, a status and what was written out.
//!
//! Means: the output is a function of the words, the configuration, the journal and the bytes of the
//! input: `specs/Runs.antt` says it for each way in which a run of lines ends, `specs/Ends.antt` for
//! each command, and `specs/Promises.antt` what holds of the whole.
//!
//! Stands on: `desk_core` for what a line is answered, `reg_io` for the outside, `cfg_model` for
//! the configuration.
//!
//! Promises: each status has its cause, and what was written before it.
//!
//! Leaves open: when memory is refused.
#![tactic(auto)]

mod check;
mod complaint;
mod fault;
mod files;
mod import;
mod report;
mod run;
mod top_call;
mod words;

pub use complaint::complain;
pub use fault::{Fault, JobFault, NamedFile, OpeningFault, SetupFault, TextFault, end_status};
pub use files::{Job, MOST_CONFIG_BYTES, MOST_IMPORT_BYTES};
pub use run::{MOST_INPUT_BYTES, RunEnd, run_lines};
pub use top_call::{Finish, desk_main};
pub use words::{Call, Task, call_of};
