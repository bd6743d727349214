//! What a request plans to do: the document that a change leaves, and documents as they are shown.
//!
//! Means: each part makes what its definition in `desk_model` makes, or is refused where that is.
//! `Tries` in `specs/Tries.antt` says so, and `sight_view` in `specs/Sights.antt` what a plan sees.
//!
//! Stands on: `desk_model` for plans and what they make, `post_rules` for what rules make,
//! `cfg_model` for the configuration, `desk_words` for requests, refusals and shown documents,
//! `doc_store` for the question of a balance, `reg_base` for documents.
//!
//! Promises: a plan and the document that it leaves are those of the machine, or its first
//! refusal; a document that is made is within bounds: its sets, how long they are, their numbers.
//!
//! Leaves open: how documents are kept, who asks, and when memory is wanted.
#![tactic(auto)]

mod copies;
mod counts;
mod documents;
mod entries;
mod fields;
mod given;
mod making;
mod manual;
mod part;
mod plans;
mod posts;
mod scales;
mod shown;
mod sides;
mod sight;
mod states;
mod tried;
mod writes;

pub use counts::{record_count, total_len};
pub use documents::document_from;
pub use given::wrong;
pub use manual::plan_manual;
pub use part::value_in;
pub use plans::{plan_activity, plan_mark, plan_sweep, plan_write};
pub use posts::{plan_post, plan_standing, plan_unpost};
pub use shown::{document_kind, shown_document};
pub use sight::Sight;
pub use tried::{PartFault, Tried};
