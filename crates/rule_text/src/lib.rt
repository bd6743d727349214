//! Texts of posting rules, read word by word into statements as they are written.
//!
//! Means: a text is a list of tokens, and `statements_of` in `specs/Sentences.antt` reads
//! statements from them, or tells the first token that can't follow.
//!
//! Stands on: `reg_base` for names and codes.
//!
//! Promises: `parse` gives exactly the statements of a text, or the place of its first fault; and
//! every text that begins with the same tokens through that place is refused there too.
//!
//! Leaves open: what the names mean, and when memory is refused.
#![tactic(auto)]

mod acts;
mod cursor;
mod fault;
mod laws;
mod mark;
mod piece;
mod plain;
mod sentences;
mod sums;
mod token;

pub use fault::TextFault;
pub use laws::refusals_stand;
pub use mark::Mark;
pub use plain::{
    PlainAct, PlainAmount, PlainBind, PlainCode, PlainCond, PlainPart, PlainSide, PlainSides,
    PlainStatement, PlainTerm, PlainTo, Scope, Target, Test, Verb, lone_field,
};
pub use sentences::parse;
pub use token::{Lexeme, Literal, Spelling, Token};
