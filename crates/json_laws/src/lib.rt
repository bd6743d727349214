//! Laws of JSON texts: what is written without floats is read back to the same value.
//!
//! Means: `IsPlain` in `specs/Plain.antt` says which values these are: numbers are whole, of 64
//! bits, above or below zero, and names stand in order. The laws speak of `read` and
//! `compact_text` of `serde_json`.
//!
//! Stands on: `serde_json` for the values, `json` for the tokens between a value and its text.
//!
//! Promises: the compact text of a plain value is UTF-8, stands on one line, and reads as that
//! value; the texts of a value at hand are UTF-8.
//!
//! Leaves open: what is written for a float, and values that nest too deep to be read.
#![tactic(auto)]

mod laws;

pub use laws::{texts_are_utf8, texts_read_back, texts_stand_on_one_line, value_has_utf8};
