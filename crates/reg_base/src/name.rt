//! Names of registers, ledgers, document types, fields and clerks.
ghost use Rattle.std.specs.Prelude.{◌≡◌, true, if◌then◌else◌, Some, None};
ghost use Rattle.std.specs.List.{list_all};
ghost use Rattle.reg_base.specs.Codes.{is_name, is_name_byte as is_name_byte_of};

use crate::short_text::ShortText;
use std::fmt;
use std::marker::Model;

/// How many bytes a name has at the most.
pub const LONGEST_NAME: usize = 24;

/// A lower-case letter, then up to 23 lower-case letters, digits and `_`; seen as its bytes.
#[derive(Clone, Copy, PartialEq, Eq, PartialOrd, Ord)]
pub struct Name {
    text: ShortText,
}

impl Model for Name {
    ghost use Rattle.std.specs.Prelude.{◌≡◌, List, ℕ, true};
    ghost use Rattle.std.specs.Coded.{coded_list, coded_ℕ};
    ghost use Rattle.reg_base.specs.Codes.{is_name};

    ghost Value = { List ℕ };

    ghost coded = { coded_list coded_ℕ };

    ghost view = { λ n. n.text };

    ghost invariant = { λ n. is_name n.text ≡ true };

    ghost inverse = { λ bytes. record { text = bytes } };
}

impl Name {
    /// The name of this spelling, where the text is one.
    pub fn parse(text: &str) -> Option<Name>
        ensures { result ≡ (if is_name text.now then Some text.now else None) }
    {
        if !has_spelling(text.as_bytes()) {
            return None;
        }
        Some(Name {
            text: ShortText::new(text),
        })
    }

    pub fn as_bytes(&self) -> &[u8]
        ensures value { result.now ≡ self.now }
        ensures name { is_name self.now ≡ true }
    {
        self.text.as_bytes()
    }

    pub fn as_str(&self) -> &str
        ensures value { result.now ≡ self.now }
        ensures name { is_name self.now ≡ true }
    {
        self.text.as_str()
    }
}

#[tactic(auto, unfolding(crate::specs::Codes::is_name))]
fn has_spelling(text: &[u8]) -> bool
    ensures { result ≡ is_name text.now }
{
    match text.split_first() {
        None => false,
        Some((first, others)) => {
            first.is_ascii_lowercase() && others.len() < LONGEST_NAME && are_name_bytes(others)
        }
    }
}

fn are_name_bytes(text: &[u8]) -> bool
    ensures { result ≡ list_all is_name_byte_of text.now }
{
    text.iter().all(|b| is_name_byte(*b))
}

fn is_name_byte(b: u8) -> bool
    ensures { result ≡ is_name_byte_of b }
{
    b.is_ascii_lowercase() || b.is_ascii_digit() || b == b'_'
}

impl fmt::Display for Name {
    ghost output = { λ name. Some name };

    fn fmt<W: fmt::Write>(&self, f: &mut fmt::Formatter<W>) -> fmt::Result {
        f.write_str(self.as_str())
    }
}

impl fmt::Debug for Name {
    fn fmt<W: fmt::Write>(&self, f: &mut fmt::Formatter<W>) -> fmt::Result {
        f.write_str(self.as_str())
    }
}
