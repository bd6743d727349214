//! Codes of items, accounts, warehouses and documents.
ghost use Rattle.std.specs.Prelude.{◌≡◌, true, if◌then◌else◌, Some, None};
ghost use Rattle.std.specs.List.{list_all};
ghost use Rattle.reg_base.specs.Codes.{is_code, is_code_byte as is_code_byte_of};

use crate::short_text::{ROOM, ShortText};
use std::fmt;
use std::marker::Model;

/// 1 to 32 ASCII letters, digits, `_`, `.` and `-`, seen as its bytes and ordered by them.
#[derive(Clone, Copy, PartialEq, Eq, PartialOrd, Ord)]
pub struct Code {
    text: ShortText,
}

impl Model for Code {
    ghost use Rattle.std.specs.Prelude.{◌≡◌, List, ℕ, true};
    ghost use Rattle.std.specs.Coded.{coded_list, coded_ℕ};
    ghost use Rattle.reg_base.specs.Codes.{is_code};

    ghost Value = { List ℕ };

    ghost coded = { coded_list coded_ℕ };

    ghost view = { λ c. c.text };

    ghost invariant = { λ c. is_code c.text ≡ true };

    ghost inverse = { λ bytes. record { text = bytes } };
}

impl Code {
    /// The code of this spelling, where the text is one.
    pub fn parse(text: &str) -> Option<Code>
        ensures { result ≡ (if is_code text.now then Some text.now else None) }
    {
        if !has_spelling(text.as_bytes()) {
            return None;
        }
        Some(Code {
            text: ShortText::new(text),
        })
    }

    pub fn as_bytes(&self) -> &[u8]
        ensures value { result.now ≡ self.now }
        ensures code { is_code self.now ≡ true }
    {
        self.text.as_bytes()
    }

    pub fn as_str(&self) -> &str
        ensures value { result.now ≡ self.now }
        ensures code { is_code self.now ≡ true }
    {
        self.text.as_str()
    }
}

#[tactic(auto, unfolding(crate::specs::Codes::is_code))]
fn has_spelling(text: &[u8]) -> bool
    ensures { result ≡ is_code text.now }
{
    if text.is_empty() || text.len() > ROOM {
        return false;
    }
    are_code_bytes(text)
}

fn are_code_bytes(text: &[u8]) -> bool
    ensures { result ≡ list_all is_code_byte_of text.now }
{
    text.iter().all(|b| is_code_byte(*b))
}

/// Whether a code may have this byte.
pub fn is_code_byte(b: u8) -> bool
    ensures { result ≡ is_code_byte_of b }
{
    b.is_ascii_alphanumeric() || b == b'_' || b == b'.' || b == b'-'
}

impl fmt::Display for Code {
    ghost output = { λ code. Some code };

    fn fmt<W: fmt::Write>(&self, f: &mut fmt::Formatter<W>) -> fmt::Result {
        f.write_str(self.as_str())
    }
}

impl fmt::Debug for Code {
    fn fmt<W: fmt::Write>(&self, f: &mut fmt::Formatter<W>) -> fmt::Result {
        f.write_str(self.as_str())
    }
}
