//! ASCII text of up to 32 bytes that takes no memory.
//!
//! Kept: 32 bytes and a length; the bytes behind the length are zeros, so that two equal texts are
//! equal field by field and the type can be `Copy`. Codes and names are such texts, and no copy of
//! one can fail.
//!
//!     bytes  n a i l 0 0 0 ..        len  4
ghost use Rattle.std.specs.Prelude.{◌≡◌, ◌≤◌, false, length, nat_eq, refl, Some};
ghost use Rattle.std.specs.Ordering.{nat_cmp};
ghost use Rattle.std.specs.Str.{IsAscii};
ghost use Rattle.std.specs.Cmp.Lexicographic.{pointwise, slice_cmp, nat_list_eq_equiv};
ghost use Rattle.std.specs.Cmp.Lexicographic.{nat_list_cmp_total, texts_ties, texts_po};
ghost use Rattle.std.specs.Cmp.{partial_equiv_from_equiv};

use std::cmp::Ordering;
use std::marker::Model;
use std::str;

/// How many bytes a short text has at the most.
pub const ROOM: usize = 32;

/// ASCII text of up to 32 bytes, seen as its bytes.
#[derive(Clone, Copy, Debug)]
pub struct ShortText {
    bytes: [u8; ROOM],
    len: u8,
}

impl Model for ShortText {
    ghost use Rattle.std.specs.Prelude.{List, ℕ};
    ghost use Rattle.std.specs.Coded.{coded_list, coded_ℕ};

    ghost Value = { List ℕ };

    ghost coded = { coded_list coded_ℕ };

    ghost use Rattle.reg_base.specs.ShortTexts.{short_text_bytes, IsShortText, inside_of};
    ghost use Rattle.reg_base.specs.ShortTexts.{inside_of-short_text_bytes};

    ghost view = { short_text_bytes };

    ghost invariant = { IsShortText };

    ghost inverse = { inside_of };

    ghost inverse_ok = { inside_of-short_text_bytes };
}

impl ShortText {
    /// The text, where it is short enough.
    pub fn new(text: &str) -> ShortText
        requires short { length text.now ≤ 32 }
        requires ascii { IsAscii text.now }
        ensures { result ≡ text.now }
    {
        let mut bytes = [0; ROOM];
        bytes[..text.len()].copy_from_slice(text.as_bytes());
        ShortText {
            bytes,
            len: text.len() as u8,
        }
    }

    pub fn as_bytes(&self) -> &[u8]
        ensures value { result.now ≡ self.now }
        ensures ascii { IsAscii self.now }
    {
        &self.bytes[..usize::from(self.len)]
    }

    pub fn as_str(&self) -> &str
        ensures { result.now ≡ self.now }
    {
        // ASCII bytes are UTF-8, so that this cannot fail.
        let bytes = self.as_bytes();
        str::from_utf8(bytes).unwrap()
    }
}

// By hand, over the bytes up to the length: a derived order would compare what is kept, the zeros
// and the length too.
impl PartialEq for ShortText {
    ghost eq = { pointwise nat_eq };

    ghost laws = { partial_equiv_from_equiv nat_list_eq_equiv };

    fn eq(&self, other: &ShortText) -> bool {
        self.as_bytes() == other.as_bytes()
    }
}

impl Eq for ShortText {
    ghost laws = { nat_list_eq_equiv };
}

impl PartialOrd for ShortText {
    ghost partial_cmp = { λ x y. Some (slice_cmp nat_cmp x y) };

    ghost laws = { texts_po };

    fn partial_cmp(&self, other: &ShortText) -> Option<Ordering> {
        Some(self.cmp(other))
    }
}

impl Ord for ShortText {
    ghost cmp = { slice_cmp nat_cmp };

    ghost total = { nat_list_cmp_total };

    ghost matches_partial_cmp = { λ x y. refl };

    ghost matches_eq = { texts_ties };

    fn cmp(&self, other: &ShortText) -> Ordering {
        self.as_bytes().cmp(other.as_bytes())
    }
}
