//! A text that contracts see as its bytes.
ghost use Rattle.std.specs.Prelude.{◌≡◌, ◌++◌, IfOk, string_bytes};

use crate::Memory;
use std::alloc::{AllocError, Global};
use std::marker::Model;

/// A `String` that contracts see as its bytes.
#[derive(Debug, Drop)]
pub struct Text {
    inner: String,
}

impl Model for Text {
    ghost use Rattle.std.specs.Prelude.{List, ℕ, string_bytes};

    ghost Value = { List ℕ };

    ghost view = { λ t. string_bytes t.inner };
}

impl Text {
    /// The text of a `String`, which is not copied.
    pub fn from_string(inner: String) -> Text
        ensures { result ≡ string_bytes inner }
    {
        Text { inner }
    }

    /// A copy of a text.
    pub fn from_str(alloc: Global, text: &str) -> Result<Text, AllocError>
        ensures { IfOk result (λ t. t ≡ text.now) }
    {
        let inner = String::from_str(alloc, text)?;
        Ok(Text { inner })
    }

    /// The `String` that holds the bytes.
    pub fn into_string(self) -> String
        ensures { string_bytes result ≡ self }
    {
        let Text { inner } = self;
        inner
    }

    pub fn as_str(&self) -> &str
        ensures { result.now ≡ self.now }
    {
        self.inner.as_str()
    }
}

/// A `String` with the bytes of a text.
pub fn string_of(alloc: Global, text: &str) -> Result<String, Memory>
    ensures { IfOk result (λ t. string_bytes t ≡ text.now) }
{
    Ok(String::from_str(alloc, text)?)
}

/// A `String` of two texts, the one behind the other.
pub fn join_texts(alloc: Global, front: &str, text: &str) -> Result<String, Memory>
    ensures { IfOk result (λ t. string_bytes t ≡ front.now ++ text.now) }
{
    Ok(format!(in alloc; "{front}{text}")?)
}
