//! The comment of a document.
ghost use Rattle.std.specs.Prelude.{◌≡◌, [], not, if◌then◌else◌, Some, None, IfOk};
ghost use Rattle.std.specs.List.{list_all};
ghost use Rattle.std.specs.Char.{is_control};
ghost use Rattle.std.specs.Str.{chars};
ghost use Rattle.reg_base.specs.Comments.{is_comment};

use crate::Memory;
use std::alloc::Global;
use std::marker::Model;

// How many bytes a comment has at the most.
const LONGEST: usize = 64;

/// A document's comment: up to 64 bytes of text, seen as its bytes. An absent one is empty.
#[derive(Drop)]
pub struct Comment {
    text: String,
}

impl Model for Comment {
    ghost use Rattle.std.specs.Prelude.{List, ℕ, string_bytes};

    ghost Value = { List ℕ };

    ghost view = { λ c. string_bytes c.text };
}

impl Comment {
    /// The empty comment, which takes no memory.
    pub fn empty(alloc: Global) -> Comment
        ensures { result ≡ [] }
    {
        Comment {
            text: String::new(alloc),
        }
    }

    /// The comment of this text, where the text is one: it is short, and no character of it
    /// controls a terminal.
    pub fn parse(alloc: Global, text: &str) -> Result<Option<Comment>, Memory>
        ensures { IfOk result (λ found.
            found ≡ (if is_comment text.now then Some text.now else None)) }
    {
        if !has_spelling(text) {
            return Ok(None);
        }
        Ok(Some(Comment {
            text: String::from_str(alloc, text)?,
        }))
    }

    pub fn as_str(&self) -> &str
        ensures { result.now ≡ self.now }
    {
        self.text.as_str()
    }

    /// A copy of the comment.
    pub fn copy(&self, alloc: Global) -> Result<Comment, Memory>
        ensures { IfOk result (λ copy. copy ≡ self.now) }
    {
        Ok(Comment {
            text: String::from_str(alloc, &self.text)?,
        })
    }
}

#[tactic(auto, unfolding(crate::specs::Comments::is_comment))]
fn has_spelling(text: &str) -> bool
    ensures { result ≡ is_comment text.now }
{
    text.len() <= LONGEST && is_printable(text)
}

fn is_printable(text: &str) -> bool
    ensures { result ≡ list_all (λ c. not (is_control c)) (chars text.now) }
{
    text.chars().all(|c| !c.is_control())
}
