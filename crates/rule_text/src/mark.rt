//! Marks: what stands between words, numbers and codes.
ghost use Rattle.std.specs.Prelude.{◌≡◌};
ghost use Rattle.rule_text.specs.Marks.{mark_text, single_mark as mark_of_byte};
ghost use Rattle.rule_text.specs.Marks.{double_mark as mark_of_bytes};

/// A mark of a text of rules.
#[derive(Clone, Copy, Debug)]
pub enum Mark {
    Open,
    Close,
    Semicolon,
    Comma,
    Equal,
    Point,
    Plus,
    Minus,
    Less,
    AtMost,
    AtLeast,
    Greater,
    Differs,
}

impl Mark {
    /// How the mark is spelt.
    #[tactic(auto, unfolding(crate::specs::Marks::mark_text))]
    pub fn text(self) -> &'static str
        ensures { result.now ≡ mark_text self }
    {
        match self {
            Mark::Open => "(",
            Mark::Close => ")",
            Mark::Semicolon => ";",
            Mark::Comma => ",",
            Mark::Equal => "=",
            Mark::Point => ".",
            Mark::Plus => "+",
            Mark::Minus => "-",
            Mark::Less => "<",
            Mark::AtMost => "<=",
            Mark::AtLeast => ">=",
            Mark::Greater => ">",
            Mark::Differs => "<>",
        }
    }
}

// The mark of one byte.
#[tactic(auto, unfolding(crate::specs::Marks::single_mark))]
pub(crate) fn single_mark(byte: u8) -> Option<Mark>
    ensures { result ≡ mark_of_byte byte }
{
    match byte {
        b'(' => Some(Mark::Open),
        b')' => Some(Mark::Close),
        b';' => Some(Mark::Semicolon),
        b',' => Some(Mark::Comma),
        b'=' => Some(Mark::Equal),
        b'.' => Some(Mark::Point),
        b'+' => Some(Mark::Plus),
        b'-' => Some(Mark::Minus),
        b'<' => Some(Mark::Less),
        b'>' => Some(Mark::Greater),
        _ => None,
    }
}

// The mark of two bytes: `<=`, `<>` or `>=`.
#[tactic(auto, unfolding(crate::specs::Marks::double_mark))]
pub(crate) fn double_mark(first: u8, second: u8) -> Option<Mark>
    ensures { result ≡ mark_of_bytes first second }
{
    match (first, second) {
        (b'<', b'=') => Some(Mark::AtMost),
        (b'<', b'>') => Some(Mark::Differs),
        (b'>', b'=') => Some(Mark::AtLeast),
        _ => None,
    }
}
