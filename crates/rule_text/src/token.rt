//! Tokens: the words, numbers, codes and marks that a text of rules is made of.
ghost use Rattle.std.specs.Prelude.{◌≡◌};
ghost use Rattle.rule_text.specs.Fronts.{is_spelt, token_mark, token_word, token_number};
ghost use Rattle.rule_text.specs.Fronts.{token_code, token_break};

use crate::Mark;
use reg_base::{Code, Name};

/// A token with the place of its first byte, counted from 0, and its length in bytes.
#[derive(Drop)]
pub struct Lexeme {
    pub place: usize,
    pub len: usize,
    pub token: Token,
}

/// What stands at a place of a text.
#[derive(Drop)]
pub enum Token {
    Word(Spelling),
    Number(Literal),
    /// A code between quotes.
    Quoted(Code),
    Sign(Mark),
    /// No token: the place is that of the first byte with which none can go on.
    Broken(usize),
}

/// A word by its name.
#[derive(Drop)]
pub enum Spelling {
    Named(Name),
    /// The word is no name, so that nothing has it.
    Other,
}

/// A number as it is spelt: its digits read as a whole number, so many of them decimals. All digits
/// that pass the largest number count as the next one.
#[derive(Clone, Copy, Debug)]
pub struct Literal {
    pub digits: u64,
    pub decimals: usize,
}

impl Spelling {
    /// The same word.
    pub fn copied(&self) -> Spelling
        ensures { result ≡ self.now }
    {
        match self {
            Spelling::Named(name) => Spelling::Named(*name),
            Spelling::Other => Spelling::Other,
        }
    }

    /// Whether the word is this one.
    pub fn is(&self, word: &str) -> bool
        ensures { result ≡ is_spelt word.now self.now }
    {
        match self {
            Spelling::Named(name) => name.as_str() == word,
            Spelling::Other => false,
        }
    }
}

impl Token {
    /// The mark that the token is.
    pub fn sign(&self) -> Option<Mark>
        ensures { result ≡ token_mark self.now }
    {
        match self {
            Token::Sign(mark) => Some(*mark),
            _ => None,
        }
    }

    /// The word that the token is.
    pub fn word(&self) -> Option<Spelling>
        ensures { result ≡ token_word self.now }
    {
        match self {
            Token::Word(spelling) => Some(spelling.copied()),
            _ => None,
        }
    }

    /// The number that the token is.
    pub fn number(&self) -> Option<Literal>
        ensures { result ≡ token_number self.now }
    {
        match self {
            Token::Number(literal) => Some(*literal),
            _ => None,
        }
    }

    /// The code that the token is.
    pub fn code(&self) -> Option<Code>
        ensures { result ≡ token_code self.now }
    {
        match self {
            Token::Quoted(code) => Some(*code),
            _ => None,
        }
    }

    /// The byte at which the token breaks off.
    pub fn broken(&self) -> Option<usize>
        ensures { result ≡ token_break self.now }
    {
        match self {
            Token::Broken(at) => Some(*at),
            _ => None,
        }
    }
}
