//! The tokens of a text that are still to be read, and what is read of them one at a time.
ghost use Rattle.std.specs.Prelude.{◌≡◌, drop, length, Option, option_map, Ok};
ghost use Rattle.std.specs.Option.{option_copied};
ghost use Rattle.rule_text.specs.declared.fault.ReadFault.TheVariants.{Stuck};
ghost use Rattle.rule_text.specs.Readers.{Reader, ReadsTokens, rest, takes, pick, mark as mark_of};
ghost use Rattle.rule_text.specs.Readers.{word as word_read, name as name_of};
ghost use Rattle.rule_text.specs.Readers.{code_if as code_if_of, quoted as quoted_of};
ghost use Rattle.rule_text.specs.Readers.{list_on as list_on_of, list_reader as list_of_read};
ghost use Rattle.rule_text.specs.Fronts.{first, front, is_mark_next, is_word_next, token_mark};
ghost use Rattle.rule_text.specs.Fronts.{token_word, token_number, token_code, token_break};

use crate::fault::ReadFault;
use crate::{Lexeme, Literal, Mark, Spelling};
use reg_base::{Code, List};
use std::alloc::Global;

// A list of tokens, of which so many were read.
#[derive(Drop)]
pub(crate) struct Cursor {
    tokens: List<Lexeme>,
    next: usize,
}

impl Cursor {
    pub(crate) fn new(tokens: List<Lexeme>) -> Cursor
        ensures { rest result ≡ tokens }
    {
        Cursor { tokens, next: 0 }
    }

    // The token in front, which is not taken.
    #[tactic(auto, using(crate::proofs::ReaderLemmas::fronts))]
    fn lexeme(&self) -> Option<&Lexeme>
        ensures { option_copied result ≡ first (rest self.now) }
    {
        self.tokens.get(self.next)
    }

    // The place of the token in front, or none at the end of the text.
    pub(crate) fn place(&self) -> Option<usize>
        ensures { result ≡ option_map (λ l. l.place) (first (rest self.now)) }
    {
        let lexeme = self.lexeme()?;
        Some(lexeme.place)
    }

    // The fault of a token that can't follow.
    pub(crate) fn stuck(&self) -> ReadFault
        ensures { result ≡ Stuck (option_map (λ l. l.place) (first (rest self.now))) }
    {
        ReadFault::Stuck(self.place())
    }

    // Passes over the token in front.
    #[tactic(auto, using(crate::proofs::ReaderLemmas::fronts))]
    pub(crate) fn skip(&mut self)
        ensures { rest self.new ≡ drop 1 (rest self.old) }
    {
        if self.next < self.tokens.len() {
            self.next += 1;
        }
    }

    // How many tokens are left.
    fn left(&self) -> usize
        ensures { result ≡ length (rest self.now) }
    {
        self.tokens.len().saturating_sub(self.next)
    }

    pub(crate) fn sign(&self) -> Option<Mark>
        ensures { result ≡ front token_mark (rest self.now) }
    {
        let lexeme = self.lexeme()?;
        lexeme.token.sign()
    }

    pub(crate) fn front_word(&self) -> Option<Spelling>
        ensures { result ≡ front token_word (rest self.now) }
    {
        let lexeme = self.lexeme()?;
        lexeme.token.word()
    }

    fn number(&self) -> Option<Literal>
        ensures { result ≡ front token_number (rest self.now) }
    {
        let lexeme = self.lexeme()?;
        lexeme.token.number()
    }

    fn code(&self) -> Option<Code>
        ensures { result ≡ front token_code (rest self.now) }
    {
        let lexeme = self.lexeme()?;
        lexeme.token.code()
    }

    fn broken(&self) -> Option<usize>
        ensures { result ≡ front token_break (rest self.now) }
    {
        let lexeme = self.lexeme()?;
        lexeme.token.broken()
    }

    // Whether this mark is in front.
    pub(crate) fn is_mark(&self, mark: Mark) -> bool
        ensures { result ≡ is_mark_next mark (rest self.now) }
    {
        match self.sign() {
            Some(other) => other.text() == mark.text(),
            None => false,
        }
    }

    // Takes this mark where it is in front.
    pub(crate) fn takes_mark(&mut self, mark: Mark) -> bool
        ensures { takes (is_mark_next mark) (rest self.old) ≡ Ok (result, rest self.new) }
    {
        if !self.is_mark(mark) {
            return false;
        }
        self.skip();
        true
    }

    fn is_word(&self, word: &str) -> bool
        ensures { result ≡ is_word_next word.now (rest self.now) }
    {
        match self.front_word() {
            Some(spelling) => spelling.is(word),
            None => false,
        }
    }

    // Takes this word where it is in front.
    pub(crate) fn takes_word(&mut self, word: &str) -> bool
        ensures { takes (is_word_next word.now) (rest self.old) ≡ Ok (result, rest self.new) }
    {
        if !self.is_word(word) {
            return false;
        }
        self.skip();
        true
    }

    #[tactic(auto, unfolding(crate::specs::Readers::mark))]
    pub(crate) fn mark(&mut self, mark: Mark) -> Result<(), ReadFault>
        ensures { ReadsTokens result (rest self.new) (mark_of mark (rest self.old)) }
    {
        if !self.takes_mark(mark) {
            return Err(self.stuck());
        }
        Ok(())
    }

    #[tactic(auto, unfolding(crate::specs::Readers::word))]
    pub(crate) fn word(&mut self, word: &str) -> Result<(), ReadFault>
        ensures { ReadsTokens result (rest self.new) (word_read word.now (rest self.old)) }
    {
        if !self.takes_word(word) {
            return Err(self.stuck());
        }
        Ok(())
    }

    // Takes a word where one is in front, which is told by its name.
    pub(crate) fn pick_word(&mut self) -> Option<Spelling>
        ensures { pick token_word (rest self.old) ≡ Ok (result, rest self.new) }
    {
        let word = self.front_word()?;
        self.skip();
        Some(word)
    }

    // Takes a number where one is in front.
    pub(crate) fn pick_number(&mut self) -> Option<Literal>
        ensures { pick token_number (rest self.old) ≡ Ok (result, rest self.new) }
    {
        let number = self.number()?;
        self.skip();
        Some(number)
    }

    // Any word, which stands for a name.
    #[tactic(auto, unfolding(crate::specs::Readers::name))]
    pub(crate) fn name(&mut self) -> Result<Spelling, ReadFault>
        ensures { ReadsTokens result (rest self.new) (name_of (rest self.old)) }
    {
        match self.pick_word() {
            Some(name) => Ok(name),
            None => Err(self.stuck()),
        }
    }

    // A code between quotes, where a quote is in front.
    #[tactic(auto, unfolding(crate::specs::Readers::code_if))]
    pub(crate) fn code_if(&mut self) -> Result<Option<Code>, ReadFault>
        ensures { ReadsTokens result (rest self.new) (code_if_of (rest self.old)) }
    {
        if let Some(code) = self.code() {
            self.skip();
            return Ok(Some(code));
        }
        match self.broken() {
            Some(at) => Err(ReadFault::Stuck(Some(at))),
            None => Ok(None),
        }
    }

    #[tactic(auto, unfolding(crate::specs::Readers::quoted))]
    pub(crate) fn quoted(&mut self) -> Result<Code, ReadFault>
        ensures { ReadsTokens result (rest self.new) (quoted_of (rest self.old)) }
    {
        match self.code_if()? {
            Some(code) => Ok(code),
            None => Err(self.stuck()),
        }
    }
}

// What may follow others of its kind.
pub(crate) trait Follows: Drop {
    ghost follows: { Reader (Option Self) };

    // One more, where one follows.
    fn follow(alloc: Global, cursor: &mut Cursor) -> Result<Option<Self>, ReadFault>
        ensures { ReadsTokens result (rest cursor.new) (follows (rest cursor.old)) };
}

// The elements in front, and then all that follow.
#[tactic(auto, unfolding(crate::specs::Readers::list_on), using(crate::proofs::ReaderLemmas::steps))]
pub(crate) fn list_on<F: Follows>(
    alloc: Global,
    front: Vec<F>,
    cursor: &mut Cursor,
) -> Result<List<F>, ReadFault>
    ensures { ReadsTokens result (rest cursor.new)
        (list_on_of front.items F.follows (rest cursor.old)) }
{
    let mut elements = front;
    'elements: for _ in (0..cursor.left()).rev() {
        match F::follow(alloc, cursor) {
            Ok(Some(element)) => elements.push(element)?,
            Ok(None) => return Ok(List::from_vec(elements)),
            Err(fault) => return Err(fault),
        }
    }
    Ok(List::from_vec(elements))
}

// What stands in lists of one at the least.
pub(crate) trait Listed: Follows {
    ghost reads: { Reader Self };

    // The first of a list.
    fn read(alloc: Global, cursor: &mut Cursor) -> Result<Self, ReadFault>
        ensures { ReadsTokens result (rest cursor.new) (reads (rest cursor.old)) };
}

// One element, and then all that follow.
#[tactic(auto, unfolding(crate::specs::Readers::list_reader))]
pub(crate) fn list_reader<L: Listed>(
    alloc: Global,
    cursor: &mut Cursor,
) -> Result<List<L>, ReadFault>
    ensures { ReadsTokens result (rest cursor.new)
        (list_of_read L.reads L.Follows.follows (rest cursor.old)) }
{
    let first = L::read(alloc, cursor)?;
    let mut front = Vec::new(alloc);
    front.push(first)?;
    list_on(alloc, front, cursor)
}
