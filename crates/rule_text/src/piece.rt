//! The tokens of a text, found one behind another.
ghost use Rattle.std.specs.Prelude.{◌≡◌, ℕ, List, ◌+◌, ◌-◌, ◌^◌, ◌<◌, ◌≤◌, ◌⊎◌, ◌++◌, ◌∷◌, [], min};
ghost use Rattle.std.specs.Prelude.{slice_index, IfSome, length, take, if◌then◌else◌, Some, None};
ghost use Rattle.std.specs.Prelude.{IfOk};
ghost use Rattle.std.specs.List.{prefix_len};
ghost use Rattle.std.specs.Char.{is_ascii_digit};
ghost use Rattle.reg_base.specs.Codes.{is_code, is_code_byte as is_code_byte_of};
ghost use Rattle.reg_base.specs.Numbers.{read_on as read_on_from};
ghost use Rattle.rule_text.specs.Tokens.{is_blank, is_word_byte, spelling_of};
ghost use Rattle.rule_text.specs.Tokens.{literal_of as literal_of_digits};
ghost use Rattle.rule_text.specs.Tokens.{decimal_count as decimal_count_of};
ghost use Rattle.rule_text.specs.Tokens.{word_lexeme as word_lexeme_of};
ghost use Rattle.rule_text.specs.Tokens.{number_lexeme as number_lexeme_of};
ghost use Rattle.rule_text.specs.Tokens.{quoted_lexeme as quoted_lexeme_of};
ghost use Rattle.rule_text.specs.Tokens.{mark_lexeme as mark_lexeme_of, lexeme_of};
ghost use Rattle.rule_text.specs.Tokens.{closed_code as closed_code_of, pieces_from};
ghost use Rattle.rule_text.specs.Tokens.{tokens_of as tokens_of_text};

use crate::mark::{double_mark, single_mark};
use crate::{Lexeme, Literal, Spelling, Token};
use reg_base::{Code, LARGEST_UNITS, List, Memory, Name, digit_count, is_code_byte, read_on};
use std::alloc::Global;
use std::str;

// How many bytes a code has at the most.
const LONGEST_CODE: usize = 32;

// The tokens of a text, each with its place.
#[tactic(auto, unfolding(crate::specs::Tokens::tokens_of))]
pub(crate) fn tokens_of(alloc: Global, text: &str) -> Result<List<Lexeme>, Memory>
    ensures { IfOk result (λ tokens. tokens ≡ tokens_of_text text.now) }
{
    pieces_of(alloc, text.as_bytes())
}

// A piece of a text, between blanks or other pieces.
trait Piece: Drop {
    ghost begins: { ℕ → List ℕ → Self };

    ghost len_of: { Self → ℕ };

    // The piece at the place, whose first byte is the first of these.
    fn begin(place: usize, bytes: &[u8]) -> Self
        requires some { 0 < length bytes.now }
        requires fits { place + length bytes.now < 2 ^ 63 }
        ensures value { result ≡ begins place bytes.now }
        ensures within { len_of result ≤ length bytes.now };

    fn len(&self) -> usize
        ensures { result ≡ len_of self.now };
}

impl Piece for Lexeme {
    ghost begins = { lexeme_of };

    ghost len_of = { λ lexeme. lexeme.len };

    fn begin(place: usize, bytes: &[u8]) -> Lexeme {
        lexeme_at(place, bytes)
    }

    fn len(&self) -> usize {
        self.len
    }
}

#[tactic(auto, using(crate::proofs::TokenLemmas::steps))]
fn pieces_of<P: Piece>(alloc: Global, bytes: &[u8]) -> Result<List<P>, Memory>
    ensures { IfOk result
        (λ pieces. pieces ≡ pieces_from P.begins P.len_of (length bytes.now) bytes.now 0) }
{
    let mut pieces = Vec::new(alloc);
    let mut place = 0;
    'pieces: for _ in (0..bytes.len()).rev() {
        let start = place + blank_len(&bytes[place..]);
        if start >= bytes.len() {
            return Ok(List::from_vec(pieces));
        }
        let piece = P::begin(start, &bytes[start..]);
        place = start + piece.len();
        pieces.push(piece)?;
    }
    Ok(List::from_vec(pieces))
}

fn blank_len(bytes: &[u8]) -> usize
    ensures value { result ≡ prefix_len is_blank bytes.now }
    ensures within { result ≤ length bytes.now }
{
    bytes
        .iter()
        .take_while(|b| matches!(**b, b' ' | b'\t' | b'\r' | b'\n'))
        .count()
}

// The token at the place, whose first byte is the first of these.
#[tactic(auto, unfolding(crate::specs::Tokens::lexeme_of))]
fn lexeme_at(place: usize, bytes: &[u8]) -> Lexeme
    requires some { 0 < length bytes.now }
    requires fits { place + length bytes.now < 2 ^ 63 }
    ensures value { result ≡ lexeme_of place bytes.now }
    ensures within { result.len ≤ length bytes.now }
{
    let first = bytes[0];
    if first.is_ascii_alphabetic() {
        word_lexeme(place, bytes)
    } else if first.is_ascii_digit() {
        number_lexeme(place, bytes)
    } else if first == b'"' {
        quoted_lexeme(place, bytes)
    } else {
        mark_lexeme(place, bytes)
    }
}

#[tactic(auto, unfolding(crate::specs::Tokens::word_lexeme))]
fn word_lexeme(place: usize, bytes: &[u8]) -> Lexeme
    ensures value { result ≡ word_lexeme_of place bytes.now }
    ensures within { result.len ≤ length bytes.now }
{
    let len = word_len(bytes);
    Lexeme {
        place,
        token: Token::Word(spelling_at(&bytes[..len])),
        len,
    }
}

fn word_len(bytes: &[u8]) -> usize
    ensures value { result ≡ prefix_len is_word_byte bytes.now }
    ensures within { result ≤ length bytes.now }
{
    bytes
        .iter()
        .take_while(|b| b.is_ascii_alphanumeric() || **b == b'_')
        .count()
}

fn spelling_at(bytes: &[u8]) -> Spelling
    ensures { result ≡ spelling_of bytes.now }
{
    match str::from_utf8(bytes) {
        Ok(text) => spelling(text),
        Err(_) => Spelling::Other,
    }
}

fn spelling(text: &str) -> Spelling
    ensures { result ≡ spelling_of text.now }
{
    match Name::parse(text) {
        Some(name) => Spelling::Named(name),
        None => Spelling::Other,
    }
}

#[tactic(auto, unfolding(crate::specs::Tokens::number_lexeme))]
fn number_lexeme(place: usize, bytes: &[u8]) -> Lexeme
    ensures value { result ≡ number_lexeme_of place bytes.now }
    ensures within { result.len ≤ length bytes.now }
{
    let whole = digit_count(bytes);
    let decimals = decimal_count(bytes, whole);
    if decimals == 0 {
        return Lexeme {
            place,
            token: Token::Number(literal_of(&bytes[..whole], &[], 0)),
            len: whole,
        };
    }
    let rest = &bytes[whole + 1..];
    Lexeme {
        place,
        token: Token::Number(literal_of(&bytes[..whole], &rest[..decimals], decimals)),
        len: whole + 1 + decimals,
    }
}

#[tactic(auto, unfolding(crate::specs::Tokens::decimal_count))]
fn decimal_count(bytes: &[u8], whole: usize) -> usize
    requires { whole ≤ length bytes.now }
    ensures value { result ≡ decimal_count_of bytes.now whole }
    ensures within { (result ≡ 0) ⊎ (whole + 1 + result ≤ length bytes.now) }
{
    match bytes.get(whole) {
        Some(b'.') => digit_count(&bytes[whole + 1..]),
        _ => 0,
    }
}

fn literal_of(whole: &[u8], decimals: &[u8], count: usize) -> Literal
    ensures { let digits = read_on_from (read_on_from 0 whole.now) decimals.now in
        result ≡ literal_of_digits digits count }
{
    let digits = read_on(read_on(0, whole), decimals);
    Literal {
        digits: digits.min(LARGEST_UNITS + 1),
        decimals: count,
    }
}

#[tactic(auto, unfolding(crate::specs::Tokens::quoted_lexeme))]
fn quoted_lexeme(place: usize, bytes: &[u8]) -> Lexeme
    requires some { 0 < length bytes.now }
    requires fits { place + length bytes.now < 2 ^ 63 }
    ensures value { result ≡ quoted_lexeme_of place bytes.now }
    ensures within { result.len ≤ length bytes.now }
{
    let len = code_len(&bytes[1..]);
    match closed_code(bytes, len) {
        Some(code) => Lexeme {
            place,
            len: len + 2,
            token: Token::Quoted(code),
        },
        None => Lexeme {
            place,
            len: 1,
            token: Token::Broken(place + 1 + len.min(LONGEST_CODE)),
        },
    }
}

// The code of so many bytes behind a quote, where another quote closes it.
#[tactic(auto, unfolding(crate::specs::Tokens::closed_code))]
fn closed_code(bytes: &[u8], len: usize) -> Option<Code>
    requires { len < length bytes.now }
    ensures value { result ≡ closed_code_of bytes.now len }
    ensures within { IfSome result (λ code. len + 2 ≤ length bytes.now) }
{
    if byte_at(bytes, len + 1) != b'"' {
        return None;
    }
    let rest = &bytes[1..];
    code_at(&rest[..len])
}

fn code_len(bytes: &[u8]) -> usize
    ensures value { result ≡ prefix_len is_code_byte_of bytes.now }
    ensures within { result ≤ length bytes.now }
{
    bytes.iter().take_while(|b| is_code_byte(**b)).count()
}

fn code_at(bytes: &[u8]) -> Option<Code>
    ensures { result ≡ (if is_code bytes.now then Some bytes.now else None) }
{
    match str::from_utf8(bytes) {
        Ok(text) => Code::parse(text),
        Err(_) => None,
    }
}

// The byte at the place, and 0 behind the end.
fn byte_at(bytes: &[u8], place: usize) -> u8
    ensures { result ≡ slice_index bytes.now place }
{
    match bytes.get(place) {
        Some(byte) => *byte,
        None => 0,
    }
}

#[tactic(auto, unfolding(crate::specs::Tokens::mark_lexeme), using(crate::proofs::TokenLemmas::lengths))]
fn mark_lexeme(place: usize, bytes: &[u8]) -> Lexeme
    requires some { 0 < length bytes.now }
    ensures value { result ≡ mark_lexeme_of place bytes.now }
    ensures within { result.len ≤ length bytes.now }
{
    let first = byte_at(bytes, 0);
    if let Some(mark) = double_mark(first, byte_at(bytes, 1)) {
        return Lexeme {
            place,
            token: Token::Sign(mark),
            len: 2,
        };
    }
    match single_mark(first) {
        Some(mark) => Lexeme {
            place,
            token: Token::Sign(mark),
            len: 1,
        },
        None => Lexeme {
            place,
            token: Token::Broken(place),
            len: 1,
        },
    }
}
