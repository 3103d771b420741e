//! The token at a place of a model text.
ghost use Rattle.std.specs.Prelude.{◌≡◌, ◌+◌, ◌<◌, ◌≤◌, length, take, drop, IfSome, IfOk, Ok};
ghost use Rattle.lexer.specs.Runs.{Word, Digits, reach_of};
ghost use Rattle.lexer.specs.Numbers.{number_of};
ghost use Rattle.lexer.specs.Layout.{Advances};
ghost use Rattle.lexer.specs.Tokens.{lexeme_of, front_read, next_read, after};
ghost use Rattle.lexer.specs.Lexing.{word_token, number_token, twin_token, front_token, next_token, with_end};

use super::keywords::{Keyword, keyword_of};
use super::numbers::read_number;
use super::runs::reach;
use super::signs::{Sign, sign_of, twin_of};
use classes::{Class, class_of};
use faults::Fault;

/// A part of the model text, with the place of its first byte.
#[derive(Clone, Copy)]
pub struct Part<'a> {
    pub bytes: &'a [u8],
    pub place: usize,
}

/// A token: the part of the text that it is, and what that stands for.
#[derive(Clone, Copy)]
pub enum Token<'a> {
    Name(Part<'a>),
    Number(Part<'a>, u32),
    Keyword(Part<'a>, Keyword),
    Sign(Part<'a>, Sign),
}

impl<'a> Token<'a> {
    /// The part of the text that the token is.
    pub fn part(self) -> Part<'a>
        ensures bytes { result.bytes.now ≡ (lexeme_of self.entry).bytes }
        ensures place { result.place ≡ (lexeme_of self.entry).place }
    {
        match self {
            Token::Name(part)
            | Token::Number(part, _)
            | Token::Keyword(part, _)
            | Token::Sign(part, _) => part,
        }
    }
}

impl<'a> Part<'a> {
    /// The first bytes of the part.
    fn front(self, count: usize) -> Part<'a>
        requires { count ≤ length self.bytes.now }
        ensures bytes { result.bytes.now ≡ take count self.entry.bytes.now }
        ensures place { result.place ≡ self.entry.place }
    {
        Part {
            bytes: &self.bytes[..count],
            place: self.place,
        }
    }

    /// The word at the front: a keyword or a name.
    fn word(self) -> Token<'a>
        ensures { lexeme_of result ≡ word_token (take (reach_of Word self.entry.bytes.now) self.entry.bytes.now) self.entry.place }
    {
        let word = self.front(reach(
            self.bytes,
            |class| matches!(class, Class::Letter | Class::Digit),
        ));
        match keyword_of(word.bytes) {
            Some(keyword) => Token::Keyword(word, keyword),
            None => Token::Name(word),
        }
    }

    /// The number at the front, all of the digits there.
    fn number(self) -> Result<Token<'a>, Fault>
        ensures { front_read result ≡ number_token (number_of (take (reach_of Digits self.entry.bytes.now) self.entry.bytes.now)) (take (reach_of Digits self.entry.bytes.now) self.entry.bytes.now) self.entry.place }
    {
        let digits = self.front(reach(self.bytes, |class| class == Class::Digit));
        match read_number(digits.bytes) {
            Some(number) => Ok(Token::Number(digits, number)),
            None => Err(Fault::NoToken { place: self.place }),
        }
    }

    /// The sign of two equal bytes at the front.
    fn twin(self) -> Result<Token<'a>, Fault>
        ensures { front_read result ≡ twin_token self.entry.bytes.now self.entry.place }
    {
        match self.bytes {
            [a, b, ..] if a == b => Ok(Token::Sign(self.front(2), twin_of(*a))),
            _ => Err(Fault::NoToken { place: self.place }),
        }
    }

    /// The token at the front of a part that begins with no blank.
    fn token(self) -> Result<Token<'a>, Fault>
        requires { 0 < length self.bytes.now }
        ensures { front_read result ≡ front_token self.entry.bytes.now self.entry.place }
    {
        let first = self.bytes[0];
        match class_of(first) {
            Class::Letter => Ok(self.word()),
            Class::Digit => self.number(),
            Class::Sign => Ok(Token::Sign(self.front(1), sign_of(first))),
            Class::Twin => self.twin(),
            Class::Blank | Class::Other => Err(Fault::NoToken { place: self.place }),
        }
    }
}

/// The next token from a place on, past the blanks there, and the place after it; or `None` where the text has ended.
// The place stands beside the token: readers go on from it, and each would have to add it up and show that it fits.
pub fn next_token<'a>(text: &'a [u8], at: usize) -> Result<Option<(Token<'a>, usize)>, Fault>
    ensures value { next_read result ≡ with_end (next_token text.now at) }
    ensures advances { IfOk result (λ o. IfSome o (λ n. Advances text.now at (lexeme_of n.0))) }
{
    if at >= text.len() {
        return Ok(None);
    }
    let place = at + reach(&text[at..], |class| class == Class::Blank);
    if place >= text.len() {
        return Ok(None);
    }
    let rest = Part {
        bytes: &text[place..],
        place,
    };
    let token = rest.token()?;
    let end = place + token.part().bytes.len();
    Ok(Some((token, end)))
}
