//! Tokens that have to come, pulled one at a time.
ghost use Rattle.std.specs.Prelude.{◌≡◌};
ghost use Rattle.lexer.specs.Tokens.{lexeme_of};
ghost use Rattle.terms.specs.declared.pull.Word.{Word};
ghost use Rattle.terms.specs.declared.pull.Word.TheVariants as word;
ghost use Rattle.terms.specs.Pull.{word_of, pulled, must_be, taken_from};

use faults::Fault;
use lexer::keywords::Keyword;
use lexer::signs::Sign;
use lexer::token::{Token, next_token};

/// What a token is, apart from its bytes.
#[derive(Clone, Copy, PartialEq, Eq)]
pub enum Word {
    Name,
    Number(u32),
    Keyword(Keyword),
    Sign(Sign),
}

impl From<Sign> for Word {
    ghost from_gives = { λ s w. w ≡ word.Sign s };

    fn from(sign: Sign) -> Word {
        Word::Sign(sign)
    }
}

impl From<Keyword> for Word {
    ghost from_gives = { λ k w. w ≡ word.Keyword k };

    fn from(keyword: Keyword) -> Word {
        Word::Keyword(keyword)
    }
}

impl From<Token<'_>> for Word {
    ghost from_gives = { λ t w. w ≡ word_of (lexeme_of t).kind };

    fn from(token: Token<'_>) -> Word {
        match token {
            Token::Name(_) => Word::Name,
            Token::Number(_, n) => Word::Number(n),
            Token::Keyword(_, k) => Word::Keyword(k),
            Token::Sign(_, s) => Word::Sign(s),
        }
    }
}

/// A token as plain numbers: what it is, the place of its first byte, and the place behind it.
#[derive(Clone, Copy)]
pub struct Pulled {
    pub word: Word,
    pub place: usize,
    pub end: usize,
}

impl Pulled {
    /// Refuses the token, unless it may stand there.
    pub fn must(self, fits: bool) -> Result<(), Fault>
        ensures { result ≡ must_be fits self }
    {
        if fits {
            return Ok(());
        }
        Err(Fault::NotAllowed { place: self.place })
    }

    /// How many more may come behind the token, where so many may come with it; refused where none may.
    pub fn take_from(self, room: usize) -> Result<usize, Fault>
        ensures { result ≡ taken_from room self }
    {
        room.checked_sub(1)
            .ok_or(Fault::LimitPassed { place: self.place })
    }
}

/// The token that has to come from a place on.
// It takes a text and a place and no `Reader`: a reader pulls by it, and a loop that only gathers tokens keeps no more than a place.
pub fn pull(text: &[u8], at: usize) -> Result<Pulled, Fault>
    ensures { result ≡ pulled text.now at }
{
    match next_token(text, at)? {
        Some((token, end)) => {
            let place = token.part().place;
            let word = Word::from(token);
            Ok(Pulled { word, place, end })
        }
        None => Err(Fault::NotAllowed { place: text.len() }),
    }
}
