//! Tokens read one after another.
ghost use Rattle.std.specs.Prelude.{◌≡◌};
ghost use Rattle.terms.specs.declared.pull.Word.{Word};
ghost use Rattle.terms.specs.Pull.{word_at};
ghost use Rattle.terms.specs.Readers.{Pulls, Reads};

use super::pull::{Pulled, Word, pull};
use faults::Fault;

/// A place in a text, from which tokens are read. What reads a part of the text answers the reader behind it.
#[derive(Clone, Copy)]
pub struct Reader<'a> {
    pub text: &'a [u8],
    pub at: usize,
}

impl<'a> Reader<'a> {
    /// The token that has to come, and the reader behind it.
    pub fn pull(self) -> Result<(Pulled, Reader<'a>), Fault>
        ensures { Pulls self.entry result }
    {
        let p = pull(self.text, self.at)?;
        Ok((p, Reader { at: p.end, ..self }))
    }

    /// The reader behind a word that has to come.
    fn expect_word(self, word: Word) -> Result<Reader<'a>, Fault>
        ensures { Reads (λ text at. word_at text word at) self.entry result }
    {
        let (p, behind) = self.pull()?;
        p.must(p.word == word)?;
        Ok(behind)
    }

    /// The reader behind a token that has to come: a sign, a keyword or any other word.
    pub fn expect<W: Into<Word>>(self, due: W) -> Result<Reader<'a>, Fault>
        ensures { (w : Word) × W.converts due w × Reads (λ text at. word_at text w at) self.entry result }
    {
        self.expect_word(due.into())
    }
}
