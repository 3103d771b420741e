//! The form of a whole model.
ghost use Rattle.std.specs.Prelude.{◌≡◌, Ok};
ghost use Rattle.syntax.specs.Grammar.{Formed};
ghost use Rattle.syntax.specs.Whole.{end_at, form_of};

use super::limited::Limited;
use super::statements::read_block;
use super::tables::tables_end;
use faults::Fault;
use lexer::keywords::Keyword;
use lexer::token::next_token;
use lexer::tokens::check_length;
use terms::pull::Word;
use terms::reader::Reader;

/// Refuses a token behind the model.
fn expect_end(at: Reader) -> Result<(), Fault>
    ensures { result ≡ end_at at.entry.text.now at.entry.at }
{
    match next_token(at.text, at.at)? {
        None => Ok(()),
        Some((token, _)) => Err(Fault::NotAllowed {
            place: token.part().place,
        }),
    }
}

/// Reads a model to its end: MODEL, a name, tables, statements, ENDMODEL.
fn read_model(text: &[u8]) -> Result<(), Fault>
    ensures { result ≡ form_of text.now }
{
    check_length(text)?;
    let at = Reader { text, at: 0 }
        .expect(Keyword::Model)?
        .expect(Word::Name)?;
    let at = tables_end(at)?;
    let state = read_block(Limited { at, room: 256 }, 8)?;
    expect_end(state.at.expect(Keyword::EndModel)?)
}

/// Checks the form of a model: it is accepted exactly when its text spells a well-formed model.
pub fn check_form(text: &[u8]) -> Result<(), Fault>
    ensures value { result ≡ form_of text.now }
    ensures accepts { result ≡ Ok tt → Formed text.now }
    ensures completes { Formed text.now → result ≡ Ok tt }
{
    read_model(text)
}
