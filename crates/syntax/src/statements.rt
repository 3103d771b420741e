//! Statements and blocks: a block reads statements, and IF and WHILE read blocks, one level less deep each time.
ghost use Rattle.std.specs.Prelude.{◌≡◌};
ghost use Rattle.terms.specs.Readers.{Reads};
ghost use Rattle.syntax.specs.States.{Proceeds, ProceedsMore};
ghost use Rattle.syntax.specs.Statements.{first_of, simple_body, simple_rest, last_word, part_at, branch_at, loop_at, holding, statement_by, block_at};

use super::clauses::{Write, argument_end, term_end, value_end, write_end};
use super::limited::Limited;
use faults::Fault;
use lexer::keywords::Keyword;
use lexer::signs::Sign;
use terms::pull::{Pulled, Word};
use terms::reader::Reader;
use terms::terms::Want;

/// A statement that holds blocks.
#[derive(Clone, Copy)]
pub(crate) enum Holder {
    If,
    While,
}

// An enum and no function: the limit is told before the statement is read, and a function pointer cannot be handed out.
/// What a statement begins with: a variable, READ, LOAD or NEXT, a write, COMMIT or ROLLBACK, IF or WHILE.
#[derive(Clone, Copy)]
pub(crate) enum First {
    Target,
    Argument,
    Write(Write),
    Call,
    Holder(Holder),
    Nothing,
}

fn first_of(word: Word) -> First
    ensures { result ≡ first_of word }
{
    match word {
        Word::Name => First::Target,
        Word::Keyword(Keyword::Read | Keyword::Load | Keyword::Next) => First::Argument,
        Word::Keyword(Keyword::Insert) => First::Write(Write::Insert),
        Word::Keyword(Keyword::Update) => First::Write(Write::Update),
        Word::Keyword(Keyword::Delete) => First::Write(Write::Delete),
        Word::Keyword(Keyword::Commit | Keyword::Rollback) => First::Call,
        Word::Keyword(Keyword::If) => First::Holder(Holder::If),
        Word::Keyword(Keyword::While) => First::Holder(Holder::While),
        _ => First::Nothing,
    }
}

/// The reader behind a statement that holds no block but for its semicolon, from behind its first token on.
fn body_end(at: Reader, first: First) -> Result<Reader, Fault>
    ensures { Reads (λ text from. simple_body text first from) at.entry result }
{
    match first {
        First::Target => value_end(at.expect(Sign::Equal)?),
        First::Argument => argument_end(at),
        First::Write(write) => write_end(at, write),
        _ => at.expect(Sign::Open)?.expect(Sign::Close),
    }
}

/// The reader behind such a statement.
fn simple_end(at: Reader, first: First) -> Result<Reader, Fault>
    ensures { Reads (λ text from. simple_rest text first from) at.entry result }
{
    body_end(at, first)?.expect(Sign::Semicolon)
}

/// The reader behind the word that ends IF or WHILE and its semicolon.
fn last_end(at: Reader, keyword: Keyword) -> Result<Reader, Fault>
    ensures { Reads (λ text from. last_word text keyword from) at.entry result }
{
    at.expect(keyword)?.expect(Sign::Semicolon)
}

/// A word and the block behind it.
#[cycle(statements)]
fn read_part(state: Limited, keyword: Keyword, depth: usize) -> Result<Limited, Fault>
    ensures { Proceeds (λ text s. part_at text (block_at text depth) keyword s) state.entry result }
{
    let at = state.at.expect(keyword)?;
    read_block(Limited { at, ..state }, depth)
}

/// IF, from its condition on.
#[cycle(statements)]
fn read_branch(state: Limited, depth: usize) -> Result<Limited, Fault>
    ensures { Proceeds (λ text s. branch_at text (block_at text depth) s.0 s.1) state.entry result }
{
    let at = term_end(state.at, Want::Truth)?;
    let state = read_part(Limited { at, ..state }, Keyword::Then, depth)?;
    let state = read_part(state, Keyword::Else, depth)?;
    let at = last_end(state.at, Keyword::EndIf)?;
    Ok(Limited { at, ..state })
}

/// WHILE, from its condition on.
#[cycle(statements)]
fn read_loop(state: Limited, depth: usize) -> Result<Limited, Fault>
    ensures { Proceeds (λ text s. loop_at text (block_at text depth) s.0 s.1) state.entry result }
{
    let at = term_end(state.at, Want::Truth)?;
    let state = read_part(Limited { at, ..state }, Keyword::Do, depth)?;
    let at = last_end(state.at, Keyword::EndWhile)?;
    Ok(Limited { at, ..state })
}

/// A statement that holds blocks, from behind its first token `p` on, where so many more levels are allowed.
#[cycle(statements)]
fn read_holder(state: Limited, holder: Holder, p: Pulled, depth: usize) -> Result<Limited, Fault>
    ensures { Proceeds (λ text s. holding text depth holder p.place s.0 s.1) state.entry result }
{
    let depth = p.take_from(depth)?;
    match holder {
        Holder::If => read_branch(state, depth),
        Holder::While => read_loop(state, depth),
    }
}

/// One statement more, if one comes.
#[cycle(statements)]
fn next_statement(state: Limited, depth: usize) -> Result<Option<Limited>, Fault>
    ensures { ProceedsMore (λ text s. statement_by text (holding text depth) s) state.entry result }
{
    let (p, at) = state.at.pull()?;
    let first = first_of(p.word);
    if let First::Nothing = first {
        return Ok(None);
    }
    let room = p.take_from(state.room)?;
    if let First::Holder(holder) = first {
        return Ok(Some(read_holder(Limited { at, room }, holder, p, depth)?));
    }
    let at = simple_end(at, first)?;
    Ok(Some(Limited { at, room }))
}

/// Statements one after another, up to a token that begins none.
#[cycle(statements)]
pub(crate) fn read_block(mut state: Limited, depth: usize) -> Result<Limited, Fault>
    ensures { Proceeds (λ text s. block_at text depth s.0 s.1) state.entry result }
{
    while let Some(next) = next_statement(state, depth)? {
        state = next;
    }
    Ok(state)
}
