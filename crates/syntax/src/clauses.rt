//! The parts of statements.
ghost use Rattle.std.specs.Prelude.{◌≡◌};
ghost use Rattle.terms.specs.Readers.{Reads};
ghost use Rattle.syntax.specs.States.{ReadsMore};
ghost use Rattle.syntax.specs.Clauses.{term_end, where_at, element_at, element_behind, list_at, argument_at, insert_rest, update_rest, delete_rest, write_rest, act_at, caught_rest, select_rest, tail_at, value_rest};

use faults::Fault;
use lexer::keywords::Keyword;
use lexer::signs::Sign;
use terms::pull::Word;
use terms::reader::Reader;
use terms::terms::{Want, read_term};

/// How many brackets may be open in a term, one in another.
const MOST_BRACKETS: usize = 12;

/// The reader behind a term.
pub(crate) fn term_end(at: Reader, want: Want) -> Result<Reader, Fault>
    ensures { Reads (λ text from. term_end text want from) at.entry result }
{
    let (_, behind) = read_term(at, want, MOST_BRACKETS)?;
    Ok(behind)
}

/// The reader behind WHERE and its condition.
fn where_end(at: Reader) -> Result<Reader, Fault>
    ensures { Reads where_at at.entry result }
{
    term_end(at.expect(Keyword::Where)?, Want::Truth)
}

// An enum and no closure: what a closure reads would have to be a ghost value, which a loop's invariant cannot name (tried).
/// What a list is made of: attributes in SELECT, values in INSERT.
#[derive(Clone, Copy)]
pub(crate) enum Element {
    Attribute,
    Value,
}

/// The reader behind an element.
fn element_end(at: Reader, element: Element) -> Result<Reader, Fault>
    ensures { Reads (λ text from. element_at text element from) at.entry result }
{
    match element {
        Element::Attribute => at.expect(Word::Name),
        Element::Value => term_end(at, Want::Value),
    }
}

/// The reader behind a comma and one element more, if a comma comes.
fn element_behind(at: Reader, element: Element) -> Result<Option<Reader>, Fault>
    ensures { ReadsMore (λ text from. element_behind text element from) at.entry result }
{
    match at.expect(Sign::Comma) {
        Ok(comma) => Ok(Some(element_end(comma, element)?)),
        Err(_) => Ok(None),
    }
}

/// The reader behind elements with commas between them.
fn list_end(at: Reader, element: Element) -> Result<Reader, Fault>
    ensures { Reads (λ text from. list_at text element from) at.entry result }
{
    let mut end = element_end(at, element)?;
    while let Some(next) = element_behind(end, element)? {
        end = next;
    }
    Ok(end)
}

/// The reader behind a name in brackets.
pub(crate) fn argument_end(at: Reader) -> Result<Reader, Fault>
    ensures { Reads argument_at at.entry result }
{
    at.expect(Sign::Open)?
        .expect(Word::Name)?
        .expect(Sign::Close)
}

/// The reader behind INSERT, from INTO on.
fn insert_end(at: Reader) -> Result<Reader, Fault>
    ensures { Reads insert_rest at.entry result }
{
    let at = at.expect(Keyword::Into)?.expect(Word::Name)?;
    let at = at.expect(Keyword::Values)?.expect(Sign::Open)?;
    list_end(at, Element::Value)?.expect(Sign::Close)
}

/// The reader behind UPDATE, from its table on.
fn update_end(at: Reader) -> Result<Reader, Fault>
    ensures { Reads update_rest at.entry result }
{
    let at = at.expect(Word::Name)?.expect(Keyword::Set)?;
    let at = at.expect(Word::Name)?.expect(Sign::Equal)?;
    where_end(term_end(at, Want::Value)?)
}

/// The reader behind DELETE, from FROM on.
fn delete_end(at: Reader) -> Result<Reader, Fault>
    ensures { Reads delete_rest at.entry result }
{
    where_end(at.expect(Keyword::From)?.expect(Word::Name)?)
}

// An enum and no function: it is told apart from the reading, and a function pointer cannot be handed out.
/// What a statement that writes begins with.
#[derive(Clone, Copy)]
pub(crate) enum Write {
    Insert,
    Update,
    Delete,
}

/// The reader behind a write, from its second token on.
pub(crate) fn write_end(at: Reader, write: Write) -> Result<Reader, Fault>
    ensures { Reads (λ text from. write_rest text write from) at.entry result }
{
    match write {
        Write::Insert => insert_end(at),
        Write::Update => update_end(at),
        Write::Delete => delete_end(at),
    }
}

/// The reader behind what CATCH wraps: NEXT or a write.
fn act_end(at: Reader) -> Result<Reader, Fault>
    ensures { Reads act_at at.entry result }
{
    let (p, behind) = at.pull()?;
    match p.word {
        Word::Keyword(Keyword::Next) => argument_end(behind),
        Word::Keyword(Keyword::Insert) => insert_end(behind),
        Word::Keyword(Keyword::Update) => update_end(behind),
        Word::Keyword(Keyword::Delete) => delete_end(behind),
        _ => Err(Fault::NotAllowed { place: p.place }),
    }
}

/// The reader behind CATCH, from its bracket on.
fn caught_end(at: Reader) -> Result<Reader, Fault>
    ensures { Reads caught_rest at.entry result }
{
    act_end(at.expect(Sign::Open)?)?.expect(Sign::Close)
}

/// The reader behind SELECT, from its attributes on.
fn select_end(at: Reader) -> Result<Reader, Fault>
    ensures { Reads select_rest at.entry result }
{
    let at = list_end(at, Element::Attribute)?;
    where_end(at.expect(Keyword::From)?.expect(Word::Name)?)
}

/// The reader behind `.TAIL`.
fn tail_end(at: Reader) -> Result<Reader, Fault>
    ensures { Reads tail_at at.entry result }
{
    at.expect(Sign::Dot)?.expect(Keyword::Tail)
}

/// The reader behind what an assignment gives, from behind its equals sign on.
pub(crate) fn value_end(at: Reader) -> Result<Reader, Fault>
    ensures { Reads value_rest at.entry result }
{
    let (p, behind) = at.pull()?;
    match p.word {
        Word::Keyword(Keyword::Nil) => Ok(behind),
        Word::Keyword(Keyword::Select) => select_end(behind),
        Word::Keyword(Keyword::Catch) => caught_end(behind),
        Word::Name => match tail_end(behind) {
            Ok(end) => Ok(end),
            Err(_) => term_end(at, Want::Value),
        },
        _ => term_end(at, Want::Value),
    }
}
