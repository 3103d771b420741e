//! Expressions and conditions. One reader keeps both open until a token settles which it is.
ghost use Rattle.std.specs.Prelude.{◌≡◌};
ghost use Rattle.terms.specs.Grammar.{Accepts, Completes};
ghost use Rattle.terms.specs.Pull.{pulled};
ghost use Rattle.terms.specs.Readers.{ReadsIf, ReadsWith, ReadsWithTwo};
ghost use Rattle.terms.specs.Terms.{closed_as, operator_at, nil_behind, tail_of, unary, binary, opened, term_at};

use super::pull::{Pulled, Word};
use super::reader::Reader;
use super::shapes::{
    Operator, given_by, inner_of, is_served, left_side, made_of, operator_of, sides_of,
};
pub use super::shapes::{Shape, Want};
use faults::Fault;
use lexer::keywords::Keyword;
use lexer::signs::Sign;

/// The closing bracket of a term of a shape.
fn close(at: Reader, shape: Shape) -> Result<(Shape, Reader), Fault>
    ensures { ReadsWith (λ text from. closed_as text shape from) at.entry result }
{
    Ok((shape, at.expect(Sign::Close)?))
}

/// The operator behind a left side.
fn operator(at: Reader, want: Want, left: Shape) -> Result<(Operator, Sign, Reader), Fault>
    ensures { ReadsWithTwo (λ text from. operator_at text want left from) at.entry result }
{
    let (p, behind) = at.pull()?;
    let Word::Sign(sign) = p.word else {
        return Err(Fault::NotAllowed { place: p.place });
    };
    let Some(operator) = operator_of(sign) else {
        return Err(Fault::NotAllowed { place: p.place });
    };
    p.must(is_served(sides_of(operator), left) && is_served(want, given_by(operator)))?;
    Ok((operator, sign, behind))
}

/// The reader behind NIL, where it stands behind a lone name and an equals sign.
fn nil_behind(at: Reader, left: Shape, sign: Sign) -> Option<Reader>
    ensures { ReadsIf (λ text from. nil_behind text left sign from) at.entry result }
{
    if left != Shape::Name || sign != Sign::Equal {
        return None;
    }
    at.expect(Keyword::Nil).ok()
}

/// What follows a name: `.HEAD`, `(a)`, or nothing that belongs to it.
fn name_tail(at: Reader) -> Result<(Shape, Reader), Fault>
    ensures { ReadsWith (λ text from. tail_of text from (pulled text from)) at.entry result }
{
    let Ok((p, behind)) = at.pull() else {
        return Ok((Shape::Name, at));
    };
    match p.word {
        Word::Sign(Sign::Dot) => Ok((Shape::Value, behind.expect(Keyword::Head)?)),
        Word::Sign(Sign::Open) => close(behind.expect(Word::Name)?, Shape::Value),
        _ => Ok((Shape::Name, at)),
    }
}

/// What a bracket holds behind `-` or `!`, which is the token `p`.
#[cycle(terms)]
fn unary_rest(
    at: Reader,
    want: Want,
    sign: Sign,
    p: Pulled,
    depth: usize,
) -> Result<(Shape, Reader), Fault>
    ensures { ReadsWith (λ text from. unary text (term_at text depth) want sign p.place from) at.entry result }
{
    let shape = made_of(sign);
    p.must(is_served(want, shape))?;
    let (_, at) = read_term(at, inner_of(sign), depth)?;
    close(at, shape)
}

/// What a bracket holds that has two sides.
#[cycle(terms)]
fn binary_rest(at: Reader, want: Want, depth: usize) -> Result<(Shape, Reader), Fault>
    ensures { ReadsWith (λ text from. binary text (term_at text depth) want from) at.entry result }
{
    let (left, at) = read_term(at, left_side(want), depth)?;
    let (operator, sign, at) = operator(at, want, left)?;
    if let Some(at) = nil_behind(at, left, sign) {
        return close(at, Shape::Truth);
    }
    let (_, at) = read_term(at, sides_of(operator), depth)?;
    close(at, given_by(operator))
}

/// What follows an opening bracket.
#[cycle(terms)]
fn bracket(at: Reader, want: Want, depth: usize) -> Result<(Shape, Reader), Fault>
    ensures { ReadsWith (λ text from. opened text (term_at text depth) want from) at.entry result }
{
    let (p, behind) = at.pull()?;
    match p.word {
        Word::Sign(sign @ (Sign::Minus | Sign::Not)) => unary_rest(behind, want, sign, p, depth),
        _ => binary_rest(at, want, depth),
    }
}

/// An expression or a condition with at most `depth` brackets, one in another: its shape and the reader behind it.
#[cycle(terms)]
pub fn read_term(at: Reader, want: Want, depth: usize) -> Result<(Shape, Reader), Fault>
    ensures { ReadsWith (λ text from. term_at text depth want from) at.entry result }
{
    let (p, behind) = at.pull()?;
    match p.word {
        Word::Name if is_served(want, Shape::Name) => name_tail(behind),
        Word::Number(_) if is_served(want, Shape::Value) => Ok((Shape::Value, behind)),
        Word::Keyword(Keyword::True | Keyword::False) if is_served(want, Shape::Truth) => Ok((
            Shape::Truth,
            behind,
        )),
        Word::Sign(Sign::Open) => bracket(behind, want, p.take_from(depth)?),
        _ => Err(Fault::NotAllowed { place: p.place }),
    }
}

/// What `read_term` accepts is a term that the text has there, and every term that a text has there is accepted.
pub fn terms_are_the_grammar()
    ensures accepts { Accepts }
    ensures completes { Completes }
{}
