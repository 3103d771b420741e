//! What operators take and give.
ghost use Rattle.std.specs.Prelude.{◌≡◌};
ghost use Rattle.terms.specs.Shapes.{operator_of, sides_of, given_by, serves, left_side, inner_of, made_of};

use lexer::signs::Sign;

/// What a term is: a lone name, another expression, or a condition.
#[derive(Clone, Copy, PartialEq, Eq)]
pub enum Shape {
    Name,
    Value,
    Truth,
}

/// What a place asks for; while both can still come, either.
#[derive(Clone, Copy)]
pub enum Want {
    Value,
    Truth,
    Either,
}

/// What an operator with two sides does.
#[derive(Clone, Copy)]
pub enum Operator {
    Computes,
    Compares,
    Joins,
}

/// The operator that a sign is, if it is one.
pub(crate) fn operator_of(sign: Sign) -> Option<Operator>
    ensures { result ≡ operator_of sign }
{
    match sign {
        Sign::Plus | Sign::Minus | Sign::Times | Sign::Over => Some(Operator::Computes),
        Sign::Less | Sign::Equal | Sign::More => Some(Operator::Compares),
        Sign::And | Sign::Or => Some(Operator::Joins),
        _ => None,
    }
}

/// What an operator has on both sides.
pub(crate) fn sides_of(operator: Operator) -> Want
    ensures { result ≡ sides_of operator }
{
    match operator {
        Operator::Computes | Operator::Compares => Want::Value,
        Operator::Joins => Want::Truth,
    }
}

/// What an operator makes of them.
pub(crate) fn given_by(operator: Operator) -> Shape
    ensures { result ≡ given_by operator }
{
    match operator {
        Operator::Computes => Shape::Value,
        Operator::Compares | Operator::Joins => Shape::Truth,
    }
}

/// Whether a term of a shape is what a place asks for.
pub(crate) fn is_served(want: Want, shape: Shape) -> bool
    ensures { result ≡ serves want shape }
{
    matches!(
        (want, shape),
        (Want::Either, _) | (Want::Value, Shape::Name | Shape::Value) | (Want::Truth, Shape::Truth)
    )
}

/// What the left side in a bracket can be, where the bracket is asked for.
pub(crate) fn left_side(want: Want) -> Want
    ensures { result ≡ left_side want }
{
    match want {
        Want::Value => Want::Value,
        Want::Truth | Want::Either => Want::Either,
    }
}

/// What stands behind `-` or `!` at the front of a bracket.
pub(crate) fn inner_of(sign: Sign) -> Want
    ensures { result ≡ inner_of sign }
{
    if sign == Sign::Minus {
        Want::Value
    } else {
        Want::Truth
    }
}

/// What such a bracket is.
pub(crate) fn made_of(sign: Sign) -> Shape
    ensures { result ≡ made_of sign }
{
    if sign == Sign::Minus {
        Shape::Value
    } else {
        Shape::Truth
    }
}
