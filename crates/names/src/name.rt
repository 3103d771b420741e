//! Names that are written alike.
ghost use Rattle.std.specs.Prelude.{◌≡◌, ◌<◌, length, IfSome};
ghost use Rattle.names.specs.Spelled.{same_name, place_among};

use lexer::name::Name;

/// Whether two names are written alike.
pub fn is_same(text: &[u8], a: Name, b: Name) -> bool
    ensures { result ≡ same_name text.now a b }
{
    a.spelling(text) == b.spelling(text)
}

/// The place, from 0, of the first name among these that is written alike.
pub fn place_among(text: &[u8], names: &[Name], name: Name) -> Option<usize>
    ensures value { result ≡ place_among text.now names.now name }
    ensures within { IfSome result (λ i. i < length names.now) }
{
    names.iter().position(|other| is_same(text, *other, name))
}
