//! The signs.
ghost use Rattle.std.specs.Prelude.{◌≡◌};
ghost use Rattle.lexer.specs.Signs.{sign_of, twin_of};

#[derive(Clone, Copy, PartialEq, Eq)]
pub enum Sign {
    Not,
    Open,
    Close,
    Times,
    Plus,
    Comma,
    Minus,
    Dot,
    Over,
    Semicolon,
    Less,
    Equal,
    More,
    And,
    Or,
}

// No TryFrom for these two: the class has chosen the byte, so a refusal could never come.

/// The sign that a byte of the class of signs stands for.
pub(crate) fn sign_of(byte: u8) -> Sign
    ensures { result ≡ sign_of byte }
{
    match byte {
        b'!' => Sign::Not,
        b'(' => Sign::Open,
        b')' => Sign::Close,
        b'*' => Sign::Times,
        b'+' => Sign::Plus,
        b',' => Sign::Comma,
        b'-' => Sign::Minus,
        b'.' => Sign::Dot,
        b'/' => Sign::Over,
        b';' => Sign::Semicolon,
        b'<' => Sign::Less,
        b'=' => Sign::Equal,
        _ => Sign::More,
    }
}

/// The sign that a byte of the class of twins stands for, twice over.
pub(crate) fn twin_of(byte: u8) -> Sign
    ensures { result ≡ twin_of byte }
{
    if byte == b'&' { Sign::And } else { Sign::Or }
}
