//! The class of each byte of a model text: one table, its rule proved once.
#![tactic(auto)]

ghost use Rattle.std.specs.Prelude.{◌≡◌};
ghost use Rattle.classes.specs.Bytes.{class_of};

mod table;

use table::CLASSES;

/// What a byte of a model text can be part of.
#[derive(Clone, Copy, PartialEq, Eq)]
pub enum Class {
    /// No token.
    Other,
    /// What parts tokens.
    Blank,
    /// A name or a keyword.
    Letter,
    /// A number, or a name or a keyword from its second byte on.
    Digit,
    /// A sign of one byte.
    Sign,
    /// A sign of two such bytes.
    Twin,
}

/// The class of a byte: the one place where the table is read.
pub fn class_of(byte: u8) -> Class
    ensures { result ≡ class_of byte }
{
    // Lent: an entry of the table by its name alone copies the whole table at each call.
    let classes = &CLASSES;
    classes[byte as usize]
}
