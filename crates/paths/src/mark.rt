//! Marks, and their letters.
ghost use Rattle.std.specs.Prelude.{Some};
ghost use Rattle.paths.specs.Marks.{mark_of};
ghost use Rattle.paths.specs.Spelling.{spell};

use std::fmt;

/// A mark of a path; F, C and D carry the number of a reference or a check.
#[derive(Clone, Copy, PartialEq, Eq, Debug)]
pub enum Mark {
    /// IF takes its first block.
    T,
    /// IF takes its second block.
    E,
    /// WHILE goes in.
    L,
    /// WHILE goes out.
    O,
    /// NEXT finds a row.
    N,
    /// NEXT throws.
    X,
    /// A write is done.
    W,
    /// A write throws: two rows share a key.
    K,
    /// A write throws: a reference finds no key.
    F(u32),
    /// A write throws: a check is broken.
    C(u32),
    /// A write throws: a reference holds a row.
    D(u32),
}

/// A mark as it is written: its letter, and its number in decimal.
impl fmt::Display for Mark {
    ghost output = { λ m. Some (spell (mark_of m)) };

    fn fmt<W: fmt::Write>(&self, f: &mut fmt::Formatter<W>) -> fmt::Result {
        match *self {
            Mark::T => f.write_str("T"),
            Mark::E => f.write_str("E"),
            Mark::L => f.write_str("L"),
            Mark::O => f.write_str("O"),
            Mark::N => f.write_str("N"),
            Mark::X => f.write_str("X"),
            Mark::W => f.write_str("W"),
            Mark::K => f.write_str("K"),
            Mark::F(number) => write!(f, "F{number}"),
            Mark::C(number) => write!(f, "C{number}"),
            Mark::D(number) => write!(f, "D{number}"),
        }
    }
}
