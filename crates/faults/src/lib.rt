//! The refusals of the bench: one fault type, carried by `?` through every layer.
#![tactic(auto)]

ghost use Rattle.std.specs.Prelude.{◌≡◌, Some};
ghost use Rattle.faults.specs.Refusals.{refusal_of, shown_refusal};
ghost use Rattle.faults.specs.declared.Fault.TheVariants.{Memory};

use std::alloc::{AllocError, AllocFailed};
use std::fmt;

/// Why a call is refused.
#[derive(Clone, Copy, PartialEq, Eq, Debug)]
pub enum Fault {
    /// The model text has more than 16,384 bytes.
    ModelTooLong,
    /// A byte, or a run of digits, that is no token.
    NoToken { place: usize },
    /// A token that is not allowed here, or the text ended.
    NotAllowed { place: usize },
    /// The first token beyond a limit of the model.
    LimitPassed { place: usize },
    /// A name that is unknown, declared twice or of two kinds, or a wrong count of values.
    WrongName { place: usize },
    /// The first TABLE that leads back to itself by its references.
    Circle { place: usize },
    /// A path that is malformed or too long.
    BadPath { place: usize },
    /// A mark that is missing, unfit or left over, by the marks before it.
    UnfitMark { before: usize },
    /// Too few condition records, scratch rows or store rows, by the number needed.
    TooFew { needed: usize },
    /// A case file whose word at this place is wrong.
    BadCase { place: usize },
    /// A row limit outside 1 to 64, or another than the store's.
    BadLimit { rows: usize },
    /// A key to put that is there already.
    KeyTaken { table: usize },
    /// A put into a table that holds as many rows as the limit allows.
    TableFull { table: usize },
    /// No such table, key or position.
    NotThere { table: usize },
    /// A buffer too short for the listing, by the bytes needed.
    ListingShort { needed: usize },
    /// No memory: no refusal of the rules, so it has no number.
    Memory,
}

/// What a refusal tells: its number, its layer and its place.
#[derive(Clone, Copy)]
pub struct Refusal {
    pub number: u8,
    pub layer: u8,
    pub place: usize,
}

impl Fault {
    /// The refusal that the fault stands for; want of memory is none.
    pub fn refusal(self) -> Option<Refusal>
        ensures { result ≡ refusal_of self }
    {
        let (number, layer, place) = match self {
            Fault::ModelTooLong => (1, 1, 16_384),
            Fault::NoToken { place } => (2, 1, place),
            Fault::NotAllowed { place } => (3, 2, place),
            Fault::LimitPassed { place } => (4, 2, place),
            Fault::WrongName { place } => (5, 2, place),
            Fault::Circle { place } => (6, 2, place),
            Fault::BadPath { place } => (7, 3, place),
            Fault::UnfitMark { before } => (8, 3, before),
            Fault::TooFew { needed } => (9, 4, needed),
            Fault::BadCase { place } => (10, 5, place),
            Fault::BadLimit { rows } => (11, 4, rows),
            Fault::KeyTaken { table } => (12, 6, table),
            Fault::TableFull { table } => (13, 6, table),
            Fault::NotThere { table } => (14, 6, table),
            Fault::ListingShort { needed } => (15, 4, needed),
            Fault::Memory => return None,
        };
        Some(Refusal {
            number,
            layer,
            place,
        })
    }
}

impl From<AllocError> for Fault {
    ghost from_gives = { λ _ r. r ≡ Memory };

    fn from(_e: AllocError) -> Fault {
        Fault::Memory
    }
}

impl<T: Drop> From<AllocFailed<T>> for Fault {
    ghost from_gives = { λ _ r. r ≡ Memory };

    fn from(_e: AllocFailed<T>) -> Fault {
        Fault::Memory
    }
}

/// A refusal as the console prints it; want of memory is told as an error.
impl fmt::Display for Fault {
    ghost output = { λ f. Some (shown_refusal (refusal_of f)) };

    fn fmt<W: fmt::Write>(&self, f: &mut fmt::Formatter<W>) -> fmt::Result {
        match self.refusal() {
            Some(
                Refusal {
                    number,
                    layer,
                    place,
                },
            ) => write!(f, "refused {number} {layer} {place}"),
            None => write!(f, "error: out of memory"),
        }
    }
}
