//! Tables, references, checks and variables of a model.
ghost use Rattle.std.specs.Prelude.{◌≡◌};
ghost use Rattle.model.specs.Names.{field_of};

pub use lexer::name::Name;
use std::cmp::Ordering;

/// How many attributes a table may have.
pub const WIDTH: usize = 8;

/// A table: its name, how many attributes it has, which of them is the key, and their names. Attributes are places from 0.
// The names fill an array up to the width, so that a table is a plain value that is copied with the model.
#[derive(Clone, Copy)]
pub struct Table {
    pub title: Name,
    pub width: usize,
    pub key: usize,
    pub fields: [Name; WIDTH],
}

impl Table {
    /// The name of an attribute, if the table has it.
    pub(crate) fn field(&self, attribute: usize) -> Option<Name>
        ensures { result ≡ field_of attribute self.now }
    {
        self.fields.iter().take(self.width).nth(attribute).copied()
    }
}

/// The attribute `from` of the table `of` holds a key of the table `to`. Tables are counted from 1.
#[derive(Clone, Copy)]
pub struct Reference {
    pub of: usize,
    pub from: usize,
    pub to: usize,
}

/// The attribute `at` of the table `of` is below, at or above a number. Tables are counted from 1.
#[derive(Clone, Copy)]
pub struct Check {
    pub of: usize,
    pub at: usize,
    pub order: Ordering,
    pub bound: u32,
}

/// What a variable holds.
#[derive(Clone, Copy)]
pub enum Kind {
    Integer,
    List,
    Table,
}

/// A variable: its name and what it holds. Variables are numbered from 0.
#[derive(Clone, Copy)]
pub struct Variable {
    pub name: Name,
    pub kind: Kind,
}
