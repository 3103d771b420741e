//! Checked models.
ghost use Rattle.std.specs.Prelude.{◌≡◌, length, MatchResult};
ghost use Rattle.faults.specs.declared.Fault.TheVariants.{Memory};
ghost use Rattle.model.specs.Models.{contents};

use super::program::{Item, Line};
use super::schema::{Check, Reference, Table, Variable};
use faults::Fault;

/// A checked model: its own text, which its names are parts of, and its tables, references, checks, variables, statements and their parts,
/// each in text order. The program is the block that begins at the first line.
// Lines and items stand in flat lists and name one another by their places, so that a model can be copied whole and holds nothing of the text's lifetime.
#[derive(Clone, Drop)]
pub struct Model {
    pub text: Vec<u8>,
    pub tables: Vec<Table>,
    pub references: Vec<Reference>,
    pub checks: Vec<Check>,
    pub variables: Vec<Variable>,
    pub lines: Vec<Line>,
    pub items: Vec<Item>,
}

impl Model {
    /// The same model in memory of its own, from the heap that holds the model; only want of memory hinders it.
    pub fn copy(&self) -> Result<Model, Fault>
        ensures { MatchResult result (λ m. contents m ≡ contents self.now) (λ f. f ≡ Memory) }
    {
        Ok(self.clone()?)
    }

    /// How many tables it has.
    pub fn table_count(&self) -> usize
        ensures { result ≡ length (contents self.now).tables }
    {
        self.tables.len()
    }

    /// How many variables it has.
    pub fn variable_count(&self) -> usize
        ensures { result ≡ length (contents self.now).variables }
    {
        self.variables.len()
    }
}
