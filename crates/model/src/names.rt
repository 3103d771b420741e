//! The names of a model, for people, and the variable that a name is.
ghost use Rattle.std.specs.Prelude.{◌≡◌};
ghost use Rattle.std.specs.Option.{option_map};
ghost use Rattle.std.specs.List.{slice_get};
ghost use Rattle.model.specs.Models.{contents};
ghost use Rattle.model.specs.Names.{by_number, variable_name, table_name, attribute_name, variable_named};

use super::model::Model;
use super::schema::{Table, Variable};

impl Model {
    /// A variable, counted from 0, if there is one of that number.
    pub fn variable(&self, variable: usize) -> Option<Variable>
        ensures { result ≡ slice_get (contents self.now).variables variable }
    {
        self.variables.get(variable).copied()
    }

    /// A table, counted from 1, if there is one of that number.
    pub fn table(&self, table: usize) -> Option<Table>
        ensures { result ≡ by_number (contents self.now).tables table }
    {
        self.tables.get(table.checked_sub(1)?).copied()
    }

    /// The name of a variable, if there is one of that number.
    pub fn variable_name(&self, variable: usize) -> Option<&[u8]>
        ensures { option_map (λ x. x.now) result ≡ variable_name (contents self.now) variable }
    {
        self.variable(variable)
            .map(|found| found.name.spelling(&self.text))
    }

    /// The name of a table, if there is one of that number.
    pub fn table_name(&self, table: usize) -> Option<&[u8]>
        ensures { option_map (λ x. x.now) result ≡ table_name (contents self.now) table }
    {
        self.table(table)
            .map(|found| found.title.spelling(&self.text))
    }

    /// The name of an attribute, if there is one of that number in a table of that number.
    pub fn attribute_name(&self, table: usize, attribute: usize) -> Option<&[u8]>
        ensures { option_map (λ x. x.now) result ≡ attribute_name (contents self.now) table attribute }
    {
        self.table(table)?
            .field(attribute)
            .map(|name| name.spelling(&self.text))
    }

    /// The variable of a name.
    pub fn variable_named(&self, name: &[u8]) -> Option<usize>
        ensures { result ≡ variable_named (contents self.now) name.now }
    {
        self.variables
            .iter()
            .position(|variable| variable.name.spelling(&self.text) == name)
    }
}
