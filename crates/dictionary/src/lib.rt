//! What the names of a checked text stand for, by number.
#![tactic(auto)]

ghost use Rattle.std.specs.Prelude.{◌≡◌};
ghost use Rattle.std.specs.Option.{unwrap_or};
ghost use Rattle.lexer.specs.Names.{spelled};
ghost use Rattle.names.specs.Schema.{decl_of};
ghost use Rattle.names.specs.Binding.{names_of};
ghost use Rattle.dictionary.specs.Dictionary.{written, table_found, table_by, field_by, place_by, hides_by, variable_in, variable_found, variable_by, choice_by, cell_in, cell_by};

use lexer::name::Name;
use names::binding::Names;
use names::schema::Schema;
use names::scope::Choice;

/// What the names of tables and attributes of a text stand for.
#[derive(Clone, Copy)]
pub struct TableNames<'a> {
    pub schema: Schema<'a>,
}

impl TableNames<'_> {
    /// The number of the table of a name, from 1.
    pub fn table_of(&self, name: Name) -> Option<usize>
        ensures found { result ≡ table_found (decl_of self.now.schema) (written self.now name) }
        ensures number { unwrap_or result 0 ≡ table_by (decl_of self.now.schema) (written self.now name) }
    {
        self.schema.table_number(name)
    }

    /// The place, from 0, of an attribute in table `table`.
    pub fn place_of(&self, table: usize, name: Name) -> Option<usize>
        ensures found { result ≡ field_by (decl_of self.now.schema) table (written self.now name) }
        ensures number { unwrap_or result 0 ≡ place_by (decl_of self.now.schema) table (written self.now name) }
    {
        self.schema.field_place(table, name)
    }

    /// Whether an attribute of table `table` hides a lone variable.
    pub fn hides(&self, table: usize, name: Name) -> bool
        ensures { result ≡ hides_by (decl_of self.now.schema) table (written self.now name) }
    {
        self.place_of(table, name).is_some()
    }
}

/// The number of the variable of a name in a text, from 0. It asks for no tables.
pub fn variable_of(text: &[u8], names: &Names, name: Name) -> Option<usize>
    ensures { result ≡ variable_in text.now (names_of names.now) (spelled text.now name) }
{
    names.variable_place(text, name)
}

/// What all names of a text stand for.
#[derive(Clone, Copy)]
pub struct Dictionary<'a> {
    pub tables: TableNames<'a>,
    pub names: &'a Names,
}

impl Dictionary<'_> {
    /// The number of the variable of a name, from 0.
    pub fn variable_of(&self, name: Name) -> Option<usize>
        ensures found { result ≡ variable_found (decl_of self.now.tables.schema) (names_of self.now.names.now) (written self.now.tables name) }
        ensures number { unwrap_or result 0 ≡ variable_by (decl_of self.now.tables.schema) (names_of self.now.names.now) (written self.now.tables name) }
    {
        variable_of(self.tables.schema.text, self.names, name)
    }

    /// What the first SELECT into a variable chooses; a name that is no variable's is read as the first variable's.
    // 0 and no `None`: the dictionary has a number for every name, and `cell_of` promises it.
    fn choice_of(&self, name: Name) -> Option<Choice>
        ensures { result ≡ choice_by (decl_of self.now.tables.schema) (names_of self.now.names.now) (written self.now.tables name) }
    {
        let variable = self.variable_of(name).unwrap_or(0);
        self.names.choice_at(variable)
    }

    /// The place of the attribute of v(a) in the table that v is selected from.
    pub fn cell_of(&self, variable: Name, name: Name) -> Option<usize>
        ensures found { result ≡ cell_in (decl_of self.now.tables.schema) (choice_by (decl_of self.now.tables.schema) (names_of self.now.names.now) (written self.now.tables variable)) (written self.now.tables name) }
        ensures number { unwrap_or result 0 ≡ cell_by (decl_of self.now.tables.schema) (names_of self.now.names.now) (written self.now.tables variable) (written self.now.tables name) }
    {
        self.tables.place_of(self.choice_of(variable)?.table?, name)
    }
}
