//! The tables of a model by their names.
ghost use Rattle.std.specs.Prelude.{◌≡◌, ◌<◌, length, position, option_map, IfSome, MatchResult};
ghost use Rattle.faults.specs.declared.Fault.TheVariants.{Memory};
ghost use Rattle.roles.specs.Roles.{name_of};
ghost use Rattle.names.specs.Spelled.{same_name};
ghost use Rattle.names.specs.Schema.{decl_of, decl_in, declared_so, table_of, table_numbered, table_number, begun, grown, keyed, declared_by, declared_in, fields_of, field_place};

use super::name::{is_same, place_among};
use faults::Fault;
use lexer::name::Name;
use roles::role::{Declared, Part, Role};
use std::alloc::Global;

/// A table: its name, the names of its attributes, and which of these is its key.
#[derive(Drop)]
pub struct Table {
    pub title: Name,
    pub fields: Vec<Name>,
    pub key: Option<usize>,
}

/// The tables that a text declares, in its order.
#[derive(Drop)]
pub struct Tables {
    pub tables: Vec<Table>,
}

impl Tables {
    /// The tables with the text that their names stand in.
    pub fn schema<'a>(&'a self, text: &'a [u8]) -> Schema<'a>
        ensures { decl_of result ≡ decl_in text.now self.now }
    {
        Schema {
            text,
            tables: self.tables.as_slice(),
        }
    }
}

/// Tables and the text that their names stand in, lent for a call.
#[derive(Clone, Copy)]
pub struct Schema<'a> {
    pub text: &'a [u8],
    pub tables: &'a [Table],
}

/// The place of the first table with a name.
fn title_among(text: &[u8], tables: &[Table], name: Name) -> Option<usize>
    ensures value { result ≡ position (λ t. same_name text.now t.title name) tables.now }
    ensures within { IfSome result (λ i. i < length tables.now) }
{
    tables
        .iter()
        .position(|table| is_same(text, table.title, name))
}

impl<'a> Schema<'a> {
    /// The number of the table with a name, from 1; of two with one name the first.
    pub fn table_number(&self, name: Name) -> Option<usize>
        ensures { result ≡ table_number (decl_of self.now) name }
    {
        let place = title_among(self.text, self.tables, name)?;
        Some(place + 1)
    }

    /// Table `table`, which is counted from 1.
    pub fn table(&self, table: usize) -> Option<&'a Table>
        ensures { option_map (λ t. table_of t.now) result ≡ table_numbered (decl_of self.now) table }
    {
        self.tables.get(table.checked_sub(1)?)
    }

    /// The names of the attributes of table `table`, which is counted from 1; no other number has any.
    pub fn fields(&self, table: usize) -> &'a [Name]
        ensures { result.now ≡ fields_of (decl_of self.now) table }
    {
        match self.table(table) {
            Some(table) => table.fields.as_slice(),
            None => &[],
        }
    }

    /// The place of a name among the attributes of table `table`.
    pub fn field_place(&self, table: usize, name: Name) -> Option<usize>
        ensures { result ≡ field_place (decl_of self.now) table name }
    {
        place_among(self.text, self.fields(table), name)
    }
}

/// The tables declared so far, while the parts of a text are gone through.
#[derive(Drop)]
struct Declaring<'a> {
    text: &'a [u8],
    tables: Vec<Table>,
}

impl Declaring<'_> {
    /// TABLE t: one table more, with no attribute yet.
    fn begin(&mut self, heap: Global, title: Name) -> Result<(), Fault>
        ensures { MatchResult result (λ _. declared_so self.new ≡ begun (declared_so self.old) title) (λ f. f ≡ Memory) }
    {
        self.tables.push(Table {
            title,
            fields: Vec::new(heap),
            key: None,
        })?;
        Ok(())
    }

    /// One attribute more of the table declared last.
    fn grow(&mut self, field: Name) -> Result<(), Fault>
        ensures { MatchResult result (λ _. declared_so self.new ≡ grown (declared_so self.old) field) (λ f. f ≡ Memory) }
    {
        if let Some(table) = self.tables.last_mut() {
            table.fields.push(field)?;
        }
        Ok(())
    }

    /// PRIMARY KEY(a): the key of the table declared last.
    fn set_key(&mut self, name: Name)
        ensures { declared_so self.new ≡ keyed (declared_so self.old) name }
    {
        if let Some(table) = self.tables.last_mut() {
            table.key = place_among(self.text, table.fields.as_slice(), name);
        }
    }

    /// What one part more declares.
    fn declare(&mut self, heap: Global, part: Part) -> Result<(), Fault>
        ensures { MatchResult result (λ _. declared_so self.new ≡ declared_by (declared_so self.old) (name_of part) part.role) (λ f. f ≡ Memory) }
    {
        match part.role {
            Role::Declared(Declared::Table) => self.begin(heap, part.name()),
            Role::Declared(Declared::Field) => self.grow(part.name()),
            Role::Declared(Declared::Key) => {
                self.set_key(part.name());
                Ok(())
            }
            _ => Ok(()),
        }
    }

    /// The tables, all declared.
    fn finish(self) -> Tables
        ensures { decl_in self.entry.text.now result ≡ declared_so self.entry }
    {
        let Declaring { text: _, tables } = self;
        Tables { tables }
    }
}

/// The tables that the parts of a text declare.
#[tactic(auto, unfolding(crate::specs::Schema::declared_from))]
pub fn declared_tables(heap: Global, text: &[u8], parts: &[Part]) -> Result<Tables, Fault>
    ensures { MatchResult result (λ t. decl_in text.now t ≡ declared_in text.now parts.now) (λ f. f ≡ Memory) }
{
    let mut declaring = Declaring {
        text,
        tables: Vec::new(heap),
    };
    for part in parts {
        declaring.declare(heap, *part)?;
    }
    Ok(declaring.finish())
}
