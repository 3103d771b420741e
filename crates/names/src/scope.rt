//! Where a name stands: the tables declared before it, and the table of the clause around it.
ghost use Rattle.std.specs.Prelude.{◌≡◌, ◌+◌, ◌^◌, ◌<◌, find};
ghost use Rattle.roles.specs.Roles.{name_of};
ghost use Rattle.names.specs.Schema.{decl_of};
ghost use Rattle.names.specs.Scopes.{from_is, last_number, table_around, table_behind, picking, place_in, picked_by, chosen, opened};
ghost use Rattle.names.specs.Onward.{outside};

use super::schema::Schema;
use lexer::name::Name;
use roles::role::{Access, Column, Declared, Part, Role, Use};

/// How many attributes a table has at most.
pub const MOST_FIELDS: usize = 8;

/// A clause, with the number of its table where there is such a table.
#[derive(Clone, Copy)]
pub struct Clause {
    pub table: Option<usize>,
}

/// Where a name stands: how many tables are declared so far, and the clause around it.
#[derive(Clone, Copy, Default)]
pub struct Scope {
    pub declared: usize,
    pub clause: Option<Clause>,
}

/// What a SELECT chooses: the number of its table where there is such a table, which of the table's attributes, and whether it
/// names anything else.
#[derive(Clone, Copy, PartialEq, Eq)]
pub struct Choice {
    pub table: Option<usize>,
    pub picked: [bool; MOST_FIELDS],
    // A bool and no enum: it only says whether.
    pub strange: bool,
}

impl Scope {
    /// The number of the table declared last.
    pub(crate) fn last_table(self) -> Option<usize>
        ensures { result ≡ last_number self.declared }
    {
        (self.declared > 0).then_some(self.declared)
    }

    /// The number of the clause's table.
    pub(crate) fn clause_table(self) -> Option<usize>
        ensures { result ≡ table_around self.clause }
    {
        self.clause?.table
    }

    /// Outside of clauses, behind a part: one table more where the part declares one.
    pub(crate) fn outside(self, role: Role) -> Scope
        requires { self.declared + 1 < 2 ^ 64 }
        ensures { result ≡ outside self role }
    {
        let declared = if role == Role::Declared(Declared::Table) {
            self.declared + 1
        } else {
            self.declared
        };
        Scope {
            declared,
            clause: None,
        }
    }
}

fn is_from(role: Role) -> bool
    ensures { result ≡ from_is role }
{
    role == Role::Table(Access::From)
}

impl Choice {
    /// One attribute more that a SELECT names, by its place in the table.
    fn pick(mut self, place: Option<usize>) -> Choice
        ensures { result ≡ picking self place }
    {
        match place {
            Some(k) if k < MOST_FIELDS => self.picked[k] = true,
            _ => self.strange = true,
        }
        self
    }
}

/// The table that the next FROM names.
fn next_from(behind: &[Part]) -> Option<Part>
    ensures { result ≡ find (λ p. from_is p.role) behind.now }
{
    behind.iter().copied().find(|part| is_from(part.role))
}

impl Schema<'_> {
    /// The number of the table behind the next FROM.
    fn table_behind(&self, behind: &[Part]) -> Option<usize>
        ensures { result ≡ table_behind (decl_of self.now) behind.now }
    {
        self.table_number(next_from(behind)?.name())
    }

    /// The place of a name among the attributes of a table; of an unknown table there is none.
    pub(crate) fn place_in(&self, table: Option<usize>, name: Name) -> Option<usize>
        ensures { result ≡ place_in (decl_of self.now) table name }
    {
        self.field_place(table?, name)
    }

    /// What is chosen with one part more.
    fn pick_by(&self, choice: Choice, part: Part) -> Choice
        ensures { result ≡ picked_by (decl_of self.now) choice part }
    {
        if part.role != Role::Attribute(Column::Pick) {
            return choice;
        }
        choice.pick(self.place_in(choice.table, part.name()))
    }

    /// What the SELECT chooses whose attributes and table stand behind.
    pub(crate) fn choose(&self, behind: &[Part]) -> Choice
        ensures { result ≡ chosen (decl_of self.now) behind.now }
    {
        let mut choice = Choice {
            table: self.table_behind(behind),
            picked: [false; MOST_FIELDS],
            strange: false,
        };
        let mut left = behind;
        // A `fold` over what `take_while` gives says the same, but its proof didn't close.
        while let [part, rest @ ..] = left
            && !is_from(part.role)
        {
            choice = self.pick_by(choice, *part);
            left = rest;
        }
        choice
    }

    /// The clause that a part begins.
    pub(crate) fn open_clause(&self, part: Part, behind: &[Part]) -> Option<Clause>
        ensures { result ≡ opened (decl_of self.now) part behind.now part.role }
    {
        let table = match part.role {
            Role::Variable(Use::Select) => self.table_behind(behind),
            Role::Table(Access::From | Access::Update) => self.table_number(part.name()),
            _ => return None,
        };
        Some(Clause { table })
    }
}
