//! The first name at fault.
ghost use Rattle.std.specs.Prelude.{◌≡◌, ◌+◌, ◌^◌, ◌<◌, ◌≤◌, false, length, slice_index_or};
ghost use Rattle.roles.specs.Roles.{name_of};
ghost use Rattle.names.specs.Schema.{decl_of};
ghost use Rattle.names.specs.Binding.{names_of};
ghost use Rattle.names.specs.Faults.{declared_wrong, select_wrong, variable_wrong, commas_from, count_wrong, access_wrong, is_picked, column_wrong, wrong, spot_after, wrong_in};

use super::binding::{Bound, Kind, Names};
use super::schema::Schema;
use super::scope::Choice;
use lexer::name::Name;
use lexer::signs::Sign;
use roles::role::{Access, Column, Declared, Part, Role, Use};
use terms::pull::Word;

/// The tables and the variables of a text.
#[derive(Clone, Copy)]
pub struct Bindings<'a> {
    pub schema: &'a Schema<'a>,
    pub names: &'a Names,
}

/// How far the names are looked through: the tables declared, the attributes of the last one, the last variable bound.
#[derive(Clone, Copy, Default)]
pub struct Spot {
    pub tables: usize,
    pub fields: usize,
    // 0 before the first: `first_wrong` promises so for all parts, and an `Option` would promise another answer where v(a) comes first.
    pub cursor: usize,
}

impl Spot {
    /// Whether a name in the declaration of a table is declared twice or unknown.
    fn is_declared_wrong(self, bound: Bound, of: Declared) -> bool
        requires { self.tables + 1 < 2 ^ 64 }
        ensures { result ≡ declared_wrong self bound of }
    {
        match of {
            Declared::Table => matches!(bound, Bound::Table(first) if first != self.tables + 1),
            Declared::Field => matches!(bound, Bound::Attribute(first) if first != self.fields),
            _ => bound == Bound::Unknown,
        }
    }

    /// How far the names are looked through with one part more.
    fn after(self, role: Role, bound: Bound) -> Spot
        requires tables { self.tables + 1 < 2 ^ 64 }
        requires fields { self.fields + 1 < 2 ^ 64 }
        ensures { result ≡ spot_after self role bound }
    {
        let cursor = match bound {
            Bound::Variable(variable) => variable,
            _ => self.cursor,
        };
        let (tables, fields) = match role {
            Role::Declared(Declared::Table) => (self.tables + 1, 0),
            Role::Declared(Declared::Field) => (self.tables, self.fields + 1),
            _ => (self.tables, self.fields),
        };
        Spot {
            tables,
            fields,
            cursor,
        }
    }
}

impl Choice {
    /// Whether the attribute at a place of the table is picked.
    fn has(&self, place: usize) -> bool
        ensures { result ≡ slice_index_or self.now.picked place false }
    {
        self.picked.get(place).copied().unwrap_or(false)
    }
}

/// How many commas stand before the next semicolon.
fn commas(behind: &[Part]) -> usize
    ensures value { result ≡ commas_from 0 behind.now }
    ensures few { result ≤ length behind.now }
{
    let mut count = 0;
    let mut left = behind;
    // A chain of `take_while`, `filter` and `count` says the same, but its proof didn't close.
    while let [part, rest @ ..] = left
        && part.token.word != Word::Sign(Sign::Semicolon)
    {
        if part.token.word == Word::Sign(Sign::Comma) {
            count += 1;
        }
        left = rest;
    }
    count
}

impl Schema<'_> {
    /// Whether INSERT gives another count of values than its table has attributes.
    fn is_count_wrong(&self, behind: &[Part], bound: Bound) -> bool
        ensures { result ≡ count_wrong (decl_of self.now) behind.now bound }
    {
        match bound {
            Bound::Unknown => true,
            Bound::Table(table) => commas(behind) + 1 != self.fields(table).len(),
            _ => false,
        }
    }

    /// Whether a statement names no table, or inserts a wrong count of values.
    fn is_access_wrong(&self, behind: &[Part], bound: Bound, of: Access) -> bool
        ensures { result ≡ access_wrong (decl_of self.now) behind.now bound of }
    {
        match of {
            Access::Insert => self.is_count_wrong(behind, bound),
            _ => bound == Bound::Unknown,
        }
    }

    /// Whether a SELECT into a known variable does not agree with the first one: one table, and the same of its attributes.
    fn is_select_wrong(&self, first: Option<Choice>, behind: &[Part], of: Use) -> bool
        ensures { result ≡ select_wrong (decl_of self.now) first behind.now of }
    {
        match of {
            Use::Select => first != Some(self.choose(behind)),
            _ => false,
        }
    }

    /// Whether an attribute is among those of the first SELECT into a variable.
    fn is_picked(&self, first: Option<Choice>, name: Name) -> bool
        ensures { result ≡ is_picked (decl_of self.now) first name }
    {
        // `is_some_and` on the first SELECT too says the same, but its proof didn't close.
        let Some(choice) = first else {
            return false;
        };
        self.place_in(choice.table, name)
            .is_some_and(|place| choice.has(place))
    }
}

impl Bindings<'_> {
    /// Whether a variable has a table's name, or is of another kind than at its first use.
    fn is_variable_wrong(&self, part: Part, behind: &[Part], of: Use, bound: Bound) -> bool
        ensures { result ≡ variable_wrong (decl_of self.now.schema.now) (names_of self.now.names.now).variables (name_of part) behind.now of bound }
    {
        let Bound::Variable(variable) = bound else {
            return false;
        };
        let first = self.names.choice_at(variable);
        self.schema.table_number(part.name()).is_some()
            || self.names.kind_at(variable) != Kind::from(of)
            || self.schema.is_select_wrong(first, behind, of)
    }

    /// Whether a statement names no attribute that there is.
    fn is_column_wrong(&self, spot: Spot, name: Name, bound: Bound, of: Column) -> bool
        ensures { result ≡ column_wrong (decl_of self.now.schema.now) (names_of self.now.names.now).variables spot name bound of }
    {
        match of {
            Column::Cell => !self
                .schema
                .is_picked(self.names.choice_at(spot.cursor), name),
            _ => bound == Bound::Unknown,
        }
    }

    /// Whether the name of a part is at fault.
    fn is_wrong(&self, spot: Spot, part: Part, behind: &[Part], bound: Bound) -> bool
        requires { spot.tables + 1 < 2 ^ 64 }
        ensures { result ≡ wrong (decl_of self.now.schema.now) (names_of self.now.names.now).variables spot (name_of part) behind.now bound part.role }
    {
        match part.role {
            Role::Plain | Role::Title => false,
            Role::Declared(of) => spot.is_declared_wrong(bound, of),
            Role::Variable(of) => self.is_variable_wrong(part, behind, of, bound),
            Role::Table(of) => self.schema.is_access_wrong(behind, bound, of),
            Role::Attribute(of) => self.is_column_wrong(spot, part.name(), bound, of),
        }
    }

    /// The place of the first name at fault; each part goes with what it is bound to.
    #[tactic(auto, using(crate::proofs::Looking::looked, crate::proofs::Looking::none_left, crate::proofs::Looking::all_bound))]
    pub fn first_wrong(&self, parts: &[Part]) -> Option<usize>
        ensures { result ≡ wrong_in (decl_of self.now.schema.now) (names_of self.now.names.now) parts.now }
    {
        let mut spot = Spot::default();
        let mut left = parts;
        for bound in self.names.bounds.as_slice() {
            let (part, behind) = left.split_first()?;
            if self.is_wrong(spot, *part, behind, *bound) {
                return Some(part.token.place);
            }
            spot = spot.after(part.role, *bound);
            left = behind;
        }
        None
    }
}
