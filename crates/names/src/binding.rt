//! What a name is bound to: a table, an attribute or a variable, by number.
ghost use Rattle.std.specs.Prelude.{◌≡◌, Ok, MatchResult, position};
ghost use Rattle.faults.specs.declared.Fault.TheVariants.{Memory};
ghost use Rattle.roles.specs.Roles.{name_of};
ghost use Rattle.names.specs.Spelled.{same_name};
ghost use Rattle.names.specs.Schema.{decl_of};
ghost use Rattle.names.specs.Scopes.{place_in};
ghost use Rattle.names.specs.Binding.{kind_of, table_bound, field_bound, declared_bound, column_bound, variable_place, kind_at, choice_at, names_of, bound_to, used_again, first_used, noted, hidden_by, choice_of, bound_use, bound_as, Fails};

use super::name::is_same;
use super::schema::Schema;
use super::scope::{Choice, Scope};
use faults::Fault;
use lexer::name::Name;
use roles::role::{Column, Declared, Part, Role, Use};

/// The kind of a variable.
// Not the checked model's `Kind`: that model stands apart from the text, so its crate knows of no uses in one, and `roles` knows of no model.
#[derive(Clone, Copy, PartialEq, Eq)]
pub enum Kind {
    Integer,
    List,
    Table,
}

/// A variable: its name, the kind of its first use, and what the first SELECT into it chooses.
#[derive(Clone, Copy)]
pub struct Variable {
    pub name: Name,
    pub kind: Kind,
    pub choice: Option<Choice>,
}

/// What a name is bound to: nothing, no table or attribute that there is, a variable by its number from 0, a table by its
/// number from 1, an attribute by its place in its table.
#[derive(Clone, Copy, PartialEq, Eq)]
pub enum Bound {
    Free,
    Unknown,
    Variable(usize),
    Table(usize),
    Attribute(usize),
}

/// The variables so far in the order of their first use, and what each part so far is bound to.
#[derive(Drop)]
pub struct Names {
    pub variables: Vec<Variable>,
    // Beside the parts and not in pairs with them: the parts are only lent to `resolve`, and a pair would copy each.
    pub bounds: Vec<Bound>,
}

/// The kind that the form of a use gives.
impl From<Use> for Kind {
    ghost from_gives = { λ u k. k ≡ kind_of u };

    fn from(of: Use) -> Kind {
        match of {
            Use::Assign | Use::Catch | Use::Read | Use::Lone => Kind::Integer,
            Use::Select | Use::Next | Use::Cursor => Kind::Table,
            _ => Kind::List,
        }
    }
}

fn bind_table(number: Option<usize>) -> Bound
    ensures { result ≡ table_bound number }
{
    number.map_or(Bound::Unknown, Bound::Table)
}

impl Schema<'_> {
    /// An attribute of a table; of an unknown table every attribute will do.
    fn bind_field(&self, table: Option<usize>, name: Name) -> Bound
        ensures { result ≡ field_bound (decl_of self.now) table name }
    {
        let Some(table) = table else {
            return Bound::Free;
        };
        self.field_place(table, name)
            .map_or(Bound::Unknown, Bound::Attribute)
    }

    fn bind_declared(&self, scope: Scope, name: Name, of: Declared) -> Bound
        ensures { result ≡ declared_bound (decl_of self.now) scope name of }
    {
        match of {
            Declared::Table | Declared::References => bind_table(self.table_number(name)),
            _ => self.bind_field(scope.last_table(), name),
        }
    }

    fn bind_column(&self, scope: Scope, name: Name, of: Column) -> Bound
        ensures { result ≡ column_bound (decl_of self.now) scope name of }
    {
        match of {
            Column::Cell => Bound::Free,
            _ => self.bind_field(scope.clause_table(), name),
        }
    }

    /// The place of the attribute that hides a lone variable in a clause.
    fn hidden_by(&self, scope: Scope, name: Name, of: Use) -> Option<usize>
        ensures { result ≡ hidden_by (decl_of self.now) scope name of }
    {
        match of {
            Use::Lone => self.place_in(scope.clause_table(), name),
            _ => None,
        }
    }

    /// What a use chooses: a SELECT its attributes, any other nothing.
    fn choice_of(&self, behind: &[Part], of: Use) -> Option<Choice>
        ensures { result ≡ choice_of (decl_of self.now) behind.now of }
    {
        match of {
            Use::Select => Some(self.choose(behind)),
            _ => None,
        }
    }
}

/// The most variables that a model has.
pub const MOST_VARIABLES: usize = 32;

/// The kind of a variable by its number; one that there is not counts as an integer.
pub fn kind_at(variables: &[Variable], variable: usize) -> Kind
    ensures { result ≡ kind_at variables.now variable }
{
    // No `Option`: the clause promises Integer for a number that is no variable's.
    variables
        .get(variable)
        .map_or(Kind::Integer, |variable| variable.kind)
}

/// What the first SELECT into a variable chooses, by the variable's number.
pub fn choice_at(variables: &[Variable], variable: usize) -> Option<Choice>
    ensures { result ≡ choice_at variables.now variable }
{
    variables.get(variable)?.choice
}

impl Names {
    /// The number of the variable with a name.
    pub fn variable_place(&self, text: &[u8], name: Name) -> Option<usize>
        ensures { result ≡ variable_place text.now (names_of self.now).variables name }
    {
        self.variables
            .iter()
            .position(|variable| is_same(text, variable.name, name))
    }

    /// The kind of a variable by its number, as `kind_at` of the variables tells it.
    pub fn kind_at(&self, variable: usize) -> Kind
        ensures { result ≡ kind_at (names_of self.now).variables variable }
    {
        kind_at(self.variables.as_slice(), variable)
    }

    /// What the first SELECT into a variable chooses, as `choice_at` of the variables tells it.
    pub fn choice_at(&self, variable: usize) -> Option<Choice>
        ensures { result ≡ choice_at (names_of self.now).variables variable }
    {
        choice_at(self.variables.as_slice(), variable)
    }

    /// One part more is bound.
    fn bind_to(&mut self, bound: Bound) -> Result<(), Fault>
        ensures { MatchResult result (λ _. names_of self.new ≡ bound_to (names_of self.old) bound) (λ f. f ≡ Memory) }
    {
        self.bounds.push(bound)?;
        Ok(())
    }

    /// A variable that was used before; the first SELECT into it is kept.
    fn use_again(&mut self, variable: usize, choice: Option<Choice>) -> Result<(), Fault>
        ensures { MatchResult result (λ _. names_of self.new ≡ used_again (names_of self.old) variable choice) (λ f. f ≡ Memory) }
    {
        if let Some(earlier) = self.variables.get_mut(variable) {
            earlier.choice = earlier.choice.or(choice);
        }
        self.bind_to(Bound::Variable(variable))
    }

    /// A variable that was not used before.
    fn use_first(&mut self, variable: Variable) -> Result<(), Fault>
        ensures { MatchResult result (λ _. names_of self.new ≡ first_used (names_of self.old) variable.name variable.kind variable.choice) (λ f. f ≡ Memory) }
    {
        let number = self.variables.len();
        self.variables.push(variable)?;
        self.bind_to(Bound::Variable(number))
    }

    /// A use of a variable, given as what it is where this is its first use.
    fn note(&mut self, text: &[u8], variable: Variable) -> Result<(), Fault>
        ensures { MatchResult result (λ _. noted (names_of self.old) variable.name variable.kind variable.choice (variable_place text.now (names_of self.old).variables variable.name) ≡ Ok (names_of self.new)) (λ f. Fails f (noted (names_of self.old) variable.name variable.kind variable.choice (variable_place text.now (names_of self.old).variables variable.name))) }
    {
        match self.variable_place(text, variable.name) {
            Some(number) => self.use_again(number, variable.choice),
            None if self.variables.len() < MOST_VARIABLES => self.use_first(variable),
            None => Err(Fault::LimitPassed {
                place: variable.name.place,
            }),
        }
    }

    /// A use of a variable, or of the attribute that hides it.
    fn bind_use(
        &mut self,
        schema: &Schema,
        scope: Scope,
        name: Name,
        of: Use,
        behind: &[Part],
    ) -> Result<(), Fault>
        ensures { MatchResult result (λ _. bound_use (decl_of schema.now) (names_of self.old) name behind.now of (hidden_by (decl_of schema.now) scope name of) ≡ Ok (names_of self.new)) (λ f. Fails f (bound_use (decl_of schema.now) (names_of self.old) name behind.now of (hidden_by (decl_of schema.now) scope name of))) }
    {
        match schema.hidden_by(scope, name, of) {
            Some(place) => self.bind_to(Bound::Attribute(place)),
            None => {
                let variable = Variable {
                    name,
                    kind: of.into(),
                    choice: schema.choice_of(behind, of),
                };
                self.note(schema.text, variable)
            }
        }
    }

    /// One part more, with those behind it.
    pub(crate) fn bind(
        &mut self,
        schema: &Schema,
        scope: Scope,
        part: Part,
        behind: &[Part],
    ) -> Result<(), Fault>
        ensures { MatchResult result (λ _. bound_as (decl_of schema.now) scope (names_of self.old) (name_of part) behind.now part.role ≡ Ok (names_of self.new)) (λ f. Fails f (bound_as (decl_of schema.now) scope (names_of self.old) (name_of part) behind.now part.role)) }
    {
        let name = part.name();
        match part.role {
            Role::Plain | Role::Title => self.bind_to(Bound::Free),
            Role::Declared(of) => self.bind_to(schema.bind_declared(scope, name, of)),
            Role::Variable(of) => self.bind_use(schema, scope, name, of, behind),
            Role::Table(_) => self.bind_to(bind_table(schema.table_number(name))),
            Role::Attribute(of) => self.bind_to(schema.bind_column(scope, name, of)),
        }
    }
}
