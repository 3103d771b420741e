//! Binds all names of a model, clause by clause.
ghost use Rattle.std.specs.Prelude.{◌≡◌, ◌+◌, ◌^◌, ◌<◌, ◌≤◌, ◌∷◌, true, length, is_some, None, Ok, MatchResult};
ghost use Rattle.names.specs.Schema.{decl_of};
ghost use Rattle.names.specs.Binding.{names_of, bound_from, bound_in, Fails};
ghost use Rattle.names.specs.Onward.{left_of, within, Onward};

use super::binding::Names;
use super::schema::Schema;
use super::scope::{Clause, Scope};
use faults::Fault;
use lexer::signs::Sign;
use roles::role::Part;
use std::alloc::Global;
use terms::pull::Word;

/// Inside of a clause: while it lasts, its table's attributes hide lone variables. On every way out the earlier scope stands again.
struct Inside<'a> {
    scope: &'a mut Scope,
    earlier: Scope,
}

impl Drop for Inside<'_> {
    fn drop(self)
        ensures { self.exit.0.now ≡ self.entry.earlier }
    {
        *self.scope = self.earlier;
        let Inside {
            scope: _,
            earlier: _,
        } = self;
    }
}

// The scope is lent to `Inside` while names are bound, so no struct holds both.
impl Names {
    /// Binds the parts of a clause, up to the semicolon that ends it; gives the parts behind.
    #[tactic(auto, using(crate::proofs::Steps::none_left))]
    fn bind_rest<'a>(
        &mut self,
        schema: &Schema,
        scope: Scope,
        parts: &'a [Part],
    ) -> Result<&'a [Part], Fault>
        requires { is_some scope.clause ≡ true }
        ensures { MatchResult result (λ ps. Onward (decl_of schema.now) scope (names_of self.old) parts.now (left_of scope) (names_of self.new) ps.now) (λ f. Fails f (bound_from (decl_of schema.now) scope (names_of self.old) parts.now)) }
    {
        let mut left = parts;
        while let Some((part, behind)) = left.split_first() {
            self.bind(schema, scope, *part, behind)?;
            if part.token.word == Word::Sign(Sign::Semicolon) {
                return Ok(behind);
            }
            left = behind;
        }
        Ok(left)
    }

    /// Binds the parts of a clause that has begun.
    fn bind_clause<'a>(
        &mut self,
        schema: &Schema,
        scope: &mut Scope,
        clause: Clause,
        parts: &'a [Part],
    ) -> Result<&'a [Part], Fault>
        ensures scope { scope.new ≡ scope.old }
        ensures value { MatchResult result (λ ps. Onward (decl_of schema.now) (within scope.old clause) (names_of self.old) parts.now (left_of scope.old) (names_of self.new) ps.now) (λ f. Fails f (bound_from (decl_of schema.now) (within scope.old clause) (names_of self.old) parts.now)) }
    {
        let earlier = *scope;
        let inside = Inside { scope, earlier };
        inside.scope.clause = Some(clause);
        let left = self.bind_rest(schema, *inside.scope, parts)?;
        Ok(left)
    }

    /// Binds a part, and the clause that it begins; gives the parts behind.
    fn bind_next<'a>(
        &mut self,
        schema: &Schema,
        scope: &mut Scope,
        part: Part,
        behind: &'a [Part],
    ) -> Result<&'a [Part], Fault>
        requires outside { scope.old.clause ≡ None }
        requires few { scope.old.declared + length behind.now + 1 < 2 ^ 64 }
        ensures outside { scope.new.clause ≡ None }
        ensures value { MatchResult result (λ ps. Onward (decl_of schema.now) scope.old (names_of self.old) (part ∷ behind.now) scope.new (names_of self.new) ps.now × (length ps.now ≤ length behind.now) × (scope.new.declared ≤ scope.old.declared + 1)) (λ f. Fails f (bound_from (decl_of schema.now) scope.old (names_of self.old) (part ∷ behind.now))) }
    {
        self.bind(schema, *scope, part, behind)?;
        *scope = scope.outside(part.role);
        match schema.open_clause(part, behind) {
            Some(clause) => self.bind_clause(schema, scope, clause, behind),
            None => Ok(behind),
        }
    }
}

/// Binds the names of all parts: the variables in the order of their first use, at most 32, and what each part is bound to.
#[tactic(auto, using(crate::proofs::Steps::none_left))]
pub fn resolve(heap: Global, schema: &Schema, parts: &[Part]) -> Result<Names, Fault>
    ensures { MatchResult result (λ v. bound_in (decl_of schema.now) parts.now ≡ Ok (names_of v)) (λ f. Fails f (bound_in (decl_of schema.now) parts.now)) }
{
    let mut names = Names {
        variables: Vec::new(heap),
        bounds: Vec::new(heap),
    };
    let mut scope = Scope::default();
    let mut left = parts;
    while let Some((part, behind)) = left.split_first() {
        left = names.bind_next(schema, &mut scope, *part, behind)?;
    }
    Ok(names)
}
