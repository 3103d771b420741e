//! The parts of a model text.
ghost use Rattle.std.specs.Prelude.{◌≡◌, IfOk, MatchResult};
ghost use Rattle.faults.specs.declared.Fault.TheVariants.{Memory};
ghost use Rattle.roles.specs.Roles.{pulled_upto, with_roles, parts_upto};
ghost use Rattle.roles.specs.Trees.{Tells};

use super::mode::{Mode, onward, role_of};
use super::role::Part;
use faults::Fault;
use std::alloc::Global;
use terms::pull::{Pulled, pull};

/// The tokens that begin before a place; what is no token ends them, and so does the end of the text.
fn tokens_upto(heap: Global, text: &[u8], upto: usize) -> Result<Vec<Pulled>, Fault>
    ensures { MatchResult result (λ v. v.items ≡ pulled_upto text.now upto) (λ f. f ≡ Memory) }
{
    let mut found = Vec::new(heap);
    let mut at = 0;
    while let Ok(p) = pull(text, at) {
        if p.place >= upto {
            return Ok(found);
        }
        found.push(p)?;
        at = p.end;
    }
    Ok(found)
}

/// Gives each token its role.
fn with_roles(heap: Global, found: &[Pulled]) -> Result<Vec<Part>, Fault>
    ensures { MatchResult result (λ v. v.items ≡ with_roles found.now) (λ f. f ≡ Memory) }
{
    let mut parts = Vec::new(heap);
    let mut mode = Mode::Title;
    let mut left = found;
    while let [token, behind @ ..] = left {
        parts.push(Part {
            role: role_of(mode, token.word, behind),
            token: *token,
        })?;
        mode = onward(mode, token.word, behind);
        left = behind;
    }
    Ok(parts)
}

/// The tokens of a text that begin before a place, with their roles.
fn read_parts(heap: Global, text: &[u8], upto: usize) -> Result<Vec<Part>, Fault>
    ensures { MatchResult result (λ v. v.items ≡ with_roles (pulled_upto text.now upto)) (λ f. f ≡ Memory) }
{
    let found = tokens_upto(heap, text, upto)?;
    with_roles(heap, &found)
}

/// The tokens of a text that begin before a place, with their roles. Want of memory is the only fault.
/// Where the whole text spells a well-formed model, they are its tokens, with the roles that its tree gives.
pub fn parts(heap: Global, text: &[u8], upto: usize) -> Result<Vec<Part>, Fault>
    ensures value { MatchResult result (λ v. v.items ≡ parts_upto text.now upto) (λ f. f ≡ Memory) }
    ensures told { IfOk result (λ v. Tells text.now upto v.items) }
{
    read_parts(heap, text, upto)
}
