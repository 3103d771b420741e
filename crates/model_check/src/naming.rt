//! The names of a text, or the first refusal of its form, its limits and its names.
ghost use Rattle.std.specs.Prelude.{◌≡◌, Ok, MatchResult};
ghost use Rattle.names.specs.Binding.{names_of, Fails};
ghost use Rattle.names.specs.Schema.{decl_in};
ghost use Rattle.syntax.specs.Whole.{form_of};
ghost use Rattle.model_check.specs.Verdict.{end_of, parts_in, declared_by, named_within, named};

use faults::Fault;
use lexer::tokens::check_length;
use names::binding::Names;
use names::faulty::Bindings;
use names::resolve::resolve;
use names::schema::{Tables, declared_tables};
use roles::reading::parts;
use roles::role::Part;
use std::alloc::Global;
use syntax::whole::check_form;

/// A text read by its names: its parts with their roles, its tables, its variables.
#[derive(Drop)]
pub struct Read {
    pub parts: Vec<Part>,
    pub tables: Tables,
    pub names: Names,
}

/// How far a text has the form of a model: up to the place of its refusal, or to its end. A fault with no place leaves nothing to read.
fn form_end(text: &[u8], form: Result<(), Fault>) -> usize
    ensures { result ≡ end_of text.now form }
{
    match form {
        Ok(()) => text.len(),
        Err(fault) => fault.refusal().map_or(0, |refusal| refusal.place),
    }
}

/// Reads the names of a text that is not too long. The limit of variables comes before the form's refusal where its place does.
fn read_text(heap: Global, text: &[u8]) -> Result<Read, Fault>
    ensures { MatchResult result (λ v. (named_within text.now ≡ Ok (names_of v.names)) × (v.parts.items ≡ parts_in text.now) × (decl_in text.now v.tables ≡ declared_by text.now)) (λ f. Fails f (named_within text.now)) }
{
    let form = check_form(text);
    let parts = parts(heap, text, form_end(text, form))?;
    let tables = declared_tables(heap, text, parts.as_slice())?;
    let schema = tables.schema(text);
    let names = resolve(heap, &schema, parts.as_slice())?;
    form?;
    let bindings = Bindings {
        schema: &schema,
        names: &names,
    };
    match bindings.first_wrong(parts.as_slice()) {
        Some(place) => Err(Fault::WrongName { place }),
        None => Ok(Read {
            parts,
            tables,
            names,
        }),
    }
}

/// Reads the names of a text.
pub fn read_names(heap: Global, text: &[u8]) -> Result<Read, Fault>
    ensures { MatchResult result (λ v. (named text.now ≡ Ok (names_of v.names)) × (v.parts.items ≡ parts_in text.now) × (decl_in text.now v.tables ≡ declared_by text.now)) (λ f. Fails f (named text.now)) }
{
    check_length(text)?;
    read_text(heap, text)
}
