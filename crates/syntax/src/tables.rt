//! The tables of a schema.
ghost use Rattle.std.specs.Prelude.{◌≡◌};
ghost use Rattle.terms.specs.Readers.{Reads};
ghost use Rattle.syntax.specs.States.{Fewer, ProceedsMore, RulesGo, RulesMore, RulesOne, TablesMore};
ghost use Rattle.syntax.specs.Tables.{attribute_behind, attributes_at, order_at, number_at, reference_from, check_from, rule_in, rule_behind, rules_at, table_rest, table_behind, tables_at};

use super::clauses::argument_end;
use super::limited::Limited;
use faults::Fault;
use lexer::keywords::Keyword;
use lexer::signs::Sign;
use terms::pull::{Pulled, Word};
use terms::reader::Reader;

/// How many attributes may follow a table's first.
const MORE_ATTRIBUTES: usize = 7;

/// A comma and one attribute more; `None` where the key has to come.
fn next_attribute(state: Limited) -> Result<Option<Limited>, Fault>
    ensures { ProceedsMore attribute_behind state.entry result }
{
    let (p, at) = state.at.expect(Sign::Comma)?.pull()?;
    if p.word != Word::Name {
        return Ok(None);
    }
    let room = p.take_from(state.room)?;
    Ok(Some(Limited { at, room }))
}

/// The reader behind a table's attributes.
fn attributes_end(at: Reader) -> Result<Reader, Fault>
    ensures { Reads attributes_at at.entry result }
{
    let at = at.expect(Word::Name)?;
    let mut state = Limited {
        at,
        room: MORE_ATTRIBUTES,
    };
    while let Some(next) = next_attribute(state)? {
        state = next;
    }
    Ok(state.at)
}

/// How far the references and checks of a table are read: the reader behind them, how many of each the schema may still
/// have, and whether a check has been among them.
#[derive(Clone, Copy)]
pub(crate) struct Rules<'a> {
    pub at: Reader<'a>,
    pub references: usize,
    pub checks: usize,
    // A bool and no enum: it only says whether, and no value stands beside it.
    pub checked: bool,
}

/// A reference, from behind FOREIGN, which is the token `p`, on.
fn reference(rules: Rules, p: Pulled) -> Result<Rules, Fault>
    requires { p.end ≡ rules.at.at }
    ensures value { RulesGo (λ text s. reference_from text s p) rules.entry result }
    ensures falls { Fewer rules.entry result }
{
    let references = p.take_from(rules.references)?;
    let at = argument_end(rules.at.expect(Keyword::Key)?)?;
    let at = at.expect(Keyword::References)?.expect(Word::Name)?;
    Ok(Rules {
        at,
        references,
        checked: false,
        ..rules
    })
}

/// The reader behind `<`, `=` or `>`.
fn order_end(at: Reader) -> Result<Reader, Fault>
    ensures { Reads order_at at.entry result }
{
    let (p, behind) = at.pull()?;
    p.must(matches!(p.word, Word::Sign(Sign::Less | Sign::Equal | Sign::More)))?;
    Ok(behind)
}

/// The reader behind a number.
fn number_end(at: Reader) -> Result<Reader, Fault>
    ensures { Reads number_at at.entry result }
{
    let (p, behind) = at.pull()?;
    p.must(matches!(p.word, Word::Number(_)))?;
    Ok(behind)
}

/// A check, from behind its attribute, which is the token `p`, on.
fn check(rules: Rules, p: Pulled) -> Result<Rules, Fault>
    requires { p.end ≡ rules.at.at }
    ensures value { RulesGo (λ text s. check_from text s p) rules.entry result }
    ensures falls { Fewer rules.entry result }
{
    let checks = p.take_from(rules.checks)?;
    let at = number_end(order_end(rules.at)?)?;
    Ok(Rules {
        at,
        checks,
        checked: true,
        ..rules
    })
}

/// The reference or check that begins with the token `p`, from behind it on. References stand before checks.
fn rule(rules: Rules, p: Pulled) -> Result<Rules, Fault>
    requires { p.end ≡ rules.at.at }
    ensures { RulesOne (λ text s. rule_in text s p) rules.entry result }
{
    if p.word == Word::Name {
        return check(rules, p);
    }
    if p.word == Word::Keyword(Keyword::Foreign) && !rules.checked {
        return reference(rules, p);
    }
    Err(Fault::NotAllowed { place: p.place })
}

/// One reference or check more, if a comma comes.
fn next_rule(rules: Rules) -> Result<Option<Rules>, Fault>
    ensures { RulesMore rule_behind rules.entry result }
{
    let (comma, behind) = rules.at.pull()?;
    if comma.word != Word::Sign(Sign::Comma) {
        return Ok(None);
    }
    let (p, at) = behind.pull()?;
    Ok(Some(rule(Rules { at, ..rules }, p)?))
}

/// All references and checks of a table.
fn rules_end(mut rules: Rules) -> Result<Rules, Fault>
    ensures { RulesGo rules_at rules.entry result }
{
    while let Some(next) = next_rule(rules)? {
        rules = next;
    }
    Ok(rules)
}

/// A table, from behind TABLE on, with how many references and checks the schema may still have.
fn table(rules: Rules) -> Result<Rules, Fault>
    ensures { RulesGo (λ text s. table_rest text s.end s.references s.checks) rules.entry result }
{
    let at = rules.at.expect(Word::Name)?.expect(Sign::Open)?;
    let at = attributes_end(at)?.expect(Sign::Comma)?;
    let at = argument_end(at.expect(Keyword::Primary)?.expect(Keyword::Key)?)?;
    let rules = rules_end(Rules {
        at,
        checked: false,
        ..rules
    })?;
    let at = rules.at.expect(Sign::Close)?.expect(Sign::Semicolon)?;
    Ok(Rules {
        at,
        checked: false,
        ..rules
    })
}

/// How far the schema is read: how many tables may still come, and how far their references and checks are read.
#[derive(Clone, Copy)]
pub(crate) struct Schema<'a> {
    pub tables: usize,
    pub rules: Rules<'a>,
}

/// One table more, if one comes.
fn next_table(schema: Schema) -> Result<Option<Schema>, Fault>
    ensures { TablesMore table_behind schema.entry result }
{
    let (p, at) = schema.rules.at.pull()?;
    if p.word != Word::Keyword(Keyword::Table) {
        return Ok(None);
    }
    let tables = p.take_from(schema.tables)?;
    let rules = table(Rules { at, ..schema.rules })?;
    Ok(Some(Schema { tables, rules }))
}

/// The reader behind all tables: at most 8, with at most 16 references and 16 checks.
pub(crate) fn tables_end(at: Reader) -> Result<Reader, Fault>
    ensures { Reads tables_at at.entry result }
{
    let rules = Rules {
        at,
        references: 16,
        checks: 16,
        checked: false,
    };
    let mut schema = Schema { tables: 8, rules };
    while let Some(next) = next_table(schema)? {
        schema = next;
    }
    Ok(schema.rules.at)
}
