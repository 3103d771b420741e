//! What the next name of a model would be, told by the tokens before it.
ghost use Rattle.std.specs.Prelude.{◌≡◌, unwrap_or, slice_get};
ghost use Rattle.terms.specs.declared.pull.Word.TheVariants.{Number};
ghost use Rattle.roles.specs.Roles.{words, is_tail, target_use, term_use, name_role, role_of, after_keyword, after_name, onward};

use super::role::{Access, Column, Declared, Role, Use};
use lexer::keywords::Keyword;
use lexer::signs::Sign;
use terms::pull::{Pulled, Word};

/// What the next name would be.
#[derive(Clone, Copy)]
pub(crate) enum Mode {
    /// The model's name.
    Title,
    /// A table where it is declared.
    Table,
    /// An attribute where it is declared.
    Field,
    /// The key of a table.
    Key,
    /// The attribute of a reference.
    Foreign,
    /// The table of a reference.
    References,
    /// The attribute of a check.
    Check,
    /// The variable that a statement begins with.
    Target,
    /// The variable of READ.
    Read,
    /// The variable of LOAD.
    Load,
    /// The variable of NEXT.
    Next,
    /// The table of INSERT.
    Insert,
    /// The table of UPDATE.
    Update,
    /// The table of SELECT or DELETE.
    From,
    /// The attribute of SET.
    Set,
    /// An attribute of SELECT.
    Pick,
    /// A variable in an expression or a condition.
    Term,
    /// The attribute of v(a).
    Cell,
}

/// The word so many tokens behind, if there is one.
fn peek(behind: &[Pulled], steps: usize) -> Option<Word>
    ensures { result ≡ slice_get (words behind.now) steps }
{
    behind.get(steps).map(|token| token.word)
}

/// Whether two words are `. TAIL`.
fn is_tail(first: Option<Word>, second: Option<Word>) -> bool
    ensures { result ≡ is_tail (unwrap_or first (Number 0)) (unwrap_or second (Number 0)) }
{
    first == Some(Word::Sign(Sign::Dot)) && second == Some(Word::Keyword(Keyword::Tail))
}

/// How a statement that begins with a variable uses it, by the tokens behind it.
fn target_use(behind: &[Pulled]) -> Use
    ensures { result ≡ target_use (words behind.now) }
{
    if peek(behind, 0) != Some(Word::Sign(Sign::Equal)) {
        return Use::Assign;
    }
    match peek(behind, 1) {
        Some(Word::Keyword(Keyword::Nil)) => Use::Clear,
        Some(Word::Keyword(Keyword::Select)) => Use::Select,
        Some(Word::Keyword(Keyword::Catch)) => Use::Catch,
        Some(Word::Name) if is_tail(peek(behind, 2), peek(behind, 3)) => Use::Tail,
        _ => Use::Assign,
    }
}

/// How an expression or a condition uses a variable, by the tokens behind it.
fn term_use(behind: &[Pulled]) -> Use
    ensures { result ≡ term_use (words behind.now) }
{
    let first = peek(behind, 0);
    let second = peek(behind, 1);
    if is_tail(first, second) {
        return Use::Of;
    }
    match first {
        Some(Word::Sign(Sign::Dot)) => Use::Head,
        Some(Word::Sign(Sign::Open)) => Use::Cursor,
        Some(Word::Sign(Sign::Equal)) if second == Some(Word::Keyword(Keyword::Nil)) => Use::Nil,
        _ => Use::Lone,
    }
}

/// What a name stands for.
fn name_role(mode: Mode, behind: &[Pulled]) -> Role
    ensures { result ≡ name_role mode (words behind.now) }
{
    match mode {
        Mode::Title => Role::Title,
        Mode::Table => Role::Declared(Declared::Table),
        Mode::Field => Role::Declared(Declared::Field),
        Mode::Key => Role::Declared(Declared::Key),
        Mode::Foreign => Role::Declared(Declared::Foreign),
        Mode::References => Role::Declared(Declared::References),
        Mode::Check => Role::Declared(Declared::Check),
        Mode::Target => Role::Variable(target_use(behind)),
        Mode::Read => Role::Variable(Use::Read),
        Mode::Load => Role::Variable(Use::Load),
        Mode::Next => Role::Variable(Use::Next),
        Mode::Insert => Role::Table(Access::Insert),
        Mode::Update => Role::Table(Access::Update),
        Mode::From => Role::Table(Access::From),
        Mode::Set => Role::Attribute(Column::Set),
        Mode::Pick => Role::Attribute(Column::Pick),
        Mode::Term => Role::Variable(term_use(behind)),
        Mode::Cell => Role::Attribute(Column::Cell),
    }
}

/// What a token stands for; only a name stands for something.
pub(crate) fn role_of(mode: Mode, word: Word, behind: &[Pulled]) -> Role
    ensures { result ≡ role_of mode word (words behind.now) }
{
    match word {
        Word::Name => name_role(mode, behind),
        _ => Role::Plain,
    }
}

/// The mode behind a keyword; one that says nothing of the next name keeps it.
fn after_keyword(keyword: Keyword, mode: Mode) -> Mode
    ensures { result ≡ after_keyword keyword mode }
{
    match keyword {
        Keyword::Model => Mode::Title,
        Keyword::Table => Mode::Table,
        Keyword::Primary => Mode::Key,
        Keyword::Foreign => Mode::Foreign,
        Keyword::References => Mode::References,
        Keyword::Read => Mode::Read,
        Keyword::Load => Mode::Load,
        Keyword::Next => Mode::Next,
        Keyword::Into => Mode::Insert,
        Keyword::Update => Mode::Update,
        Keyword::From => Mode::From,
        Keyword::Set => Mode::Set,
        Keyword::Select => Mode::Pick,
        Keyword::Then | Keyword::Else | Keyword::Do => Mode::Target,
        Keyword::If | Keyword::While | Keyword::Where | Keyword::Values => Mode::Term,
        _ => mode,
    }
}

/// The mode behind a name.
fn after_name(mode: Mode, behind: &[Pulled]) -> Mode
    ensures { result ≡ after_name mode (words behind.now) }
{
    match mode {
        Mode::Title => Mode::Target,
        Mode::Table | Mode::Field => Mode::Field,
        Mode::Key | Mode::Foreign | Mode::References | Mode::Check => Mode::Check,
        Mode::Pick => Mode::Pick,
        Mode::Term if peek(behind, 0) == Some(Word::Sign(Sign::Open)) => Mode::Cell,
        _ => Mode::Term,
    }
}

/// The mode behind a token.
pub(crate) fn onward(mode: Mode, word: Word, behind: &[Pulled]) -> Mode
    ensures { result ≡ onward mode word (words behind.now) }
{
    match word {
        Word::Name => after_name(mode, behind),
        Word::Keyword(keyword) => after_keyword(keyword, mode),
        Word::Sign(Sign::Semicolon) => Mode::Target,
        Word::Number(_) | Word::Sign(_) => mode,
    }
}
