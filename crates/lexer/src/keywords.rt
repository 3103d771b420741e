//! The words that are no names.
ghost use Rattle.std.specs.Prelude.{◌≡◌};
ghost use Rattle.std.specs.Str.{bytes_eq};
ghost use Rattle.lexer.specs.Keywords.{spell, keyword_of};

#[derive(Clone, Copy, PartialEq, Eq)]
pub enum Keyword {
    Model,
    EndModel,
    Table,
    Primary,
    Key,
    Foreign,
    References,
    Nil,
    Tail,
    Head,
    Read,
    Load,
    Select,
    From,
    Where,
    Next,
    Insert,
    Into,
    Values,
    Update,
    Set,
    Delete,
    Commit,
    Rollback,
    If,
    Then,
    Else,
    EndIf,
    While,
    Do,
    EndWhile,
    Catch,
    True,
    False,
}

/// How a keyword is written.
pub fn spelling(keyword: Keyword) -> &'static [u8]
    ensures { result.now ≡ spell keyword }
{
    match keyword {
        Keyword::Model => b"MODEL",
        Keyword::EndModel => b"ENDMODEL",
        Keyword::Table => b"TABLE",
        Keyword::Primary => b"PRIMARY",
        Keyword::Key => b"KEY",
        Keyword::Foreign => b"FOREIGN",
        Keyword::References => b"REFERENCES",
        Keyword::Nil => b"NIL",
        Keyword::Tail => b"TAIL",
        Keyword::Head => b"HEAD",
        Keyword::Read => b"READ",
        Keyword::Load => b"LOAD",
        Keyword::Select => b"SELECT",
        Keyword::From => b"FROM",
        Keyword::Where => b"WHERE",
        Keyword::Next => b"NEXT",
        Keyword::Insert => b"INSERT",
        Keyword::Into => b"INTO",
        Keyword::Values => b"VALUES",
        Keyword::Update => b"UPDATE",
        Keyword::Set => b"SET",
        Keyword::Delete => b"DELETE",
        Keyword::Commit => b"COMMIT",
        Keyword::Rollback => b"ROLLBACK",
        Keyword::If => b"IF",
        Keyword::Then => b"THEN",
        Keyword::Else => b"ELSE",
        Keyword::EndIf => b"ENDIF",
        Keyword::While => b"WHILE",
        Keyword::Do => b"DO",
        Keyword::EndWhile => b"ENDWHILE",
        Keyword::Catch => b"CATCH",
        Keyword::True => b"TRUE",
        Keyword::False => b"FALSE",
    }
}

const KEYWORDS: [Keyword; 34] = [
    Keyword::Model,
    Keyword::EndModel,
    Keyword::Table,
    Keyword::Primary,
    Keyword::Key,
    Keyword::Foreign,
    Keyword::References,
    Keyword::Nil,
    Keyword::Tail,
    Keyword::Head,
    Keyword::Read,
    Keyword::Load,
    Keyword::Select,
    Keyword::From,
    Keyword::Where,
    Keyword::Next,
    Keyword::Insert,
    Keyword::Into,
    Keyword::Values,
    Keyword::Update,
    Keyword::Set,
    Keyword::Delete,
    Keyword::Commit,
    Keyword::Rollback,
    Keyword::If,
    Keyword::Then,
    Keyword::Else,
    Keyword::EndIf,
    Keyword::While,
    Keyword::Do,
    Keyword::EndWhile,
    Keyword::Catch,
    Keyword::True,
    Keyword::False,
];

/// Whether two texts have the same bytes.
// A function of its own: with `==` in the closure of `keyword_of`, reading tokens takes twice the time.
pub fn same(a: &[u8], b: &[u8]) -> bool
    ensures { result ≡ bytes_eq a.now b.now }
{
    a == b
}

// No TryFrom: a word that is no keyword is a name and no error, so an Option says it all.

/// The keyword that a word is, if it is one.
pub(crate) fn keyword_of(word: &[u8]) -> Option<Keyword>
    ensures { result ≡ keyword_of word.now }
{
    KEYWORDS
        .iter()
        .copied()
        .find(|keyword| same(word, spelling(*keyword)))
}
