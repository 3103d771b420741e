//! The roles of names.
ghost use Rattle.std.specs.Prelude.{◌≡◌};
ghost use Rattle.roles.specs.Roles.{name_of};

use lexer::name::Name;
use terms::pull::Pulled;

/// What a name is in the declaration of a table.
#[derive(Clone, Copy, PartialEq, Eq)]
pub enum Declared {
    /// TABLE t
    Table,
    /// An attribute where it is declared.
    Field,
    /// PRIMARY KEY(a)
    Key,
    /// FOREIGN KEY(a)
    Foreign,
    /// REFERENCES t
    References,
    /// a < 9
    Check,
}

/// How a variable is used.
#[derive(Clone, Copy, PartialEq, Eq)]
pub enum Use {
    /// v = e
    Assign,
    /// v = NIL
    Clear,
    /// v = w.TAIL, the v
    Tail,
    /// v = w.TAIL, the w
    Of,
    /// v = SELECT ..
    Select,
    /// v = CATCH(..)
    Catch,
    /// READ(v)
    Read,
    /// LOAD(v)
    Load,
    /// NEXT(v)
    Next,
    /// v alone in an expression; an attribute of its clause's table may hide it
    Lone,
    /// v.HEAD
    Head,
    /// (v = NIL)
    Nil,
    /// v(a), the v
    Cursor,
}

/// How a statement names a table.
#[derive(Clone, Copy, PartialEq, Eq)]
pub enum Access {
    /// FROM t, of SELECT and DELETE
    From,
    /// INSERT INTO t
    Insert,
    /// UPDATE t
    Update,
}

/// How a statement names an attribute.
#[derive(Clone, Copy, PartialEq, Eq)]
pub enum Column {
    /// SELECT a
    Pick,
    /// SET a
    Set,
    /// v(a), the a
    Cell,
}

/// What a token is as a name.
#[derive(Clone, Copy, PartialEq, Eq)]
pub enum Role {
    /// No name.
    Plain,
    /// The model's name, which is of no kind.
    Title,
    Declared(Declared),
    Variable(Use),
    Table(Access),
    Attribute(Column),
}

/// A token with its role.
#[derive(Clone, Copy)]
pub struct Part {
    pub role: Role,
    pub token: Pulled,
}

impl Part {
    /// The token as a name: where it stands in the text.
    pub fn name(self) -> Name
        ensures { result ≡ name_of self }
    {
        Name {
            place: self.token.place,
            end: self.token.end,
        }
    }
}
