//! The statements of a model, and their expressions and conditions, in text order.

/// What stands between the sides of a bracket, or before its only side.
#[derive(Clone, Copy)]
pub enum Operator {
    Plus,
    Minus,
    Times,
    Over,
    Less,
    Equal,
    More,
    And,
    Or,
    Not,
}

/// A part of an expression or a condition. Its parts stand one behind another as they are written, so it ends where its brackets are closed.
#[derive(Clone, Copy)]
pub enum Item {
    /// A bracket opens.
    Open,
    /// The bracket closes.
    Close,
    /// The sign of a bracket, between its sides or before its only side.
    Sign(Operator),
    /// n
    Number(u32),
    /// v, an integer variable
    Integer(usize),
    /// a, an attribute of the row at hand
    Attribute(usize),
    /// v.HEAD
    Head(usize),
    /// v(a), a variable and an attribute
    Cell(usize, usize),
    /// TRUE or FALSE
    Truth(bool),
    /// v = NIL, in a bracket of its own
    Nil(usize),
}

/// A statement, or the end of a block. Variables are numbered from 0, tables from 1, attributes from 0; an expression or a condition is
/// the item that it begins with. A statement that may be caught has the variable of its CATCH.
#[derive(Clone, Copy)]
pub enum Line {
    /// v = e
    Assign {
        variable: usize,
        value: usize,
    },
    /// v = NIL
    Clear {
        variable: usize,
    },
    /// v = w.TAIL
    Tail {
        variable: usize,
        of: usize,
    },
    /// READ(v)
    Read {
        variable: usize,
    },
    /// LOAD(v)
    Load {
        variable: usize,
    },
    /// v = SELECT .. FROM t WHERE c
    Select {
        variable: usize,
        table: usize,
        condition: usize,
    },
    /// NEXT(v)
    Next {
        variable: usize,
        caught: Option<usize>,
    },
    /// INSERT INTO t VALUES (..): the values stand one behind another
    Insert {
        table: usize,
        values: usize,
        count: usize,
        caught: Option<usize>,
    },
    /// UPDATE t SET a = e WHERE c
    Update {
        table: usize,
        attribute: usize,
        value: usize,
        condition: usize,
        caught: Option<usize>,
    },
    /// DELETE FROM t WHERE c
    Delete {
        table: usize,
        condition: usize,
        caught: Option<usize>,
    },
    /// COMMIT()
    Commit,
    /// ROLLBACK()
    Rollback,
    /// IF c: the block of THEN begins at the next line; the block of ELSE and the next statement stand so many lines behind that one.
    If {
        condition: usize,
        other: usize,
        next: usize,
    },
    /// WHILE c: its block begins at the next line; the next statement stands so many lines behind that one.
    While {
        condition: usize,
        next: usize,
    },
    /// A block ends.
    End,
}
