//! The names of short models, each expected answer worked out by hand from the rules.
#![tactic(auto)]

use dictionary::{Dictionary, TableNames};
use faults::Fault;
use lexer::name::Name;
use model_check::naming::{Read, read_names};
use std::alloc::Global;

/// What the names of a read model stand for.
fn dictionary<'a>(read: &'a Read, text: &'a [u8]) -> Dictionary<'a> {
    let tables = TableNames {
        schema: read.tables.schema(text),
    };
    Dictionary {
        tables,
        names: &read.names,
    }
}

/// The numbers that a read model has for a name: as a table, as an attribute of table 1, and as a variable.
fn numbers(read: &Read, text: &[u8], name: Name) -> (Option<usize>, Option<usize>, Option<usize>) {
    let dictionary = dictionary(read, text);
    (
        dictionary.tables.table_of(name),
        dictionary.tables.place_of(1, name),
        dictionary.variable_of(name),
    )
}

/// The place of the attribute of v(a) for two names of a read model.
fn cell(read: &Read, text: &[u8], variable: Name, name: Name) -> Option<usize> {
    dictionary(read, text).cell_of(variable, name)
}

/// Whether the first name at fault of a model stands at a place.
fn wrong_at(heap: Global, text: &[u8], place: usize) -> bool {
    read_names(heap, text).is_err_and(|fault| fault == Fault::WrongName { place })
}

#[cfg(test)]
mod tests {
    use super::*;
    use std::test::Fail;

    #[test]
    fn numbers_of_names(rt: HostRuntime) -> Result<(), Fail> {
        let text =
            b"MODEL g TABLE s(a,b,PRIMARY KEY(b));READ(c);v=SELECT b FROM s WHERE (a=c);n=v(b);ENDMODEL";
        let read = read_names(rt.alloc(), text)?;
        let s = Name { place: 14, end: 15 };
        let b = Name { place: 18, end: 19 };
        let c = Name { place: 41, end: 42 };
        let v = Name { place: 44, end: 45 };
        assert!(rt; numbers(&read, text, s) == (Some(1), None, None));
        assert!(rt; numbers(&read, text, b) == (None, Some(1), None));
        assert!(rt; numbers(&read, text, c) == (None, None, Some(0)));
        assert!(rt; numbers(&read, text, v) == (None, None, Some(1)));
        assert!(rt; cell(&read, text, v, b) == Some(1));
        assert!(rt; cell(&read, text, c, b) == None);
        assert!(rt; read.tables.schema(text).fields(1).len() == 2);
        assert!(rt; read.tables.schema(text).fields(2).is_empty());
        Ok(())
    }

    #[test]
    fn names_at_fault(rt: HostRuntime) {
        let heap = rt.alloc();
        assert!(rt; wrong_at(heap, b"MODEL g TABLE s(a,a,PRIMARY KEY(a));ENDMODEL", 18));
        assert!(rt; wrong_at(heap, b"MODEL g TABLE s(a,PRIMARY KEY(b));ENDMODEL", 30));
        assert!(rt; wrong_at(heap, b"MODEL g DELETE FROM t WHERE TRUE;ENDMODEL", 20));
        assert!(rt;
            wrong_at(
                heap,
                b"MODEL g TABLE s(a,PRIMARY KEY(a));INSERT INTO s VALUES(1,2);ENDMODEL",
                46
            )
        );
        assert!(rt; wrong_at(heap, b"MODEL g READ(x);x=NIL;ENDMODEL", 16));
    }
}
