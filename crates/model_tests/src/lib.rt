//! What is asked of one checked model, its parts written by hand as the text says them.
#![tactic(auto)]

use faults::Fault;
use model::model::Model;
use model::program::{Item, Line, Operator};
use model::schema::{Check, Kind, Name, Table, Variable, WIDTH};
use std::alloc::Global;
use std::cmp::Ordering;

/// A name of one letter.
fn letter(place: u8) -> Name {
    let place = usize::from(place);
    Name {
        place,
        end: place + 1,
    }
}

/// Where no name stands.
const NAMELESS: Name = Name { place: 0, end: 0 };

const TEXT: &[u8] =
    b"MODEL g TABLE s (a,b,PRIMARY KEY(a),b < 9); READ(c); n = CATCH(INSERT INTO s VALUES (c,0)); IF (n = 1) THEN UPDATE s SET b = (b + 1) WHERE (a = c); ELSE ROLLBACK(); ENDIF; ENDMODEL";

/// The table s, with its attributes a and b.
fn table() -> Table {
    let mut fields = [NAMELESS; WIDTH];
    fields[0] = letter(17);
    fields[1] = letter(19);
    Table {
        title: letter(14),
        width: 2,
        key: 0,
        fields,
    }
}

/// The lines of the program.
fn lines(heap: Global) -> Result<Vec<Line>, Fault> {
    Ok(vec![in heap;
        Line::Read { variable: 0 },
        Line::Insert {
            table: 1,
            values: 0,
            count: 2,
            caught: Some(1)
        },
        Line::If {
            condition: 2,
            other: 2,
            next: 4
        },
        Line::Update {
            table: 1,
            attribute: 1,
            value: 7,
            condition: 12,
            caught: None
        },
        Line::End,
        Line::Rollback,
        Line::End,
        Line::End,
    ]?)
}

/// A bracket of two sides.
fn bracket(items: &mut Vec<Item>, left: Item, sign: Operator, right: Item) -> Result<(), Fault> {
    for item in [Item::Open, left, Item::Sign(sign), right, Item::Close] {
        items.push(item)?;
    }
    Ok(())
}

/// The values (c,0), and the terms (n = 1), (b + 1) and (a = c).
fn items(heap: Global) -> Result<Vec<Item>, Fault> {
    let mut items = vec![in heap; Item::Integer(0), Item::Number(0)]?;
    bracket(
        &mut items,
        Item::Integer(1),
        Operator::Equal,
        Item::Number(1),
    )?;
    bracket(
        &mut items,
        Item::Attribute(1),
        Operator::Plus,
        Item::Number(1),
    )?;
    bracket(
        &mut items,
        Item::Attribute(0),
        Operator::Equal,
        Item::Integer(0),
    )?;
    Ok(items)
}

/// The model g.
fn sample(heap: Global) -> Result<Model, Fault> {
    let below = Check {
        of: 1,
        at: 1,
        order: Ordering::Less,
        bound: 9,
    };
    let c = Variable {
        name: letter(49),
        kind: Kind::Integer,
    };
    let n = Variable {
        name: letter(53),
        kind: Kind::Integer,
    };
    Ok(Model {
        text: TEXT.to_vec(heap)?,
        tables: vec![in heap; table()]?,
        references: Vec::new(heap),
        checks: vec![in heap; below]?,
        variables: vec![in heap; c, n]?,
        lines: lines(heap)?,
        items: items(heap)?,
    })
}

#[cfg(test)]
mod tests {
    use super::*;
    use std::test::Fail;

    #[test]
    fn parts_are_counted(rt: HostRuntime) -> Result<(), Fail> {
        let g = sample(rt.alloc())?;
        assert_eq!(rt; g.table_count(), 1);
        assert_eq!(rt; g.variable_count(), 2);
        assert_eq!(rt; g.statement_count(), 5);
        assert_eq!(rt; g.update_line(0), None);
        assert_eq!(rt; g.update_line(1), Some(3));
        assert_eq!(rt; g.update_line(2), None);
        assert_eq!(rt; g.delete_line(1), None);
        Ok(())
    }

    #[test]
    fn names_are_parts_of_the_text(rt: HostRuntime) -> Result<(), Fail> {
        let g = sample(rt.alloc())?;
        assert!(rt; g.table_name(1) == Some(b"s"));
        assert!(rt; g.table_name(0) == None);
        assert!(rt; g.attribute_name(1, 0) == Some(b"a"));
        assert!(rt; g.attribute_name(1, 1) == Some(b"b"));
        assert!(rt; g.attribute_name(1, 2) == None);
        assert!(rt; g.variable_name(1) == Some(b"n"));
        assert!(rt; g.variable_name(2) == None);
        assert_eq!(rt; g.variable_named(b"n"), Some(1));
        assert_eq!(rt; g.variable_named(b"x"), None);
        Ok(())
    }

    #[test]
    fn a_copy_has_all_parts(rt: HostRuntime) -> Result<(), Fail> {
        let heap = rt.alloc();
        let copy = sample(heap)?.copy()?;
        assert_eq!(rt; copy.table_count(), 1);
        assert_eq!(rt; copy.variable_count(), 2);
        assert_eq!(rt; copy.statement_count(), 5);
        assert!(rt; copy.attribute_name(1, 1) == Some(b"b"));
        let clone = copy.clone()?;
        assert_eq!(rt; clone.update_line(1), Some(3));
        assert_eq!(rt; clone.items.len(), 17);
        Ok(())
    }
}
