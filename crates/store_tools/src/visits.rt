//! The rows of a table, handed on in key order.
ghost use Rattle.std.specs.Prelude.{◌≡◌, ◌<◌, ◌≤◌, true, ◌++◌, length, take, drop};
ghost use Rattle.store.specs.declared.Entry.{Entry};
ghost use Rattle.store.specs.Meaning.{is_table};
ghost use Rattle.store_tools.specs.Visits.{Visited, visit_answer, copy_answer, copy_after};

use super::reads::entry_of;
use faults::Fault;
use store::{Entry, Store};

/// What takes rows one after another; `takes` says which state follows which when it takes a row.
// A closure was tried: what it leaves in a variable that it borrows is told to the caller under a name of the checker's own, so no caller could prove what it counted.
pub trait Visitor {
    ghost takes: { Self → Entry → Self → Type 0 };

    /// Takes one row.
    fn visit(&mut self, entry: Entry)
        ensures { takes self.old entry self.new };
}

/// Hands all rows of table `table` to `visitor`, in key order.
pub fn visit_rows<S: Store, V: Visitor>(
    store: &S,
    table: usize,
    visitor: &mut V,
) -> Result<(), Fault>
    ensures answer { result ≡ visit_answer table }
    ensures visited { Visited V.takes visitor.old ((S.meaning store.now).tables table) visitor.new }
{
    let rows = store.count(table)?;
    for position in 0..rows {
        visitor.visit(entry_of(store, table, position));
    }
    Ok(())
}

/// Copies all rows of table `table` to the front of `out`, in key order, and tells their count.
/// Where `out` is too short it stays as it was.
pub fn copy_rows<S: Store>(store: &S, table: usize, out: &mut [Entry]) -> Result<usize, Fault>
    ensures answer { result ≡ copy_answer (S.meaning store.now) table (length out.old) }
    ensures after { out.new ≡ copy_after (S.meaning store.now) table out.old }
{
    let rows = store.count(table)?;
    if out.len() < rows {
        return Err(Fault::TooFew { needed: rows });
    }
    for (position, place) in out[..rows].iter_mut().enumerate() {
        *place = entry_of(store, table, position);
    }
    Ok(rows)
}
