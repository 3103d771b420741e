//! The contents of a whole store changed.
ghost use Rattle.std.specs.Prelude.{◌≡◌, []};
ghost use Rattle.store.specs.Meaning.{Lawful, updated, empty_of};
ghost use Rattle.store_tools.specs.Copies.{copy_store_answer, copy_store_after};

use super::reads::{entry_of, rows_of};
use faults::Fault;
use store::{Store, TABLES};

/// Takes all rows out of table `table`.
fn clear_table<S: Store>(store: &mut S, table: usize)
    ensures after { S.meaning store.new ≡ updated (S.meaning store.old) table [] }
    ensures lawful { Lawful (S.meaning store.old) }
{
    for _ in 0..rows_of(store, table) {
        let first = entry_of(store, table, 0);
        let _ = store.take(table, first.key);
    }
}

/// Empties a store.
pub fn clear<S: Store>(store: &mut S)
    ensures { S.meaning store.new ≡ empty_of (S.meaning store.old).limit }
{
    for table in 1..=TABLES {
        clear_table(store, table);
    }
}

/// Puts all rows of table `table` of one store into that table, which is empty, of another.
fn copy_table<A: Store, B: Store>(from: &A, to: &mut B, table: usize)
    requires limit { (B.meaning to.old).limit ≡ (A.meaning from.now).limit }
    requires empty { (B.meaning to.old).tables table ≡ [] }
    ensures after { B.meaning to.new ≡ updated (B.meaning to.old) table ((A.meaning from.now).tables table) }
    ensures lawful { Lawful (A.meaning from.now) }
{
    for position in 0..rows_of(from, table) {
        let entry = entry_of(from, table, position);
        let _ = to.put(table, entry.key, entry.row);
    }
}

/// Puts all rows of one store into another of the same limit, which is empty.
fn copy_tables<A: Store, B: Store>(from: &A, to: &mut B)
    requires { B.meaning to.old ≡ empty_of (A.meaning from.now).limit }
    ensures { B.meaning to.new ≡ A.meaning from.now }
{
    for table in 1..=TABLES {
        copy_table(from, to, table);
    }
}

/// Makes the contents of one store those of another, whose limit must be the same.
pub fn copy_store<A: Store, B: Store>(from: &A, to: &mut B) -> Result<(), Fault>
    ensures answer { result ≡ copy_store_answer (A.meaning from.now) (B.meaning to.old) }
    ensures after { B.meaning to.new ≡ copy_store_after (A.meaning from.now) (B.meaning to.old) }
{
    let limit = from.limit();
    if to.limit() != limit {
        return Err(Fault::BadLimit { rows: limit });
    }
    clear(to);
    copy_tables(from, to);
    Ok(())
}
