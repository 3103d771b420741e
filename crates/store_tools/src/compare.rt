//! Two stores compared.
ghost use Rattle.std.specs.Prelude.{◌≡◌, Decides};
ghost use Rattle.store.specs.Meaning.{Lawful};

use super::reads::{entry_of, rows_of};
use store::{Store, TABLES};

/// Whether table `table` has the same rows in two stores.
fn same_table<A: Store, B: Store>(a: &A, b: &B, table: usize) -> bool
    ensures decides { Decides result ((A.meaning a.now).tables table ≡ (B.meaning b.now).tables table) }
    ensures first { Lawful (A.meaning a.now) }
    ensures second { Lawful (B.meaning b.now) }
{
    let rows = rows_of(a, table);
    if rows_of(b, table) != rows {
        return false;
    }
    // A closure for `all` needs a `requires` of its own here, so the loop is plainer.
    for i in 0..rows {
        if entry_of(a, table, i) != entry_of(b, table, i) {
            return false;
        }
    }
    true
}

/// Whether two stores mean the same: the same limit, and the same rows in each table.
pub fn same<A: Store, B: Store>(a: &A, b: &B) -> bool
    ensures { Decides result (A.meaning a.now ≡ B.meaning b.now) }
{
    a.limit() == b.limit() && (1..=TABLES).all(|table| same_table(a, b, table))
}
