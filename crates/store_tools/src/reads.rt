//! Reading a table of any store.
ghost use Rattle.std.specs.Prelude.{◌≡◌, ◌<◌, true, length, slice_index_or};
ghost use Rattle.store.specs.Meaning.{Lawful, is_table, no_entry};
ghost use Rattle.store_tools.specs.Reads.{position_of, has_key};

use faults::Fault;
use std::cmp::Ordering;
use store::{Entry, Store};

/// How many rows table `table` has: none where the number is no table's.
pub fn rows_of<S: Store>(store: &S, table: usize) -> usize
    ensures count { result ≡ length ((S.meaning store.now).tables table) }
    ensures lawful { Lawful (S.meaning store.now) }
{
    store.count(table).unwrap_or(0)
}

/// The key and the row at `position`, below the count, of table `table`.
pub fn entry_of<S: Store>(store: &S, table: usize, position: usize) -> Entry
    requires table { is_table table ≡ true }
    requires position { position < length ((S.meaning store.now).tables table) }
    ensures { result ≡ slice_index_or ((S.meaning store.now).tables table) position no_entry }
{
    match (store.key_at(table, position), store.row_at(table, position)) {
        (Ok(key), Ok(row)) => Entry { key, row },
        _ => unreachable(),
    }
}

/// The position of key `key` in table `table`, if it is there.
pub fn position<S: Store>(store: &S, table: usize, key: i32) -> Result<Option<usize>, Fault>
    ensures { result ≡ position_of (S.meaning store.now) table key }
{
    let rows = store.count(table)?;
    // `find` was tried, and its proof stays open; by an equal key it would read on behind a greater one, to the end of the table.
    for i in 0..rows {
        let found = store.key_at(table, i)?;
        match found.cmp(&key) {
            Ordering::Less => {}
            Ordering::Equal => return Ok(Some(i)),
            Ordering::Greater => return Ok(None),
        }
    }
    Ok(None)
}

/// Whether key `key` is in table `table`.
pub fn has_key<S: Store>(store: &S, table: usize, key: i32) -> Result<bool, Fault>
    ensures { result ≡ has_key (S.meaning store.now) table key }
{
    Ok(position(store, table, key)?.is_some())
}
