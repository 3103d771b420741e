//! The store with chained records.
ghost use Rattle.std.specs.Prelude.{◌≡◌, ℕ, ◌*◌, ◌<◌, ◌≤◌, true, length, slice_index_or};
ghost use Rattle.store.specs.Meaning.{is_limit, is_position, unless14, no_entry, ascending, empty_of};
ghost use Rattle.chained_store.specs.Tables.{meant, rows_of};

use super::records::{Records, free_records};
use chain::Cell;
use faults::Fault;
use store::{Entry, Store, TABLES, WIDTH, check_table};

/// Tables whose rows are chained in key order: table t is chain t, and chain 0 has the free records.
#[derive(Drop)]
pub struct ChainedStore<'a> {
    raw: Records<'a>,
    limit: usize,
    ghost limited: { is_limit limit ≡ true },
    ghost size: { length raw.cells.now ≡ 8 * limit },
    ghost within: { ((t : ℕ) → 1 ≤ t → t ≤ 8 → length (rows_of raw.heads raw.cells.now t) ≤ limit) },
    ghost ascends: { ((t : ℕ) → 1 ≤ t → t ≤ 8 → ascending (rows_of raw.heads raw.cells.now t) ≡ true) },
}

impl<'a> ChainedStore<'a> {
    /// An empty store in the first records that are lent, as many as it needs.
    pub fn new(cells: &'a mut [Cell<Entry>], limit: usize) -> ChainedStore<'a>
        requires limit { is_limit limit ≡ true }
        requires room { 8 * limit ≤ length cells.old }
        ensures meaning { meant result.limit result.raw.heads result.raw.cells.now ≡ empty_of limit }
        ensures memory { length result.raw.cells.now ≡ 8 * limit }
    {
        let records = TABLES * limit;
        let heads = free_records(cells, records);
        let raw = Records {
            heads,
            cells: &mut cells[..records],
        };
        ChainedStore { raw, limit }
    }
}

impl ChainedStore<'_> {
    /// The entry at `position` of table `table`.
    fn entry_at(&self, table: usize, position: usize) -> Result<Entry, Fault>
        ensures { let m = meant self.now.limit self.now.raw.heads self.now.raw.cells.now in result ≡ unless14 (is_position m table position) (slice_index_or (m.tables table) position no_entry) table }
    {
        check_table(table)?;
        self.raw
            .entry(table, position)
            .ok_or(Fault::NotThere { table })
    }
}

impl Store for ChainedStore<'_> {
    ghost meaning = { λ s. meant s.limit s.raw.heads s.raw.cells.now };

    fn limit(&self) -> usize {
        self.limit
    }

    fn count(&self, table: usize) -> Result<usize, Fault> {
        check_table(table)?;
        Ok(self.raw.rows(table))
    }

    fn key_at(&self, table: usize, position: usize) -> Result<i32, Fault> {
        Ok(self.entry_at(table, position)?.key)
    }

    fn row_at(&self, table: usize, position: usize) -> Result<[i32; WIDTH], Fault> {
        Ok(self.entry_at(table, position)?.row)
    }

    fn put(&mut self, table: usize, key: i32, row: [i32; WIDTH]) -> Result<(), Fault> {
        check_table(table)?;
        let Err(before) = self.raw.find(table, key) else {
            return Err(Fault::KeyTaken { table });
        };
        if self.raw.rows(table) >= self.limit {
            return Err(Fault::TableFull { table });
        }
        self.raw.insert(table, before, Entry { key, row });
        Ok(())
    }

    fn take(&mut self, table: usize, key: i32) -> Result<[i32; WIDTH], Fault> {
        check_table(table)?;
        let Ok(before) = self.raw.find(table, key) else {
            return Err(Fault::NotThere { table });
        };
        Ok(self.raw.remove(table, before).row)
    }
}
