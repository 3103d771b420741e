//! The tables as a plain `Vec`, sorted by table and key: what both stores are compared with.
ghost use Rattle.std.specs.Prelude.{◌<◌, ◌≤◌, vec_len, IfOk, IfErr};

use super::steps::Tables;
use faults::Fault;
use std::alloc::Global;
use store::{Entry, WIDTH, check_table};

/// A row with its key and its table.
#[derive(Clone, Copy)]
struct Placed {
    table: usize,
    entry: Entry,
}

#[derive(Drop)]
pub struct Plain {
    limit: usize,
    rows: Vec<Placed>,
}

impl Plain {
    /// No rows.
    pub fn new(heap: Global, limit: usize) -> Plain {
        Plain {
            limit,
            rows: Vec::new(heap),
        }
    }

    /// The place of the row of this table and key, or where it would go.
    fn find(&self, table: usize, key: i32) -> Result<usize, usize>
        ensures there { IfOk result (λ at. at < vec_len self.now.rows) }
        ensures absent { IfErr result (λ at. at ≤ vec_len self.now.rows) }
    {
        self.rows
            .binary_search_by_key(&(table, key), |placed| (placed.table, placed.entry.key))
    }

    /// The entry at a position of a table, whose rows stand together from the place on that its least key would have.
    fn entry_at(&self, table: usize, position: usize) -> Result<Entry, Fault> {
        let (Ok(first) | Err(first)) = self.find(table, i32::MIN);
        self.rows
            .get(first.saturating_add(position))
            .filter(|placed| placed.table == table)
            .map(|placed| placed.entry)
            .ok_or(Fault::NotThere { table })
    }
}

impl Tables for Plain {
    fn count(&self, table: usize) -> Result<usize, Fault> {
        check_table(table)?;
        Ok(
            self.rows
                .iter()
                .filter(|placed| placed.table == table)
                .count(),
        )
    }

    fn at(
        &self,
        table: usize,
        position: usize,
    ) -> (Result<i32, Fault>, Result<[i32; WIDTH], Fault>) {
        // Both from one look.
        match self.entry_at(table, position) {
            Ok(entry) => (Ok(entry.key), Ok(entry.row)),
            Err(fault) => (Err(fault), Err(fault)),
        }
    }

    fn put(&mut self, table: usize, key: i32, row: [i32; WIDTH]) -> Result<(), Fault> {
        let rows = self.count(table)?;
        match self.find(table, key) {
            Ok(_) => Err(Fault::KeyTaken { table }),
            Err(_) if rows >= self.limit => Err(Fault::TableFull { table }),
            Err(at) => {
                let entry = Entry { key, row };
                self.rows.insert(at, Placed { table, entry })?;
                Ok(())
            }
        }
    }

    fn take(&mut self, table: usize, key: i32) -> Result<[i32; WIDTH], Fault> {
        match self.find(table, key) {
            Ok(at) => Ok(self.rows.remove(at).entry.row),
            Err(_) => Err(Fault::NotThere { table }),
        }
    }
}
