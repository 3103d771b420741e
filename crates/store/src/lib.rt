//! What a store of rows means and answers: one trait, with its meaning as ghost tables and limit.
#![tactic(auto)]

ghost use Rattle.std.specs.Prelude.{◌≡◌, ◌*◌, ◌<◌, ◌≤◌, true, IfOk};
ghost use Rattle.store.specs.Meaning.{Meaning, Lawful, count_of, key_at, row_at, put_answer, put_after, take_answer, take_after, needed, is_limit, is_table, unless14};

use faults::Fault;

/// How many values a row has.
pub const WIDTH: usize = 8;

/// How many tables a store has, numbered from 1.
pub const TABLES: usize = 8;

/// The largest row limit.
pub const MOST_ROWS: usize = 64;

/// A row of a table with its key.
#[derive(Clone, Copy, Debug, PartialEq, Eq)]
pub struct Entry {
    pub key: i32,
    pub row: [i32; WIDTH],
}

/// A store of rows: a row limit, and tables whose rows stand in ascending order of distinct keys.
/// Each call is held to its whole answer and to the meaning that it leaves; questions change nothing.
pub trait Store {
    ghost meaning: { Self → Meaning };

    /// The most rows that a table takes.
    fn limit(&self) -> usize
        ensures { result ≡ (meaning self.now).limit };

    /// How many rows table `table` has.
    fn count(&self, table: usize) -> Result<usize, Fault>
        ensures answer { result ≡ count_of (meaning self.now) table }
        ensures lawful { Lawful (meaning self.now) };

    /// The key at `position`, from 0, of table `table`.
    fn key_at(&self, table: usize, position: usize) -> Result<i32, Fault>
        ensures { result ≡ key_at (meaning self.now) table position };

    /// The row at `position`, from 0, of table `table`.
    fn row_at(&self, table: usize, position: usize) -> Result<[i32; WIDTH], Fault>
        ensures { result ≡ row_at (meaning self.now) table position };

    /// Puts a row under a key into table `table`.
    fn put(&mut self, table: usize, key: i32, row: [i32; WIDTH]) -> Result<(), Fault>
        ensures answer { result ≡ put_answer (meaning self.old) table key }
        ensures after { meaning self.new ≡ put_after (meaning self.old) table (record { key = key; row = row }) };

    /// Takes a key out of table `table` and tells its row.
    fn take(&mut self, table: usize, key: i32) -> Result<[i32; WIDTH], Fault>
        ensures answer { result ≡ take_answer (meaning self.old) table key }
        ensures after { meaning self.new ≡ take_after (meaning self.old) table key };
}

/// Refuses a number that is no table's.
pub fn check_table(table: usize) -> Result<(), Fault>
    ensures { result ≡ unless14 (is_table table) tt table }
{
    if !(1..=TABLES).contains(&table) {
        return Err(Fault::NotThere { table });
    }
    Ok(())
}

/// How many records a store of the row limit `limit` needs, where `records` of them are at hand.
/// It is asked before the memory is lent, so a refusal leaves that as it was.
pub fn records_needed(limit: usize, records: usize) -> Result<usize, Fault>
    ensures answer { result ≡ needed limit records }
    ensures enough { IfOk result (λ n. (is_limit limit ≡ true) × (n ≡ 8 * limit) × (8 * limit ≤ records)) }
{
    if !(1..=MOST_ROWS).contains(&limit) {
        return Err(Fault::BadLimit { rows: limit });
    }
    let needed = TABLES * limit;
    if records < needed {
        return Err(Fault::TooFew { needed });
    }
    Ok(needed)
}
