//! The lent records of a store, in sound chains, and the changes made there.
ghost use Rattle.std.specs.Prelude.{◌≡◌, ℕ, ◌<◌, ◌≤◌, [], length, take, drop, MatchOption, ◌≢◌, slice_index_or};
ghost use Rattle.std.specs.List.{insert, remove};
ghost use Rattle.std.proofs.Props.{props};
ghost use Rattle.chain.specs.Lists.{Sound, Before, nodes_of, free};
ghost use Rattle.store.specs.Meaning.{no_entry};
ghost use Rattle.chained_store.specs.Tables.{rows_of, spot};

use chain::{Cell, Chains, ChainsMut, element, free_all};
use std::cmp::Ordering;
use store::Entry;

/// A chain for each table, and chain 0 for the records that are free.
pub const CHAINS: usize = 9;

/// The lent records, with the first of each chain.
#[derive(Drop)]
pub struct Records<'a> {
    pub(crate) heads: [usize; CHAINS],
    pub(crate) cells: &'a mut [Cell<Entry>],
    pub ghost width: { length heads ≡ 9 },
    pub ghost sound: { Sound heads cells.now } by { Prim.hlevel props },
}

/// Makes the first `records` cells free records, and tells the heads of their chains; what lies beyond stays as it was.
pub fn free_records(cells: &mut [Cell<Entry>], records: usize) -> [usize; CHAINS]
    requires { records ≤ length cells.old }
    ensures width { length result ≡ 9 }
    ensures sound { Sound result (take records cells.new) }
    ensures empty { (t : ℕ) → 0 < t → t < 9 → nodes_of result (take records cells.new) t ≡ [] }
    ensures beyond { drop records cells.new ≡ drop records cells.old }
{
    let mut heads = [0; CHAINS];
    free_all(&mut heads, &mut cells[..records]);
    heads
}

impl Records<'_> {
    /// Their chains, to be read.
    fn chains(&self) -> Chains<'_, Entry>
        ensures heads { result.heads.now ≡ self.now.heads }
        ensures cells { result.cells.now ≡ self.now.cells.now }
    {
        Chains {
            heads: &self.heads,
            cells: self.cells,
        }
    }

    /// Looks for `key` in table `table`: the node before its place.
    pub fn find(&self, table: usize, key: i32) -> Result<usize, usize>
        requires { table < 9 }
        ensures { result ≡ spot key (nodes_of self.now.heads self.now.cells.now table) (rows_of self.now.heads self.now.cells.now table) }
    {
        let mut before = 0;
        for node in self.chains().nodes(table) {
            let entry = element(self.cells, node);
            match entry.key.cmp(&key) {
                Ordering::Less => before = node,
                Ordering::Equal => return Ok(before),
                Ordering::Greater => return Err(before),
            }
        }
        Err(before)
    }

    /// How many rows table `table` has.
    pub fn rows(&self, table: usize) -> usize
        requires { table < 9 }
        ensures { result ≡ length (rows_of self.now.heads self.now.cells.now table) }
    {
        self.chains().count(table)
    }

    /// What stands at `position` of table `table`, if anything does.
    pub fn entry(&self, table: usize, position: usize) -> Option<Entry>
        requires { table < 9 }
        ensures { MatchOption result (length (rows_of self.now.heads self.now.cells.now table) ≤ position) (λ e. (position < length (rows_of self.now.heads self.now.cells.now table)) × (e ≡ slice_index_or (rows_of self.now.heads self.now.cells.now table) position no_entry)) }
    {
        self.chains().element_at(table, position)
    }

    /// Puts `entry` after node `node` of table `table`.
    pub fn insert(&mut self, table: usize, node: usize, entry: Entry)
        requires from { 0 < table }
        requires to { table < 9 }
        requires at { (p : ℕ) × Before (nodes_of self.old.heads self.old.cells.now table) node p }
        requires room { 0 < free self.old.heads self.old.cells.now }
        ensures size { length self.new.cells.now ≡ length self.old.cells.now }
        ensures here { (p : ℕ) → Before (nodes_of self.old.heads self.old.cells.now table) node p → rows_of self.new.heads self.new.cells.now table ≡ insert (rows_of self.old.heads self.old.cells.now table) p entry }
        ensures there { (t : ℕ) → 0 < t → t < 9 → (t ≢ table) → rows_of self.new.heads self.new.cells.now t ≡ rows_of self.old.heads self.old.cells.now t }
    {
        let heads = &mut self.heads;
        let cells = &mut *self.cells;
        ChainsMut { heads, cells }.put_after(table, node, entry);
    }

    /// Takes out what stands after node `node` of table `table`, and tells it.
    pub fn remove(&mut self, table: usize, node: usize) -> Entry
        requires from { 0 < table }
        requires to { table < 9 }
        requires at { (p : ℕ) × Before (nodes_of self.old.heads self.old.cells.now table) node p × (p < length (nodes_of self.old.heads self.old.cells.now table)) }
        ensures size { length self.new.cells.now ≡ length self.old.cells.now }
        ensures answer { (p : ℕ) → Before (nodes_of self.old.heads self.old.cells.now table) node p → p < length (nodes_of self.old.heads self.old.cells.now table) → result ≡ slice_index_or (rows_of self.old.heads self.old.cells.now table) p no_entry }
        ensures here { (p : ℕ) → Before (nodes_of self.old.heads self.old.cells.now table) node p → p < length (nodes_of self.old.heads self.old.cells.now table) → rows_of self.new.heads self.new.cells.now table ≡ remove (rows_of self.old.heads self.old.cells.now table) p }
        ensures there { (t : ℕ) → 0 < t → t < 9 → (t ≢ table) → rows_of self.new.heads self.new.cells.now t ≡ rows_of self.old.heads self.old.cells.now t }
    {
        let firsts = &mut self.heads;
        let cells = &mut *self.cells;
        let mut chains = ChainsMut {
            heads: firsts,
            cells,
        };
        chains.take_after(table, node)
    }
}
