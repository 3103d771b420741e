//! The store with rows side by side.
ghost use Rattle.std.specs.Prelude.{◌≡◌, ℕ, ◌+◌, ◌-◌, ◌*◌, ◌<◌, ◌≤◌, true, false, length, take, slice_index, slice_range, slice_index_or, IfOk, IfErr};
ghost use Rattle.store.specs.Meaning.{Lawful, is_limit, is_table, is_position, unless14, no_entry, sought, ascending, empty_of};
ghost use Rattle.side_store.specs.Parts.{meant, part};
ghost use Rattle.faults.specs.declared.Fault.TheVariants.{NotThere};

use super::shifts::{close, open};
use faults::Fault;
use std::ops::Range;
use store::{Entry, Store, TABLES, WIDTH, check_table};

/// Tables whose rows stand side by side: table t has `limit` slots from place (t - 1) * limit on.
// Slots with counts beside them and no `Vec`: a store takes no heap, and its rows lie in the memory that it is lent.
#[derive(Drop)]
pub struct SideStore<'a> {
    slots: &'a mut [Entry],
    counts: [usize; TABLES],
    limit: usize,
    ghost limited: { is_limit limit ≡ true },
    ghost size: { length slots.now ≡ 8 * limit },
    ghost width: { length counts ≡ 8 },
    ghost within: { ((u : ℕ) → u < 8 → slice_index counts u ≤ limit) },
    ghost ascends: { ((u : ℕ) → u < 8 → ascending (part limit counts slots.now u) ≡ true) },
}

impl<'a> SideStore<'a> {
    /// An empty store in the first slots that are lent, as many as it needs; making it writes nothing there.
    pub fn new(slots: &'a mut [Entry], limit: usize) -> SideStore<'a>
        requires limit { is_limit limit ≡ true }
        requires room { 8 * limit ≤ length slots.old }
        ensures meaning { meant result.limit result.counts result.slots.now ≡ empty_of limit }
        ensures memory { result.slots.now ≡ take (8 * limit) slots.old }
    {
        SideStore {
            slots: &mut slots[..TABLES * limit],
            counts: [0; TABLES],
            limit,
        }
    }
}

impl SideStore<'_> {
    /// The places of the slots that table `table` has in use.
    fn places(&self, table: usize) -> Result<Range<usize>, Fault>
        ensures here { IfOk result (λ r. (is_table table ≡ true) × (r.start ≡ (table - 1) * self.now.limit) × (r.end ≡ r.start + slice_index self.now.counts (table - 1)) × (r.start + self.now.limit ≤ length self.now.slots.now)) }
        ensures refused { IfErr result (λ e. (is_table table ≡ false) × (e ≡ NotThere table)) }
    {
        check_table(table)?;
        let start = (table - 1) * self.limit;
        Ok(start..start + self.counts[table - 1])
    }

    /// Looks for `key` among the rows at `places`.
    fn find(&self, places: &Range<usize>, key: i32) -> Result<usize, usize>
        requires order { places.now.start ≤ places.now.end }
        requires room { places.now.end ≤ length self.now.slots.now }
        requires ascends { ascending (slice_range self.now.slots.now places.now.start places.now.end) ≡ true }
        ensures { result ≡ sought key (slice_range self.now.slots.now places.now.start places.now.end) }
    {
        self.slots[places.start..places.end].binary_search_by_key(&key, |entry| entry.key)
    }

    /// The entry at `position` of table `table`.
    fn entry_at(&self, table: usize, position: usize) -> Result<Entry, Fault>
        ensures { let m = meant self.now.limit self.now.counts self.now.slots.now in result ≡ unless14 (is_position m table position) (slice_index_or (m.tables table) position no_entry) table }
    {
        let places = self.places(table)?;
        self.slots[places]
            .get(position)
            .copied()
            .ok_or(Fault::NotThere { table })
    }
}

impl Store for SideStore<'_> {
    ghost meaning = { λ s. meant s.limit s.counts s.slots.now };

    fn limit(&self) -> usize {
        self.limit
    }

    fn count(&self, table: usize) -> Result<usize, Fault> {
        Ok(self.places(table)?.len())
    }

    fn key_at(&self, table: usize, position: usize) -> Result<i32, Fault> {
        Ok(self.entry_at(table, position)?.key)
    }

    fn row_at(&self, table: usize, position: usize) -> Result<[i32; WIDTH], Fault> {
        Ok(self.entry_at(table, position)?.row)
    }

    fn put(&mut self, table: usize, key: i32, row: [i32; WIDTH]) -> Result<(), Fault> {
        let places = self.places(table)?;
        match self.find(&places, key) {
            Ok(_) => Err(Fault::KeyTaken { table }),
            Err(_) if places.len() >= self.limit => Err(Fault::TableFull { table }),
            Err(at) => {
                let entry = Entry { key, row };
                open(self.slots, places.start + at, places.end, entry);
                self.counts[table - 1] += 1;
                Ok(())
            }
        }
    }

    fn take(&mut self, table: usize, key: i32) -> Result<[i32; WIDTH], Fault> {
        let places = self.places(table)?;
        match self.find(&places, key) {
            Err(_) => Err(Fault::NotThere { table }),
            Ok(at) => {
                let entry = self.slots[places.start + at];
                close(self.slots, places.start + at, places.end);
                self.counts[table - 1] -= 1;
                Ok(entry.row)
            }
        }
    }
}
