//! Rounds of steps over fresh stores.
ghost use Rattle.std.specs.Prelude.{◌<◌, ◌≤◌};

use super::plain::Plain;
use super::steps::{Step, Tally, Work, same_table};
use chain::Cell;
use chained_store::ChainedStore;
use faults::Fault;
use side_store::SideStore;
use std::alloc::Global;
use store::{Entry, Store, WIDTH, records_needed};
use store_tools::{clear, copy_store, same};

/// As many records as the largest limit takes.
pub const RECORDS: usize = 512;

/// What stands in the lent memory before a store is made there.
pub const BLANK: Entry = Entry {
    key: -77,
    row: [-77; WIDTH],
};

/// The same with a next index.
pub const BLANK_CELL: Cell<Entry> = Cell {
    next: 77,
    value: BLANK,
};

/// Two stores and plain rows of one limit that take the same steps, and what came of it.
#[derive(Drop)]
struct Race<A, B> {
    a: A,
    b: B,
    plain: Plain,
    limit: u16,
    tally: Tally,
    ghost limited: { (1 ≤ limit) × (limit ≤ 64) },
}

impl<A: Store, B: Store> Race<A, B> {
    /// Takes one step everywhere, and compares the answers and the table that it is about.
    fn step(&mut self, step: Step) {
        let expected = step.run(&mut self.plain);
        let first = step.run(&mut self.a);
        let second = step.run(&mut self.b);
        self.tally.count(step.work, expected);
        self.tally.hold(first == expected && second == expected);
        self.compare_table(step.table);
    }

    /// Compares a table of both stores with the plain rows.
    fn compare_table(&mut self, table: usize) {
        let same = same_table(&self.a, &self.plain, table)
            && same_table(&self.b, &self.plain, table);
        self.tally.hold(same);
    }

    /// Compares everything, tables that are none included.
    fn compare(&mut self) {
        self.tally.hold(same(&self.a, &self.b));
        for table in 0..10 {
            self.compare_table(table);
        }
    }

    /// The keys from -limit up to limit, each once as `i` goes up to twice the limit, where 7 and that have no common factor.
    fn scripted_key(&self, i: u16) -> i32
        requires { i < 128 }
    {
        i32::from(7 * i % (2 * self.limit)) - i32::from(self.limit)
    }

    /// The same work on one table with twice as many keys as it takes rows.
    fn script_table(&mut self, work: Work, table: usize) {
        for i in 0..2 * self.limit {
            let key = self.scripted_key(i);
            let number = i32::from(i);
            self.step(Step {
                work,
                table,
                key,
                number,
            });
        }
    }

    /// The same work on all tables, and on the numbers right before and after them.
    fn script(&mut self, work: Work) {
        for table in 0..10 {
            self.script_table(work, table);
        }
        self.compare();
    }

    /// Mixed steps, drawn by a linear rule from one number to the next.
    fn mix(&mut self, steps: u16) {
        let mut random: u32 = 1;
        for i in 0..steps {
            random = random.wrapping_mul(1_664_525).wrapping_add(1_013_904_223);
            self.step(mixed_step(random, i32::from(i)));
        }
        self.compare();
    }

    /// Copies the first store into the second and compares them, then empties both and compares them with no rows.
    fn copy_and_clear(&mut self, none: Plain) {
        let done = copy_store(&self.a, &mut self.b).is_ok();
        self.tally.hold(done && same(&self.a, &self.b));
        clear(&mut self.a);
        clear(&mut self.b);
        self.plain = none;
        self.compare();
    }
}

/// A step made of a random number: any table or none, a few keys, a put or a take.
fn mixed_step(random: u32, number: i32) -> Step {
    let work = if random / 2_097_152 % 2 == 0 {
        Work::Put
    } else {
        Work::Take
    };
    let table = (random / 16_777_216 % 10) as usize;
    let key = (random / 65_536 % 16) as i32 - 8;
    Step {
        work,
        table,
        key,
        number,
    }
}

/// Runs a round over fresh stores, and sees that the memory beyond what they need stays as it was.
fn round<F>(heap: Global, limit: u16, run: F) -> Result<Tally, Fault>
where
    F: FnOnce(&mut Race<ChainedStore<'_>, SideStore<'_>>),
    requires { F.IsAlwaysCallable run }
{
    let rows = usize::from(limit);
    let mut cells = [BLANK_CELL; RECORDS];
    let mut slots = [BLANK; RECORDS];
    let records = records_needed(rows, RECORDS)?;
    let mut race = Race {
        a: ChainedStore::new(&mut cells, rows),
        b: SideStore::new(&mut slots, rows),
        plain: Plain::new(heap, rows),
        limit,
        tally: Tally::default(),
    };
    run(&mut race);
    let mut tally = race.tally;
    drop(race);
    let blank_cells = cells[records..]
        .iter()
        .all(|cell| cell.next == BLANK_CELL.next && cell.value == BLANK);
    let blank_slots = slots[records..].iter().all(|slot| *slot == BLANK);
    tally.hold(blank_cells && blank_slots);
    Ok(tally)
}

/// All keys put, put again, and taken out. A table takes the first half of the keys and is full for the others;
/// put again, the first half is there; taken out, the second half is absent.
pub fn scripted_round(heap: Global, limit: u16) -> Result<Tally, Fault> {
    round(heap, limit, |race| {
        race.script(Work::Put);
        race.script(Work::Put);
        race.script(Work::Take);
    })
}

/// A round of mixed steps, in which tables get full and empty again.
pub fn mixed_round(heap: Global, limit: u16, steps: u16) -> Result<Tally, Fault> {
    round(heap, limit, |race| {
        race.mix(steps);
        race.copy_and_clear(Plain::new(heap, usize::from(limit)));
    })
}
