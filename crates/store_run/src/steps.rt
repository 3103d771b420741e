//! The steps that stores and plain rows take alike, and what their answers come to.
use faults::Fault;
use store::{Store, WIDTH};

/// Tables of rows, be they a store or plain rows.
pub trait Tables {
    fn count(&self, table: usize) -> Result<usize, Fault>;

    /// What is answered for the key at a position and for the row there.
    fn at(
        &self,
        table: usize,
        position: usize,
    ) -> (Result<i32, Fault>, Result<[i32; WIDTH], Fault>);

    fn put(&mut self, table: usize, key: i32, row: [i32; WIDTH]) -> Result<(), Fault>;

    fn take(&mut self, table: usize, key: i32) -> Result<[i32; WIDTH], Fault>;
}

impl<S: Store> Tables for S {
    fn count(&self, table: usize) -> Result<usize, Fault> {
        Store::count(self, table)
    }

    fn at(
        &self,
        table: usize,
        position: usize,
    ) -> (Result<i32, Fault>, Result<[i32; WIDTH], Fault>) {
        (self.key_at(table, position), self.row_at(table, position))
    }

    fn put(&mut self, table: usize, key: i32, row: [i32; WIDTH]) -> Result<(), Fault> {
        Store::put(self, table, key, row)
    }

    fn take(&mut self, table: usize, key: i32) -> Result<[i32; WIDTH], Fault> {
        Store::take(self, table, key)
    }
}

// Data and no closure: the same step is taken by three tables, and the answer is counted by its kind.
#[derive(Clone, Copy)]
pub enum Work {
    Put,
    Take,
}

/// A put or a take; a put's row has the step's number for its first value.
#[derive(Clone, Copy)]
pub struct Step {
    pub work: Work,
    pub table: usize,
    pub key: i32,
    pub number: i32,
}

impl Step {
    /// The row that the step puts.
    fn row(self) -> [i32; WIDTH] {
        let mut row = [self.key; WIDTH];
        row[0] = self.number;
        row
    }

    /// What tables answer to the step: the row that was put or taken out.
    pub fn run<T: Tables>(self, tables: &mut T) -> Result<[i32; WIDTH], Fault> {
        match self.work {
            Work::Take => tables.take(self.table, self.key),
            Work::Put => {
                let row = self.row();
                tables.put(self.table, self.key, row)?;
                Ok(row)
            }
        }
    }
}

/// Whether a table has the same rows twice, and ends at the same position.
pub fn same_table<A: Tables, B: Tables>(a: &A, b: &B, table: usize) -> bool {
    let count = a.count(table);
    b.count(table) == count
        && (0..=count.unwrap_or(0)).all(|position| a.at(table, position) == b.at(table, position))
}

/// How many steps there were, how often each answer came, and how often something was not the same.
#[derive(Clone, Copy, Default)]
pub struct Tally {
    pub steps: u32,
    pub put: u32,
    pub out: u32,
    pub there: u32,
    pub full: u32,
    pub absent: u32,
    pub apart: u32,
}

impl Tally {
    /// One answer more.
    pub fn count(&mut self, work: Work, answer: Result<[i32; WIDTH], Fault>) {
        self.steps = self.steps.wrapping_add(1);
        let times = match (answer, work) {
            (Ok(_), Work::Put) => &mut self.put,
            (Ok(_), Work::Take) => &mut self.out,
            (Err(Fault::KeyTaken { .. }), _) => &mut self.there,
            (Err(Fault::TableFull { .. }), _) => &mut self.full,
            (Err(_), _) => &mut self.absent,
        };
        *times = times.wrapping_add(1);
    }

    /// One difference more, unless things are the same.
    pub fn hold(&mut self, same: bool) {
        if !same {
            self.apart = self.apart.wrapping_add(1);
        }
    }
}
