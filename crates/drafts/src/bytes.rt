//! A case from its lines: its records in the order written, and the bytes of its file.
ghost use Rattle.std.specs.Prelude.{◌≤◌, ◌<◌, vec_len, IfSome};

use super::line::{Line, LineFault, read_line, read_numbers, read_rest};
use std::alloc::{AllocError, Global};

/// The most records of a case file.
pub const MOST_RECORDS: usize = 1_024;

/// How many heads a case file has for tables, and how many for lists.
const HEADS: u8 = 8;

/// How many values a record has.
const VALUES: usize = 8;

/// A chain of records.
#[derive(Clone, Copy, PartialEq, Eq)]
pub enum Chain {
    /// The rows of a table; tables are counted from 1.
    Rows(u8),
    Reads,
    /// The numbers of a list; lists are counted from 1.
    List(u8),
}

/// A record as it was written: its chain, and its values.
#[derive(Clone, Copy)]
pub struct Written {
    pub chain: Chain,
    pub values: [i32; 8],
}

/// Adds a word, the high byte first.
fn push_word(bytes: &mut Vec<u8>, word: i32) -> Result<(), AllocError> {
    bytes.extend_from_slice(&word.to_be_bytes())
}

/// Adds words, one by one.
fn push_words(bytes: &mut Vec<u8>, words: &[i32]) -> Result<(), AllocError> {
    for word in words {
        push_word(bytes, *word)?;
    }
    Ok(())
}

/// Adds the word that points to a record: its index, counted from 1, or 0 for none.
fn push_index(bytes: &mut Vec<u8>, place: Option<usize>) -> Result<(), AllocError>
    requires { IfSome place (λ at. at < 1024) }
{
    push_word(bytes, place.map_or(0, |at| at as i32 + 1))
}

/// A case in the making.
#[derive(Drop)]
pub(crate) struct Draft {
    records: Vec<Written>,
    /// The table of the rows that follow.
    table: Option<u8>,
    /// The count of lists.
    lists: u8,
    ghost few: { vec_len records ≤ 1024 },
}

impl Draft {
    /// A case of no records.
    pub(crate) fn new(heap: Global) -> Draft {
        Draft {
            records: Vec::new(heap),
            table: None,
            lists: 0,
        }
    }

    /// The place of the first record of a chain.
    fn first_of(&self, chain: Chain) -> Option<usize>
        ensures { IfSome result (λ at. at < vec_len self.now.records) }
    {
        self.records.iter().position(|record| record.chain == chain)
    }

    /// The place of the record behind another in its chain.
    fn next_of(&self, at: usize) -> Option<usize>
        requires { at < vec_len self.now.records }
        ensures { IfSome result (λ next. next < vec_len self.now.records) }
    {
        let next = self.records.get(at + 1)?;
        (next.chain == self.records[at].chain).then_some(at + 1)
    }

    /// Adds a record at the end of its chain; it has at most 8 values, and the others are 0.
    fn add(&mut self, chain: Chain, given: &[i32]) -> Result<(), LineFault> {
        if self.records.len() == MOST_RECORDS || given.len() > VALUES {
            return Err(LineFault::Bad);
        }
        let mut values = [0; VALUES];
        values[..given.len()].copy_from_slice(given);
        self.records.push(Written { chain, values })?;
        Ok(())
    }

    /// Adds a record for each number behind a line's first word.
    fn add_numbers(&mut self, chain: Chain, rest: &[u8]) -> Result<(), LineFault> {
        for number in read_rest(*self.records.allocator(), rest)? {
            self.add(chain, &[number])?;
        }
        Ok(())
    }

    /// Adds a row of the table that stands above it.
    fn add_row(&mut self, line: &[u8]) -> Result<(), LineFault> {
        let table = self.table.ok_or(LineFault::Bad)?;
        let numbers = read_numbers(*self.records.allocator(), line)?;
        self.add(Chain::Rows(table), numbers.as_slice())
    }

    /// Refuses a chain that has records already.
    fn check_new(&self, chain: Chain) -> Result<(), LineFault> {
        match self.first_of(chain) {
            None => Ok(()),
            Some(_) => Err(LineFault::Bad),
        }
    }

    /// Takes a line. Rows follow their table at once, so each chain's records stand side by side.
    pub(crate) fn take_line(&mut self, line: &[u8]) -> Result<(), LineFault> {
        match read_line(line)? {
            Line::Row(line) => self.add_row(line),
            Line::Table(table) => {
                self.check_new(Chain::Rows(table))?;
                self.table = Some(table);
                Ok(())
            }
            Line::Reads(rest) => {
                self.check_new(Chain::Reads)?;
                self.table = None;
                self.add_numbers(Chain::Reads, rest)
            }
            Line::List(rest) if self.lists < HEADS => {
                self.lists += 1;
                self.table = None;
                self.add_numbers(Chain::List(self.lists), rest)
            }
            Line::List(_) => Err(LineFault::Bad),
        }
    }

    /// Adds the heads of the chains of a kind.
    fn push_heads<F: Fn(u8) -> Chain>(
        &self,
        bytes: &mut Vec<u8>,
        chain: F,
    ) -> Result<(), AllocError>
        requires { F.IsAlwaysCallable chain }
    {
        for number in 1..=HEADS {
            push_index(bytes, self.first_of(chain(number)))?;
        }
        Ok(())
    }

    /// The head of the file: the count of records, the heads of tables and reads, the count of lists and their heads.
    fn head(&self) -> Result<Vec<u8>, AllocError> {
        let mut bytes = Vec::new(*self.records.allocator());
        push_word(&mut bytes, self.records.len() as i32)?;
        self.push_heads(&mut bytes, Chain::Rows)?;
        push_index(&mut bytes, self.first_of(Chain::Reads))?;
        push_word(&mut bytes, i32::from(self.lists))?;
        self.push_heads(&mut bytes, Chain::List)?;
        Ok(bytes)
    }

    /// The bytes of the case file.
    pub(crate) fn file(&self) -> Result<Vec<u8>, AllocError> {
        let mut bytes = self.head()?;
        for (at, record) in self.records.iter().enumerate() {
            push_index(&mut bytes, self.next_of(at))?;
            push_words(&mut bytes, &record.values)?;
        }
        Ok(bytes)
    }
}
