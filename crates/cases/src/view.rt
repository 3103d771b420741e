//! A checked case file as tables, reads and lists.
ghost use Rattle.std.specs.Prelude.{◌≡◌, ◌+◌, ◌-◌, ◌*◌, ◌^◌, ◌<◌, min, length, IfOk};
ghost use Rattle.std.specs.Option.{option_map};
ghost use Rattle.meaning.specs.Evaluation.{cut};
ghost use Rattle.cases.specs.Chains.{item};
ghost use Rattle.cases.specs.Meaning.{values, is_table, numbers_from, case_verdict, list_item};
ghost use Rattle.cases.specs.View.{shown, case_read};

use super::file::File;
use super::words::{LISTS, MOST_TABLES, READS, index_at, record_at, word_at};
use faults::Fault;
use std::array;

/// A case file that was found well formed, with the count of attributes of each table of the model.
#[derive(Clone, Copy)]
pub struct Case<'a> {
    file: File<'a>,
    widths: &'a [usize],
}

/// Checks a case file for a model whose tables have these counts of attributes.
pub fn read_case<'a>(bytes: &'a [u8], widths: &'a [usize]) -> Result<Case<'a>, Fault>
    ensures verdict { case_read result ≡ case_verdict (length widths.now) bytes.now }
    ensures same { IfOk result (λ c. (c.file.bytes.now ≡ bytes.now) × (c.widths.now ≡ widths.now)) }
{
    let file = File::sized(bytes)?;
    file.check_words(widths.len())?;
    file.check_chains()?;
    Ok(Case { file, widths })
}

/// The first values of a record; the others read as 0.
fn row_of(bytes: &[u8], index: usize, width: usize) -> [i32; 8]
    requires { (0 < index) × (index < 2 ^ 31) }
    ensures { result ≡ cut 8 (values bytes.now (19 + 9 * (index - 1) + 1) (min width 8)) }
{
    let first = record_at(index) + 1;
    array::from_fn(|k| if k < width {
        word_at(bytes, first + k)
    } else {
        0
    })
}

impl<'a> Case<'a> {
    /// The row at a position of a table; tables are counted from 1, positions from 0.
    pub fn row(&self, table: usize, position: usize) -> Option<[i32; 8]>
        ensures { result ≡ option_map (cut 8) (item ((shown self.now).rows table) position) }
    {
        if !self.is_table(table) {
            return None;
        }
        let index = self.file.nth_record(table, position)?;
        Some(row_of(self.file.bytes, index, self.widths[table - 1]))
    }

    /// How many rows a table has.
    pub fn rows(&self, table: usize) -> usize
        ensures { result ≡ length ((shown self.now).rows table) }
    {
        if !self.is_table(table) {
            return 0;
        }
        self.file.chain_length(table)
    }

    /// How many numbers there are to read.
    pub fn reads(&self) -> usize
        ensures { result ≡ length (shown self.now).reads }
    {
        self.file.chain_length(READS)
    }

    /// The number to read at a position, counted from 0.
    pub fn read(&self, position: usize) -> Option<i32>
        ensures { result ≡ item (shown self.now).reads position }
    {
        self.number(READS, position)
    }

    /// How many lists there are to load.
    pub fn lists(&self) -> usize
        ensures { result ≡ length (shown self.now).lists }
    {
        index_at(self.file.bytes, LISTS)
    }

    /// The number at a position of a list; lists are counted from 1, positions from 0.
    pub fn list(&self, list: usize, position: usize) -> Option<i32>
        ensures { result ≡ list_item (shown self.now).lists list position }
    {
        if !(1..=self.lists()).contains(&list) {
            return None;
        }
        self.number(LISTS + list, position)
    }

    /// Whether a number is that of a table.
    fn is_table(&self, table: usize) -> bool
        ensures { result ≡ is_table (length self.now.widths.now) table }
    {
        (1..=self.widths.len().min(MOST_TABLES)).contains(&table)
    }

    /// The first value at a position of the chain whose head is a word.
    fn number(&self, head: usize, position: usize) -> Option<i32>
        ensures { result ≡ item (numbers_from self.now.file.bytes.now self.now.file.records head) position }
    {
        let index = self.file.nth_record(head, position)?;
        Some(word_at(self.file.bytes, record_at(index) + 1))
    }
}
