//! The checks of a case file's words, in file order.
ghost use Rattle.std.specs.Prelude.{◌≡◌, false};
ghost use Rattle.std.specs.Range.{range_inclusive_start, range_inclusive_end, range_inclusive_exhausted};
ghost use Rattle.cases.specs.Ranges.{range_of, fits, out_of_range};

use super::file::File;
use super::words::{HEAD, LISTS, MOST_LISTS, READS, RECORD, index_at, word_at};
use faults::Fault;
use std::ops::RangeInclusive;

/// The numbers that a word may be, by its place in the file.
fn range_of(tables: usize, records: i32, lists: usize, at: usize) -> RangeInclusive<i32>
    ensures ends { (range_inclusive_start result, range_inclusive_end result) ≡ range_of tables records lists at }
    ensures fresh { range_inclusive_exhausted result ≡ false }
{
    match at {
        0..READS => 0..=(if at <= tables { records } else { 0 }),
        READS => 0..=records,
        LISTS => 0..=MOST_LISTS,
        11..HEAD => 0..=(if at - LISTS <= lists { records } else { 0 }),
        _ if (at - HEAD) % RECORD == 0 => 0..=records,
        _ => -1_000_000_000..=1_000_000_000,
    }
}

impl<'a> File<'a> {
    /// Whether the word at a place is in its range.
    fn word_fits(&self, tables: usize, at: usize) -> bool
        ensures { result ≡ fits self.now.bytes.now tables at }
    {
        let records = word_at(self.bytes, 0);
        let lists = index_at(self.bytes, LISTS);
        range_of(tables, records, lists, at).contains(&word_at(self.bytes, at))
    }

    /// Refuses the first word that is out of its range.
    pub(crate) fn check_words(&self, tables: usize) -> Result<(), Fault>
        ensures { result ≡ out_of_range self.now.bytes.now tables self.now.records }
    {
        match (1..HEAD + RECORD * self.records).find(|at| !self.word_fits(tables, *at)) {
            Some(at) => Err(Fault::BadCase { place: 4 * at }),
            None => Ok(()),
        }
    }
}
