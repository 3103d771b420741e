//! The bytes of a case file with their count of records.
ghost use Rattle.std.specs.Prelude.{◌≡◌, ◌≤◌, IfOk, MatchResult, Ok, Err};
ghost use Rattle.std.specs.Bool.{then_some};
ghost use Rattle.cases.specs.Chains.{pointer, is_index};
ghost use Rattle.cases.specs.Ranges.{size_of};

use super::words::{HEAD, MOST_RECORDS, RECORD, index_at, word_at};
use faults::Fault;

/// The bytes of a file that has the right size for its count of records.
#[derive(Clone, Copy)]
pub(crate) struct File<'a> {
    pub(crate) bytes: &'a [u8],
    pub(crate) records: usize,
    ghost few: { records ≤ 1024 },
}

impl<'a> File<'a> {
    /// Refuses bytes whose size is another than that of their count of records.
    pub(crate) fn sized(bytes: &'a [u8]) -> Result<File<'a>, Fault>
        ensures value { MatchResult result (λ f. size_of bytes.now ≡ Ok f.records) (λ e. size_of bytes.now ≡ Err e) }
        ensures same { IfOk result (λ f. f.bytes.now ≡ bytes.now) }
    {
        match usize::try_from(word_at(bytes, 0)) {
            Ok(records)
                if records <= MOST_RECORDS && bytes.len() == 4 * (HEAD + RECORD * records) => {
                Ok(File { bytes, records })
            }
            _ => Err(Fault::BadCase { place: 0 }),
        }
    }

    /// The record that a word points to; neither 0 nor an index beyond the records is one.
    pub(crate) fn record(&self, at: usize) -> Option<usize>
        ensures { let i = pointer self.now.bytes.now at in result ≡ then_some (is_index self.now.records i) i }
    {
        let index = index_at(self.bytes, at);
        (1..=self.records).contains(&index).then_some(index)
    }
}
