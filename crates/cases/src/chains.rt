//! Chains of records.
ghost use Rattle.std.specs.Prelude.{◌≡◌, ◌^◌, ◌<◌, length, IfSome, Ok, Err, MatchResult};
ghost use Rattle.std.specs.Iterator.{YieldsFirst, item_count};
ghost use Rattle.cases.specs.Chains.{trail_from, trail, met, met_again, item, chain_from};
ghost use Rattle.cases.specs.Trails.{trail_left};

use super::file::File;
use super::words::{HEAD, LISTS, record_at};
use faults::Fault;

/// A place for each record, and one that stays free since records are counted from 1.
const PLACES: usize = 1_025;

/// Walks a chain: the words that it goes through, each with the record that it points to; at most as many as are left.
#[derive(Drop)]
struct Trail<'a> {
    file: File<'a>,
    word: usize,
    left: usize,
}

impl<'a> Iterator for Trail<'a> {
    type Item = (usize, usize);

    ghost next_gives = { YieldsFirst trail_left };

    ghost remaining = { item_count trail_left };

    fn next(&mut self) -> Option<(usize, usize)> {
        self.left = self.left.checked_sub(1)?;
        let word = self.word;
        let record = self.file.record(word)?;
        self.word = record_at(record);
        Some((word, record))
    }
}

impl<'a> File<'a> {
    /// Walks the chain whose head is a word.
    fn trail(&self, head: usize, most: usize) -> Trail<'a>
        ensures { trail_left result ≡ trail self.now.bytes.now self.now.records most head }
    {
        Trail {
            file: *self,
            word: head,
            left: most,
        }
    }

    /// Follows a chain, and notes each record that it meets; refuses the index that meets one again.
    fn follow(&self, head: usize, noted: &mut [bool; PLACES]) -> Result<(), Fault>
        requires { head < 19 }
        ensures { MatchResult result (λ _. met noted.old (trail_from self.now.bytes.now self.now.records head) ≡ Ok noted.new) (λ f. met noted.old (trail_from self.now.bytes.now self.now.records head) ≡ Err f) }
    {
        for (word, record) in self.trail(head, self.records + 1) {
            if noted[record] {
                return Err(Fault::BadCase { place: 4 * word });
            }
            noted[record] = true;
        }
        Ok(())
    }

    /// Follows the chains of all heads in their order.
    pub(crate) fn check_chains(&self) -> Result<(), Fault>
        ensures { result ≡ met_again self.now.bytes.now self.now.records }
    {
        let mut noted = [false; PLACES];
        for head in 1..HEAD {
            if head != LISTS {
                self.follow(head, &mut noted)?;
            }
        }
        Ok(())
    }

    /// The record at a position of the chain whose head is a word.
    pub(crate) fn nth_record(&self, head: usize, position: usize) -> Option<usize>
        ensures value { result ≡ item (chain_from self.now.bytes.now self.now.records head) position }
        ensures index { IfSome result (λ i. (0 < i) × (i < 2 ^ 31)) }
    {
        // No chain goes past all records: a position beyond them is answered at once, with no walk to the end.
        if position >= self.records {
            return None;
        }
        let link = self.trail(head, self.records).nth(position);
        link.map(|(_, record)| record)
    }

    /// How many records the chain has whose head is a word.
    pub(crate) fn chain_length(&self, head: usize) -> usize
        ensures { result ≡ length (chain_from self.now.bytes.now self.now.records head) }
    {
        self.trail(head, self.records).count()
    }
}
