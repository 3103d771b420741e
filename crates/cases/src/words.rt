//! The words of a case file, and where they stand.
ghost use Rattle.std.specs.Prelude.{◌≡◌, ◌^◌, ◌<◌};
ghost use Rattle.cases.specs.Words.{word, index_of, record_word};

/// How many values a record has room for.
pub const VALUES: usize = 8;

/// The words of a record: a next index and its values.
pub(crate) const RECORD: usize = 1 + VALUES;

/// The words of the head.
pub(crate) const HEAD: usize = 19;

/// The word that is the head of the reads.
pub(crate) const READS: usize = 9;

/// The word that is the count of lists.
pub(crate) const LISTS: usize = 10;

/// The most tables; their heads stand before that of the reads.
pub(crate) const MOST_TABLES: usize = 8;

/// The most lists; their heads stand behind their count.
pub(crate) const MOST_LISTS: i32 = 8;

/// The largest count of records.
pub(crate) const MOST_RECORDS: usize = 1_024;

/// The word at a place counted in words: four bytes, the high one first, with a sign. Beyond the file it is 0.
pub(crate) fn word_at(bytes: &[u8], at: usize) -> i32
    ensures { result ≡ word bytes.now at }
{
    let (words, _) = bytes.as_chunks::<4>();
    words.get(at).map_or(0, |word| i32::from_be_bytes(*word))
}

/// The word at a place as an index; one below 0 is none.
// 0 and no `None`: the definition gives 0, which is no index, for a word below 0.
pub(crate) fn index_at(bytes: &[u8], at: usize) -> usize
    ensures value { result ≡ index_of (word bytes.now at) }
    ensures small { result < 2 ^ 31 }
{
    usize::try_from(word_at(bytes, at)).unwrap_or(0)
}

/// The place of a record's first word; records are counted from 1.
pub(crate) fn record_at(index: usize) -> usize
    requires { (0 < index) × (index < 2 ^ 31) }
    ensures { result ≡ record_word index }
{
    HEAD + RECORD * (index - 1)
}
