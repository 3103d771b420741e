//! Places from which only so many things more may come.
use terms::reader::Reader;

/// A reader, and how many things more may come from its place on: attributes of a table, or statements.
#[derive(Clone, Copy)]
pub(crate) struct Limited<'a> {
    pub at: Reader<'a>,
    pub room: usize,
}
