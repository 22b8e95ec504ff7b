//! A subcommand on the files that were read.
use wcommand::{Choice, Paths};

/// A subcommand, with the bytes of its table and its store, as they were read. It stays the same until the subcommand is done.
#[derive(Clone, Copy)]
pub(crate) struct Work<'a, 'w> {
    /// What the words choose.
    pub(crate) choice: &'a Choice<'w>,
    /// Where the table and the store stand.
    pub(crate) paths: Paths<'w>,
    /// The bytes of the table.
    pub(crate) table: &'a [u8],
    /// The bytes of the store, if it was there.
    pub(crate) store: &'a Option<Vec<u8>>,
}
