//! What a subcommand is given besides the table and the store.
use wbatch::Batch;

/// What a subcommand is given besides the table and the store.
#[derive(Clone, Copy)]
pub(crate) enum Given<'a> {
    /// The bytes of CSV or OTHER, of which there are none where the subcommand has no such file.
    Bytes(&'a [u8]),
    /// The batch that was filled from STREAM.
    Batch(&'a Batch),
}
