//! Why nothing more can be read.

/// Why nothing more can be read.
#[derive(Clone, Copy, Debug, PartialEq, Eq)]
pub enum ReadFault {
    /// The reader failed, or it has not ended within 2^40 reads. What waited to be written was written before.
    Reader,
    /// What waited to be written before the next read could not be.
    Writer,
}
