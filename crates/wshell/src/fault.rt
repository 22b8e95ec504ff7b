//! Why a shell does not go on.

use thiserror::Error;

/// Why a shell does not go on to the end of its input. What was written is a beginning of the replies.
#[derive(Clone, Copy, Debug, PartialEq, Eq, Error)]
pub enum ShellFault {
    /// The reader failed, or has not ended within 2^40 reads.
    #[error("read fault")]
    Read,
    /// The writer failed.
    #[error("write fault")]
    Write,
    /// A growth was refused.
    #[error("no memory")]
    NoMemory,
}
