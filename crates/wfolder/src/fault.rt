//! Why the program does not end as it was told.
use thiserror::Error;

/// Why the program does not end as it was told. What is printed for it is its name.
#[derive(Clone, Copy, Debug, PartialEq, Eq, Error)]
pub enum Fault {
    /// A file or the standard input was not read to its end.
    #[error("read fault")]
    Read,
    /// The store was not replaced, or the standard output not written.
    #[error("write fault")]
    Write,
    /// A growth was refused.
    #[error("no memory")]
    NoMemory,
}
