//! Why the program stops.

use std::alloc::AllocError;
use std::io;
use thiserror::Error;

/// Why the program stops before the end of its input.
#[derive(Debug, Drop, Error)]
pub enum Failure {
    /// Paragraphs that are no case.
    #[error("a case is ROUNDS, CALL, TABLE, STORE, STREAM, TEXT and OTHER")]
    Case,
    /// A growth was refused outside a call.
    #[error("no memory")]
    NoMemory(#[from(alloc)] AllocError),
    /// Reading or writing failed.
    #[error("{0}")]
    System(#[from] io::Error),
}
