//! Why the program stops.

use crate::case::CaseFault;
use std::alloc::AllocError;
use std::io;
use thiserror::Error;

/// Why the program stops before the end of its input.
#[derive(Debug, Drop, Error)]
pub enum Failure {
    /// Words behind the program's name that it does not take.
    #[error("usage: window_bench [times] < cases")]
    Words,
    /// A line that is no case; lines are counted from 1.
    #[error("line {line}: {fault}")]
    Line { line: usize, fault: CaseFault },
    /// The rows that were made do not stand in order.
    #[error("the rows are not in order")]
    Order,
    /// A growth was refused.
    #[error("no memory")]
    NoMemory(#[from(alloc)] AllocError),
    /// Reading, writing, or asking the clock failed.
    #[error("{0}")]
    System(#[from] io::Error),
}
