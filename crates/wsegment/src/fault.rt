//! Why bytes are no segment.
ghost use Rattle.std.specs.Prelude.{◌≡◌};
ghost use Rattle.wsegment.specs.declared.fault.SegmentFault.TheVariants.{NoMemory};

use std::alloc::{AllocError, AllocFailed};
use thiserror::Error;

/// Why bytes are no segment: the first fault in reading order. Rows are counted from 1, below the header.
#[derive(Clone, Copy, Debug, PartialEq, Eq, Error)]
pub enum SegmentFault {
    /// S1: over 67,108,864 bytes.
    #[error("the segment has more than 67108864 bytes")]
    TooLong,
    /// S2: no header record.
    #[error("there is no header")]
    NoHeader,
    /// S3, in the header: a field is not UTF-8.
    #[error("the header is not UTF-8")]
    HeaderNotUtf8,
    /// S3, below it: a field of this row is not UTF-8.
    #[error("row {row} is not UTF-8")]
    RowNotUtf8 { row: u32 },
    /// S4: the header names a column that the table lacks.
    #[error("the header names an unknown column")]
    UnknownColumn,
    /// S5: the header names a column twice.
    #[error("the header repeats a column")]
    RepeatedColumn,
    /// S6: the header lacks a column of the table.
    #[error("the header lacks a column")]
    MissingColumn,
    /// S7: this row has another number of fields than the header.
    #[error("row {row} has another number of fields than the header")]
    RowLength { row: u32 },
    /// S8: a field of an integer column of this row is no 64-bit number.
    #[error("row {row} has a field that is no 64-bit number")]
    NotInteger { row: u32 },
    /// S9: over 1,000,000 rows.
    #[error("there are more than 1000000 rows")]
    TooManyRows,
    /// A growth was refused. It judges nothing, and nothing has changed.
    #[error("out of memory")]
    NoMemory,
}

impl From<AllocError> for SegmentFault {
    ghost from_gives = { λ _ fault. fault ≡ NoMemory };

    fn from(_refused: AllocError) -> SegmentFault {
        SegmentFault::NoMemory
    }
}

impl<T: Drop> From<AllocFailed<T>> for SegmentFault {
    ghost from_gives = { λ _ fault. fault ≡ NoMemory };

    fn from(_refused: AllocFailed<T>) -> SegmentFault {
        SegmentFault::NoMemory
    }
}
