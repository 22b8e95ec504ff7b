//! What the calls of a set answer.

use thiserror::Error;
use wsegment::SegmentFault;

/// What taking a segment did.
#[derive(Clone, Copy, Debug, PartialEq, Eq)]
pub enum Taken {
    /// The name was unknown, and is live now.
    New,
    /// The name was live with these bytes, and still is.
    Same,
    /// The name was live with other bytes, and is disputed now.
    Disputed,
    /// The name was disputed or retired, and still is.
    Ignored,
}

/// What retiring a name did.
#[derive(Clone, Copy, Debug, PartialEq, Eq)]
pub enum Retired {
    /// The name was not retired, and is now.
    New,
    /// The name was retired before.
    Same,
}

/// Why a segment is not taken: what is wrong with its bytes, or `NoMemory`. The set is then as it was.
pub type TakeError = SegmentFault;

/// Why two sets are not joined. Both are then as they were.
#[derive(Clone, Copy, Debug, PartialEq, Eq, Error)]
pub enum JoinError {
    /// The sets have different declarations.
    #[error("the sets have different declarations")]
    OtherSchema,
    /// A growth was refused.
    #[error("out of memory")]
    NoMemory,
}
