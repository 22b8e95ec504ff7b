//! Why a batch takes no more.
use thiserror::Error;
use wsegment::SegmentFault;

/// Why a batch takes no more of a stream.
#[derive(Clone, Copy, Debug, PartialEq, Eq, Error)]
pub enum Stop {
    /// A segment has this fault.
    #[error("a segment is refused: {0}")]
    Segment(SegmentFault),
    /// B1: what stands next is no message, or the stream ends inside one.
    #[error("the stream is bad")]
    Bad,
    /// A growth was refused.
    #[error("out of memory")]
    NoMemory,
}
