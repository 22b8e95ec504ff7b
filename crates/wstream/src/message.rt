//! Messages of a delivery stream.

use thiserror::Error;
use wvalues::Name;

/// A message of a delivery stream, lent from the inbox that holds its bytes: `S origin number len`, a line feed, `len`
/// bytes and a line feed; or `R origin number` or `U origin number` and a line feed.
#[derive(Clone, Copy)]
pub enum Message<'a> {
    /// These bytes are a content of the name.
    Take(&'a Name, &'a [u8]),
    /// The name is retired.
    Retire(&'a Name),
    /// All names of its origin up to this one are retired.
    RetireTo(&'a Name),
}

/// B1: the stream is bad. What stands next is no message, whatever follows.
#[derive(Clone, Copy, Debug, PartialEq, Eq, Error)]
#[error("the stream is bad")]
pub struct BadStream;

/// Why an inbox does not take a piece. What it holds is then as it was.
#[derive(Clone, Copy, Debug, PartialEq, Eq, Error)]
pub enum PushFault {
    /// B1: the stream was found bad.
    #[error("the stream is bad")]
    Bad,
    /// A growth was refused.
    #[error("out of memory")]
    NoMemory,
}
