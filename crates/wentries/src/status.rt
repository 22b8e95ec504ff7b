//! How a name stands, and what a list says of it.

use wvalues::Name;

/// How a name stands.
#[derive(Clone, Copy, Debug, PartialEq, Eq)]
pub enum Status {
    /// Nothing is known of it.
    Unknown,
    /// One content of it is known.
    Live,
    /// Two different contents of it are known.
    Disputed,
    /// A retirement of it is known.
    Retired,
    /// In a list alone: it is retired, and so are all names of its origin with a smaller number.
    Floor,
}

/// A name that is not unknown, how it stands, and the number of its rows: none where it is not live.
#[derive(Clone, Copy, PartialEq, Eq)]
pub struct Listed {
    pub name: Name,
    pub status: Status,
    pub rows: usize,
}
