//! How far rows were looked at before they are compared.
//!
//! Rows in order lie far apart, and a text lies apart from its row. A loop that only looks at texts has many of them on their way
//! from memory at once, and the comparison behind it finds them near. Which rows are looked at is a matter of speed alone.

/// How many rows are looked at at once, so few that a cache holds their texts until they are compared.
pub(crate) const BATCH: usize = 256;

/// How many rows agree at most where most rows are compared. Of more that agree few are.
pub(crate) const FEW: usize = 16;

/// How far rows were looked at, and where the last of their groups began.
#[derive(Default, Drop)]
pub(crate) struct Ahead {
    pub(crate) seen: usize,
    pub(crate) last: usize,
}
