//! What a set lends of a name.

use wsegment::Judged;

/// What is known of a name that is not unknown, lent from a set.
#[derive(Clone, Copy)]
pub enum Known<'a> {
    /// One content of it is known, and this is what was judged of it.
    Live(&'a Judged),
    /// Two different contents of it are known.
    Disputed,
    /// A retirement of it is known.
    Retired,
    /// It is retired, and so are all names of its origin with a smaller number.
    Floor,
}
