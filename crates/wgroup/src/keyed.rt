//! Rows, and the columns of a set by which they are grouped.
ghost use Rattle.std.specs.Prelude.{◌≡◌};
ghost use Rattle.wvalues.specs.Meaning.{Null, meaning};

use wvalues::Value;

/// Rows, and the columns of a set, of which some may be lacking.
#[derive(Clone, Copy)]
pub(crate) struct GroupingRows<'a> {
    pub(crate) columns: &'a [Option<usize>],
    pub(crate) rows: &'a [&'a [Value]],
    /// What a row has behind its end, and in a column that the set lacks.
    pub(crate) null: &'a Value,
    ghost lacking: { meaning null.now ≡ Null },
}
