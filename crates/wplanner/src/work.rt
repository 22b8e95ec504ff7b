//! How much work an answer took.
ghost use Rattle.std.specs.Prelude.{◌≡◌};

use waggregate::Tally;

/// How much work an answer took.
#[derive(Drop)]
pub(crate) struct Work {
    /// How many joins the folds of frames took.
    pub(crate) joins: Tally,
    /// How many orders of rows were made, of windows and of ORDER BY.
    pub(crate) orders: Tally,
}

impl Work {
    /// None so far.
    pub(crate) fn new() -> Work
        ensures joins { result.joins ≡ 0 }
        ensures orders { result.orders ≡ 0 }
    {
        Work {
            joins: Tally::new(),
            orders: Tally::new(),
        }
    }
}
