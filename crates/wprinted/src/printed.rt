//! What is printed of some rows.
ghost use Rattle.std.specs.Prelude.{◌≡◌};
ghost use Rattle.wvalues.specs.Meaning.{Null, meaning};

use wvalues::Value;

/// Rows of which the values at some places are printed. `null` is lent for what is not there.
#[derive(Drop)]
pub(crate) struct Printed<'a, R> {
    pub(crate) rows: &'a R,
    pub(crate) null: &'a Value,
    pub(crate) places: &'a [usize],
    ghost missing: { meaning null.now ≡ Null },
}
