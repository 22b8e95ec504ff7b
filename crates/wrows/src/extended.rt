//! Rows with what columns have for them behind their cells, read where they lie.
ghost use Rattle.std.specs.Prelude.{◌≡◌};
ghost use Rattle.wvalues.specs.Meaning.{Null, meaning};
ghost use Rattle.wrows.specs.Columns.{value_at};
ghost use Rattle.wrows.specs.Laid.{rows_seen};
ghost use Rattle.wrows.specs.Picked.{row_beside};

use crate::place_values::{cells_at, value_of};
use wvalues::Value;

/// Rows with what some columns have for each behind its cells: column `c` of a row is at place `row.len() + c`. `null` is lent for
/// what is not there.
#[derive(Clone, Copy)]
pub(crate) struct ExtendedRows<'a> {
    pub(crate) rows: &'a [&'a [Value]],
    pub(crate) columns: &'a [&'a [Value]],
    pub(crate) null: &'a Value,
    ghost missing: { meaning null.now ≡ Null },
}

impl<'a> ExtendedRows<'a> {
    /// A row's value at a place: of its own cells, or behind them of what the columns have for it. It is null where there is none.
    pub(crate) fn value(&self, row: usize, place: usize) -> &'a Value
        ensures { meaning result.now
            ≡ value_at (row_beside (rows_seen self.now.rows.now) (rows_seen self.now.columns.now) row) place }
    {
        value_of(
            cells_at(self.rows, row),
            self.columns,
            self.null,
            row,
            place,
        )
    }
}
