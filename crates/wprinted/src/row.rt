//! A row that is printed.
ghost use Rattle.std.specs.Prelude.{◌≡◌, map, slice_index_or};
ghost use Rattle.wvalues.specs.Meaning.{Null, meaning};
ghost use Rattle.wcolumns.specs.Columns.{columns_seen, field_seen};
ghost use Rattle.wprinted.specs.Beside.{values_of};

use wcolumns::{Field, LentColumn};
use wvalues::Value;

/// The cells of a row, and behind them what each of some columns has for its number.
#[derive(Clone, Copy)]
pub struct Row<'a> {
    pub cells: &'a [Value],
    pub columns: &'a [LentColumn<'a>],
    pub number: usize,
}

// What the column at a place has for a row, a null where that is nothing.
#[inline(always)]
#[tactic(auto, using(crate::proofs::BesideFacts::behind_is))]
fn field_behind<'a>(
    columns: &'a [LentColumn<'a>],
    null: &'a Value,
    number: usize,
    place: usize,
) -> Field<'a>
    requires { meaning null.now ≡ Null }
    ensures { field_seen result ≡ slice_index_or (map (λ column. slice_index_or column number Null) (columns_seen columns.now)) place Null }
{
    if place < columns.len() {
        columns[place].column.field(null, number)
    } else {
        Field::Value(null)
    }
}

/// What a row has at a place: a value of its own cells, or behind them what the columns have for it. A null where it has no such
/// place.
#[inline(always)]
pub(crate) fn field_at<'a>(row: &'a Row, null: &'a Value, place: usize) -> Field<'a>
    requires { meaning null.now ≡ Null }
    ensures { field_seen result ≡ slice_index_or (values_of row.now) place Null }
{
    if place < row.cells.len() {
        Field::Value(&row.cells[place])
    } else {
        field_behind(row.columns, null, row.number, place - row.cells.len())
    }
}
