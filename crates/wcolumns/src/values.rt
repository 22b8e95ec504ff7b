//! The values of an expression on rows: those of a plain column are read where they lie.
ghost use Rattle.std.specs.Prelude.{◌≡◌, map, slice_index_or};
ghost use Rattle.wvalues.specs.Meaning.{Null, meaning};
ghost use Rattle.wcolumns.specs.Columns.{placed, values_seen};

use std::rc::Rc;
use wvalues::Value;

/// The values of an expression on rows, by number.
#[derive(Drop)]
pub enum ColumnValues<'a> {
    /// What it was evaluated to on each row, which several columns may share.
    Evaluated(Rc<Vec<Value>>),
    /// A plain column: the values at a place of the rows.
    Plain {
        rows: &'a [&'a [Value]],
        place: usize,
    },
}

/// The value at a place of a row, lent, and this null behind its width.
#[inline(always)]
pub fn value_or_null<'a>(row: &'a [Value], null: &'a Value, place: usize) -> &'a Value
    requires { meaning null.now ≡ Null }
    ensures { meaning result.now ≡ slice_index_or (map meaning row.now) place Null }
{
    if place < row.len() { &row[place] } else { null }
}

// The value at a place of a row, null where there is no such row or place.
#[inline(always)]
fn value_in_row<'a>(rows: &'a [&'a [Value]], null: &'a Value, place: usize, row: usize) -> &'a Value
    requires { meaning null.now ≡ Null }
    ensures { meaning result.now ≡ slice_index_or (placed place rows.now) row Null }
{
    if row < rows.len() {
        value_or_null(rows[row], null, place)
    } else {
        null
    }
}

/// The value of a row, lent from where it lies, and this null where there is no such row.
#[inline(always)]
pub fn value_of_row<'b>(values: &'b ColumnValues<'_>, null: &'b Value, row: usize) -> &'b Value
    requires { meaning null.now ≡ Null }
    ensures { meaning result.now ≡ slice_index_or (values_seen values.now) row Null }
{
    match values {
        ColumnValues::Evaluated(values) => value_or_null(values, null, row),
        ColumnValues::Plain { rows, place } => value_in_row(rows, null, *place, row),
    }
}
