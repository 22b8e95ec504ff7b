//! Columns, however they are kept.
ghost use Rattle.std.specs.Prelude.{◌≡◌, [], map, slice_index_or};
ghost use Rattle.wvalues.specs.Meaning.{Null, meaning};
ghost use Rattle.wcolumns.specs.Columns.{column_seen, counted, field_seen};

use crate::field::Field;
use crate::other_rows::OtherRows;
use crate::values::value_or_null;
use std::alloc::Global;
use wvalues::Value;

/// What each row has, by its number.
#[derive(Drop)]
pub enum Column<'a> {
    /// Values.
    Values(Vec<Value>),
    /// Counts, which are numbers.
    Counts(Vec<u32>),
    /// Values that other rows have.
    Others(OtherRows<'a>),
}

// The count of a row, and this null where there is no such row.
#[inline(always)]
fn count_of<'b>(counts: &[u32], null: &'b Value, row: usize) -> Field<'b>
    requires { meaning null.now ≡ Null }
    ensures { field_seen result ≡ slice_index_or (map counted counts.now) row Null }
{
    if row < counts.len() {
        Field::Count(counts[row])
    } else {
        Field::Value(null)
    }
}

impl<'a> Column<'a> {
    /// A column of no rows.
    pub fn none(alloc: Global) -> Column<'a>
        ensures { column_seen result ≡ [] }
    {
        Column::Values(Vec::new(alloc))
    }

    /// What the row of a number has, and this null where there is no such row.
    #[inline(always)]
    pub fn field<'b>(&'b self, null: &'b Value, row: usize) -> Field<'b>
        requires { meaning null.now ≡ Null }
        ensures { field_seen result ≡ slice_index_or (column_seen self.now) row Null }
    {
        match self {
            Column::Values(values) => Field::Value(value_or_null(values, null, row)),
            Column::Counts(counts) => count_of(counts, null, row),
            Column::Others(others) => Field::Value(others.value(null, row)),
        }
    }
}

/// A column that is lent.
#[derive(Clone, Copy)]
pub struct LentColumn<'a> {
    pub column: &'a Column<'a>,
}
