//! Rows that are printed.
ghost use Rattle.std.specs.Prelude.{◌≡◌, ◌<◌, ◌≤◌, [], List, length, map, slice_index_or};
ghost use Rattle.wvalues.specs.Meaning.{Meaning, meaning};
ghost use Rattle.wcolumns.specs.Columns.{columns_seen};
ghost use Rattle.wprinted.specs.Beside.{rows_at, rows_from, seen, values_of};

use crate::row::Row;
use wcolumns::LentColumn;
use wvalues::Value;

/// How rows lie in memory: one behind another, or scattered, in an order of their own. This is a matter of speed alone.
#[derive(Clone, Copy)]
pub enum Layout {
    /// One behind another.
    Contiguous,
    /// Far apart.
    Scattered,
}

/// Rows of values, by number.
pub trait Rows {
    /// The values of each row.
    ghost rows: { Self → List (List Meaning) };

    /// How many rows there are.
    fn count(&self) -> usize
        ensures { result ≡ length (rows self.now) };

    /// A row.
    fn row(&self, number: usize) -> Row<'_>
        requires { number < length (rows self.now) }
        ensures { values_of result ≡ slice_index_or (rows self.now) number [] };

    /// How the rows from one on up to another lie.
    fn layout(&self, from: usize, end: usize) -> Layout
        requires ordered { from < end }
        requires within { end ≤ length (rows self.now) };
}

/// Rows as they stand, with what some columns have for each behind its cells: so many of them, from one on.
#[derive(Clone, Copy)]
pub struct RowsBeside<'a> {
    pub rows: &'a [&'a [Value]],
    pub columns: &'a [LentColumn<'a>],
    pub from: usize,
    pub count: usize,
    pub layout: Layout,
}

impl<'a> Rows for RowsBeside<'a> {
    ghost rows = { λ beside. rows_from (seen beside.rows.now) (columns_seen beside.columns.now) beside.from beside.count };

    fn count(&self) -> usize {
        self.count.min(self.rows.len().saturating_sub(self.from))
    }

    fn row(&self, number: usize) -> Row<'_> {
        let number = self.from + number;
        Row {
            cells: self.rows[number],
            columns: self.columns,
            number,
        }
    }

    fn layout(&self, _from: usize, _end: usize) -> Layout {
        self.layout
    }
}

/// The rows of some numbers, with what some columns have for each behind its cells. A number of no row has no cells of its own.
#[derive(Clone, Copy)]
pub struct PickedRows<'a> {
    pub rows: &'a [&'a [Value]],
    pub columns: &'a [LentColumn<'a>],
    pub numbers: &'a [u32],
}

// The cells of the row of a number, none where there is no such row.
fn cells_at<'a>(rows: &'a [&'a [Value]], number: usize) -> &'a [Value]
    ensures { map meaning result.now ≡ slice_index_or (seen rows.now) number [] }
{
    if number < rows.len() {
        rows[number]
    } else {
        &[]
    }
}

impl<'a> Rows for PickedRows<'a> {
    ghost rows = { λ picked. rows_at (seen picked.rows.now) (columns_seen picked.columns.now) picked.numbers.now };

    fn count(&self) -> usize {
        self.numbers.len()
    }

    fn row(&self, number: usize) -> Row<'_> {
        let number = self.numbers[number] as usize;
        Row {
            cells: cells_at(self.rows, number),
            columns: self.columns,
            number,
        }
    }

    // By the numbers of the first and the last of them.
    fn layout(&self, from: usize, end: usize) -> Layout {
        let first = self.numbers[from] as usize;
        let last = self.numbers[end - 1] as usize;
        if last.wrapping_sub(first) == end - 1 - from {
            Layout::Contiguous
        } else {
            Layout::Scattered
        }
    }
}
