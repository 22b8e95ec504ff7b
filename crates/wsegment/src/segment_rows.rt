//! The rows of a segment, lent.
ghost use Rattle.std.specs.Prelude.{◌≡◌, ◌+◌, ◌*◌, ◌≤◌, [], drop, length, map, slice_index_or, take};
ghost use Rattle.wvalues.specs.Meaning.{meaning};
ghost use Rattle.wsegment.specs.Kept.{rows_kept};

use crate::rows::Rows;
use std::marker::Model;
use wvalues::Value;

/// The rows of a segment, lent: they stay where they lie. Rows are counted from 0, and columns stand in the order of the table.
/// In a contract it is the list of what the rows say.
#[derive(Debug, Drop)]
pub struct SegmentRows<'a> {
    cells: &'a [Value],
    width: usize,
    count: usize,
}

impl<'a> Model for SegmentRows<'a> {
    ghost use Rattle.std.specs.Prelude.{◌≡◌, ◌*◌, List, length};
    ghost use Rattle.wvalues.specs.Meaning.{Meaning};
    ghost use Rattle.wsegment.specs.Kept.{laid};

    ghost Value = { List (List Meaning) };

    ghost view = { λ r. laid r.width r.count r.cells.now };

    ghost invariant = { λ r. length r.cells.now ≡ r.count * r.width };
}

/// The cells of a row, where each row has so many.
pub(crate) fn part(cells: &[Value], row: usize, width: usize) -> &[Value]
    requires { row * width + width ≤ length cells.now }
    ensures { result.now ≡ take width (drop (row * width) cells.now) }
{
    let start = row * width;
    &cells[start..start + width]
}

impl<'a> SegmentRows<'a> {
    /// Rows as they are kept.
    pub(crate) fn new(rows: &'a Rows) -> SegmentRows<'a>
        requires { length rows.now.cells.items ≡ rows.now.count * rows.now.width }
        ensures { result ≡ rows_kept rows.now }
    {
        SegmentRows {
            cells: &rows.cells,
            width: rows.width,
            count: rows.count,
        }
    }

    /// The values of a row, and no value where there is no such row.
    pub fn row(&self, row: usize) -> &'a [Value]
        ensures { map meaning result.now ≡ slice_index_or self.now row [] }
    {
        if row < self.count {
            part(self.cells, row, self.width)
        } else {
            &[]
        }
    }
}
