//! Rows lent from where they lie.
ghost use Rattle.std.specs.Prelude.{◌≡◌, IfOk};
ghost use Rattle.wrows.specs.Laid.{rows_in, rows_seen};

use crate::cells::Cells;
use std::alloc::{AllocError, Global};
use wsort::slice_of;
use wvalues::Value;

/// Each row as it lies, by number.
pub fn lent_rows(alloc: Global, cells: &Cells) -> Result<Vec<&[Value]>, AllocError>
    ensures { IfOk result (λ rows. rows_seen rows.items ≡ rows_in cells.now) }
{
    let mut rows = Vec::with_capacity(alloc, cells.count)?;
    for row in 0..cells.count {
        rows.push(slice_of(&cells.cells, cells.width, row))?;
    }
    Ok(rows)
}
