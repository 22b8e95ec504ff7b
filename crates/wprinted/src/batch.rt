//! The lines of some rows, one after another.
ghost use Rattle.std.specs.Prelude.{◌≡◌, ◌≤◌, ◌++◌, OnOk, drop, length, map};
ghost use Rattle.wvalues.specs.Meaning.{Null, meaning};
ghost use Rattle.wprinted.specs.Beside.{values_of};
ghost use Rattle.wprinted.specs.Printing.{field_text, line_text, lines_text, rows_between, values_at};

use crate::field::push_field;
use crate::line::write_line;
use crate::printed::Printed;
use crate::row::{Row, field_at};
use crate::rows::Rows;
use std::alloc::AllocError;
use wvalues::Value;

/// How many rows' lines are written before they are added.
pub(crate) const BATCH: usize = 32;

/// How many bytes the lines of a batch have room for. Rows in front of the last ones that fit are added value by value.
pub(crate) const LINES: usize = 8192;

/// Rows from one on up to another.
#[derive(Clone, Copy)]
pub(crate) struct Batch {
    pub(crate) from: usize,
    pub(crate) end: usize,
}

/// Lines that are written already: from which row on, and where they begin.
#[derive(Clone, Copy)]
struct Written {
    row: usize,
    start: usize,
}

// Adds the line of a row's values at some places, value by value.
fn push_values(
    bytes: &mut Vec<u8>,
    row: &Row,
    null: &Value,
    places: &[usize],
) -> Result<(), AllocError>
    requires { meaning null.now ≡ Null }
    ensures { OnOk result (bytes.new.items ≡ bytes.old.items ++ line_text (map field_text (values_at places.now (values_of row.now)))) }
{
    for (i, place) in places.iter().enumerate() {
        if i > 0 {
            bytes.push(b',')?;
        }
        push_field(bytes, field_at(&*row, null, *place))?;
    }
    bytes.push(b'\n')?;
    Ok(())
}

// Adds the lines of a batch, value by value.
fn push_each<R: Rows>(
    bytes: &mut Vec<u8>,
    printed: &Printed<'_, R>,
    batch: Batch,
) -> Result<(), AllocError>
    requires ordered { batch.from ≤ batch.end }
    requires within { batch.end ≤ length (R.rows printed.now.rows.now) }
    ensures { OnOk result (bytes.new.items ≡ bytes.old.items
        ++ lines_text (rows_between batch.from batch.end (map (values_at printed.now.places.now) (R.rows printed.now.rows.now)))) }
{
    for row in batch.from..batch.end {
        push_values(bytes, &printed.rows.row(row), printed.null, printed.places)?;
    }
    Ok(())
}

// Writes the lines of a batch, the last one first, up to one that has no room or has a number of more than 64 bits.
fn write_lines<R: Rows>(printed: &Printed<'_, R>, batch: Batch, lines: &mut [u8]) -> Written
    requires ordered { batch.from ≤ batch.end }
    requires within { batch.end ≤ length (R.rows printed.now.rows.now) }
    ensures written { drop result.start lines.new
        ≡ lines_text (rows_between result.row batch.end (map (values_at printed.now.places.now) (R.rows printed.now.rows.now))) }
    ensures start { result.start ≤ length lines.new }
    ensures first { batch.from ≤ result.row }
    ensures last { result.row ≤ batch.end }
{
    let mut row = batch.end;
    let mut start = lines.len();
    while row > batch.from {
        let Some(before) = write_line(
            &printed.rows.row(row - 1),
            printed.null,
            printed.places,
            lines,
            start,
        ) else {
            return Written { row, start };
        };
        row -= 1;
        start = before;
    }
    Written { row, start }
}

/// Adds the lines of a batch. They are written beside first, as many of the last ones as can be, and added as a whole.
pub(crate) fn push_batch<R: Rows>(
    bytes: &mut Vec<u8>,
    printed: &Printed<'_, R>,
    batch: Batch,
    lines: &mut [u8],
) -> Result<(), AllocError>
    requires ordered { batch.from ≤ batch.end }
    requires within { batch.end ≤ length (R.rows printed.now.rows.now) }
    ensures { OnOk result (bytes.new.items ≡ bytes.old.items
        ++ lines_text (rows_between batch.from batch.end (map (values_at printed.now.places.now) (R.rows printed.now.rows.now)))) }
{
    let written = write_lines(printed, batch, lines);
    let before = Batch {
        from: batch.from,
        end: written.row,
    };
    push_each(bytes, printed, before)?;
    bytes.extend_from_slice(&lines[written.start..])?;
    Ok(())
}
