//! Copies of values of rows that lie far apart. A loop that reads alone goes ahead of the one that copies, so that the
//! processor has many of them on their way from memory at once.
ghost use Rattle.std.specs.Prelude.{◌≡◌, ◌<◌, ◌≤◌, ◌*◌, ◌++◌, false, IfOk, OnOk, length, map};
ghost use Rattle.std.specs.List.{flat_map, list_any};
ghost use Rattle.wvalues.specs.Meaning.{meaning};
ghost use Rattle.wrows.specs.Columns.{value_at};
ghost use Rattle.wrows.specs.Extended.{extended_row, picked_of};
ghost use Rattle.wrows.specs.Laid.{rows_seen};
ghost use Rattle.wsort.specs.LaidRows.{laid};
ghost use Rattle.wrows.specs.Picked.{is_text, with_columns};

use crate::batches::{batch_end, copy_of, is_text};
use crate::extended::ExtendedRows;
use crate::place_values::{cells_at, push_picked, value_of};
use std::alloc::{AllocError, Global};
use wvalues::Value;

// Whether one of the rows of these numbers has a text at a place. Each is read, whatever was found before.
fn has_text(extended: &ExtendedRows, place: usize, numbers: &[u32]) -> bool
    ensures { result ≡ list_any (λ i. is_text (value_at (extended_row extended.now i) place)) numbers.now }
{
    let mut found = false;
    for number in numbers {
        if is_text(extended.value(*number as usize, place)) {
            found = true;
        }
    }
    found
}

// Whether one of the rows of these numbers has a text at one of some places. All of their values are read.
fn have_texts(extended: &ExtendedRows, places: &[usize], numbers: &[u32]) -> bool
    ensures { result ≡ list_any (λ place. list_any
        (λ i. is_text (value_at (extended_row extended.now i) place)) numbers.now) places.now }
{
    let mut found = false;
    for place in places {
        if has_text(extended, *place, numbers) {
            found = true;
        }
    }
    found
}

// Appends the values at some places of a row that has these cells, of which none is a text.
fn push_without_texts(
    own: &[Value],
    extended: &ExtendedRows,
    places: &[usize],
    row: usize,
    cells: &mut Vec<Value>,
) -> Result<(), AllocError>
    requires { list_any (λ place. is_text (value_at (with_columns (map meaning own.now) (rows_seen extended.now.columns.now) row)
        place)) places.now ≡ false }
    ensures { OnOk result (map meaning cells.new.items ≡ map meaning cells.old.items ++ map
        (value_at (with_columns (map meaning own.now) (rows_seen extended.now.columns.now) row)) places.now) }
{
    for place in places {
        cells.push(copy_of(value_of(own, extended.columns, extended.null, row, *place)))?;
    }
    Ok(())
}

// Appends the values at some places of the rows of these numbers, one row after another. The rows are few: all values are
// read, and then copied, without a look at what they share where there is no text.
fn push_batch(
    extended: &ExtendedRows,
    places: &[usize],
    numbers: &[u32],
    cells: &mut Vec<Value>,
) -> Result<(), AllocError>
    ensures { OnOk result (map meaning cells.new.items ≡ map meaning cells.old.items ++ flat_map
        (picked_of places.now extended.now) numbers.now) }
{
    let some_text = have_texts(extended, places, numbers);
    for number in numbers {
        let row = *number as usize;
        let own = cells_at(extended.rows, row);
        if some_text {
            push_picked(own, extended, places, row, cells)?;
        } else {
            push_without_texts(own, extended, places, row, cells)?;
        }
    }
    Ok(())
}

// Appends the values at some places of the rows of these numbers, one row after another.
fn push_rows(
    extended: &ExtendedRows,
    places: &[usize],
    numbers: &[u32],
    cells: &mut Vec<Value>,
) -> Result<(), AllocError>
    ensures { OnOk result (map meaning cells.new.items ≡ map meaning cells.old.items ++ flat_map
        (picked_of places.now extended.now) numbers.now) }
{
    let mut done = 0;
    while done < numbers.len() {
        let end = batch_end(done, numbers.len());
        push_batch(extended, places, &numbers[done..end], cells)?;
        done = end;
    }
    Ok(())
}

/// The values at some places of the rows of these numbers, laid out one row after another. No other row is read.
pub(crate) fn picked_rows(
    alloc: Global,
    extended: &ExtendedRows,
    places: &[usize],
    numbers: &[u32],
) -> Result<Vec<Value>, AllocError>
    ensures rows { IfOk result (λ cells. laid (length places.now) (length numbers.now) cells.items
        ≡ map (picked_of places.now extended.now) numbers.now) }
    ensures laid { IfOk result (λ cells. length cells.items ≡ length numbers.now * length places.now) }
{
    let mut cells = Vec::with_capacity(alloc, numbers.len().saturating_mul(places.len()))?;
    push_rows(extended, places, numbers, &mut cells)?;
    Ok(cells)
}
