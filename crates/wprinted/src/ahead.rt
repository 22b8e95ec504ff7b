//! Rows that are looked at before they are printed.
ghost use Rattle.std.specs.Prelude.{◌≡◌, ◌<◌, ◌≤◌, length};

use crate::batch::{BATCH, Batch};
use crate::printed::Printed;
use crate::row::{Row, field_at};
use crate::rows::{Layout, Rows};
use wcolumns::{Column, Field, OtherRows};
use wvalues::Value;

/// How many rows are looked at before they are printed, so few that a cache holds their texts until then: some whole batches.
const AHEAD: usize = 8 * BATCH;

// The bytes that a field's text takes, but for most of its quotes.
fn room_for(field: Field<'_>) -> usize {
    let Field::Value(value) = field else {
        return 0;
    };
    let bytes = value.text().as_bytes();
    let quote = bytes.first() == Some(&b'"');
    bytes.len().saturating_add(quote as usize)
}

// The bytes that the texts of some rows at a place take, but for most of their quotes.
fn room_at<R: Rows>(printed: &Printed<'_, R>, place: usize, batch: Batch) -> usize
    requires { batch.end ≤ length (R.rows printed.now.rows.now) }
{
    let mut room: usize = 0;
    for next in batch.from..batch.end {
        room = room.saturating_add(room_for(field_at(
            &printed.rows.row(next),
            printed.null,
            place,
        )));
    }
    room
}

// Whether the values of some rows at a place seem to be numbers, by the first of them.
fn are_numbers<R: Rows>(printed: &Printed<'_, R>, place: usize, from: usize) -> bool
    requires { from < length (R.rows printed.now.rows.now) }
{
    matches!(
        field_at(&printed.rows.row(from), printed.null, place),
        Field::Count(_) | Field::Value(Value::Int(_))
    )
}

// Whether one of some rows has a text at a place. Each is read, whatever was found before.
fn hold_text<R: Rows>(printed: &Printed<'_, R>, place: usize, batch: Batch) -> bool
    requires { batch.end ≤ length (R.rows printed.now.rows.now) }
{
    let mut found = false;
    for next in batch.from..batch.end {
        if let Field::Value(Value::Short(_) | Value::Shared(_)) = field_at(
            &printed.rows.row(next),
            printed.null,
            place,
        ) {
            found = true;
        }
    }
    found
}

// The column that a row has at a place behind its cells, if there is one.
fn column_at<'a>(row: &Row<'a>, place: usize) -> Option<&'a Column<'a>> {
    let behind = place.checked_sub(row.cells.len())?;
    let lent = row.columns.get(behind)?;
    Some(lent.column)
}

// What is kept for so many rows from one on, as far as there are some.
fn numbers_from<'a>(others: &'a OtherRows<'_>, from: usize, count: usize) -> &'a [u32] {
    let to = others.numbers.len().min(from.saturating_add(count));
    if from < to {
        &others.numbers[from..to]
    } else {
        &[]
    }
}

// Whether one of some rows seems to have a text at a place, where they lie so, and their cells are near or not. Counts are numbers,
// and what other rows have lies apart even where the rows lie together.
fn seem_texts<R: Rows>(
    printed: &Printed<'_, R>,
    place: usize,
    batch: Batch,
    layout: Layout,
    are_near: bool,
) -> bool
    requires ordered { batch.from < batch.end }
    requires within { batch.end ≤ length (R.rows printed.now.rows.now) }
{
    let first = printed.rows.row(batch.from);
    match (column_at(&first, place), layout) {
        (Some(Column::Counts(_)), _) => false,
        (Some(Column::Others(others)), Layout::Contiguous) => {
            let count = batch.end - batch.from;
            others.hold_text(printed.null, numbers_from(others, first.number, count))
        }
        (_, Layout::Contiguous) if are_near => !are_numbers(printed, place, batch.from),
        (_, _) => hold_text(printed, place, batch),
    }
}

/// Makes room for the texts of a row and of those behind it that are looked at with it, a place of all of them after another.
/// Nothing is done between one value and the next, so that the processor has many of them on their way from memory at once, and
/// finds them near when they are printed. Where rows lie apart, the cells are looked at before the texts that they lead to; where
/// they lie together, this brings all cells of a row near, so that further places of numbers are left out. Values that other rows have lie apart however the
/// rows lie, and are looked at by the numbers that are kept for them; counts are left out. Where the texts find no room, they make
/// it as they are added: this is a matter of speed alone.
pub(crate) fn look_ahead<R: Rows>(bytes: &mut Vec<u8>, printed: &Printed<'_, R>, row: usize)
    requires { row < length (R.rows printed.now.rows.now) }
    ensures { bytes.new.items ≡ bytes.old.items }
{
    if row % AHEAD != 0 {
        return;
    }
    let batch = Batch {
        from: row,
        end: printed.rows.count().min(row.saturating_add(AHEAD)),
    };
    let layout = printed.rows.layout(batch.from, batch.end);
    let cells = printed.rows.row(row).cells.len();
    let mut room: usize = 0;
    let mut are_near = false;
    for place in printed.places {
        if seem_texts(printed, *place, batch, layout, are_near) {
            room = room.saturating_add(room_at(printed, *place, batch));
        }
        are_near |= *place < cells;
    }
    let _ = bytes.reserve(room);
}
