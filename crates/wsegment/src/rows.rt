//! The rows below a header, laid out one after another.
ghost use Rattle.std.specs.Prelude.{◌≡◌, ◌==◌, ◌*◌, ◌+◌, ◌<◌, ◌≤◌, All, Ok, OnOk, IfOk, IfErr, length, map, take, drop};
ghost use Rattle.csv.specs.Records.{fields_of};
ghost use Rattle.wvalues.specs.Meaning.{meaning};
ghost use Rattle.wsegment.specs.Cells.{row_behind, row_of, rows_from};
ghost use Rattle.wsegment.specs.Header.{all_now, kinds_of};
ghost use Rattle.wsegment.specs.Kept.{cells_at, in_order_of, rows_kept};
ghost use Rattle.wsegment.specs.Outcome.{Fails, Gives};
ghost use Rattle.wsegment.specs.Progress.{IsReading, records_left};

use crate::cell::cell;
use crate::column::Column;
use crate::fault::SegmentFault;
use crate::judging::MAX_ROWS;
use crate::records::take_record;
use crate::texts::Texts;
use csv::{ByteRecord, Reader};
use std::alloc::{AllocError, Global};
use wvalues::Value;

/// Rows of cells in the order of the table's columns, one row after another.
#[derive(Debug, Drop)]
pub(crate) struct Rows {
    pub(crate) cells: Vec<Value>,
    pub(crate) width: usize,
    pub(crate) count: usize,
}

// Appends the cells of a row in the order of the header, or finds its first fault.
fn push_row(
    alloc: Global,
    number: u32,
    header: &[&Column],
    row: &ByteRecord,
    texts: &mut Texts,
    cells: &mut Vec<Value>,
) -> Result<(), SegmentFault>
    ensures before { OnOk result (take (length cells.old.items) cells.new.items ≡ cells.old.items) }
    ensures added { OnOk result (length cells.new.items ≡ length cells.old.items + length header.now) }
    ensures row { OnOk result (row_of number (kinds_of (all_now header.now)) (fields_of row.now)
        ≡ Ok (map meaning (drop (length cells.old.items) cells.new.items))) }
    ensures fault { IfErr result (λ fault. Fails fault (row_of number (kinds_of (all_now header.now)) (fields_of row.now))) }
{
    if row.len() != header.len() {
        return Err(SegmentFault::RowLength { row: number });
    }
    let is_ascii = row.as_slice().is_ascii();
    for (i, column) in header.iter().enumerate() {
        let Some(field) = row.get(i) else {
            unreachable!()
        };
        let value = cell(alloc, number, column.kind(), field, is_ascii, texts)?;
        cells.push(value)?;
    }
    Ok(())
}

// Appends the cells at these fields.
fn lay_row(fields: &[usize], found: &[Value], cells: &mut Vec<Value>) -> Result<(), AllocError>
    requires { All (λ field. field < length found.now) fields.now }
    ensures before { OnOk result (take (length cells.old.items) cells.new.items ≡ cells.old.items) }
    ensures added { OnOk result (length cells.new.items ≡ length cells.old.items + length fields.now) }
    ensures row { OnOk result (map meaning (drop (length cells.old.items) cells.new.items) ≡ cells_at fields.now (map meaning found.now)) }
{
    for field in fields {
        cells.push(found[*field].duplicate()?)?;
    }
    Ok(())
}

// Whether a segment has as many rows as it may.
fn is_full(count: u32) -> bool
    ensures { result ≡ count == 1000000 }
{
    count == MAX_ROWS
}

// Reads the cells of the row behind so many, or finds its first fault: that it is one too many, or its own.
fn read_row(
    alloc: Global,
    count: u32,
    header: &[&Column],
    row: &ByteRecord,
    texts: &mut Texts,
    cells: &mut Vec<Value>,
) -> Result<(), SegmentFault>
    requires { count ≤ 1000000 }
    ensures added { OnOk result (length cells.new.items ≡ length header.now) }
    ensures row { OnOk result (row_behind count (kinds_of (all_now header.now)) (fields_of row.now) ≡ Ok (map meaning cells.new.items)) }
    ensures fault { IfErr result (λ fault. Fails fault (row_behind count (kinds_of (all_now header.now)) (fields_of row.now))) }
{
    if is_full(count) {
        return Err(SegmentFault::TooManyRows);
    }
    cells.clear();
    push_row(alloc, count + 1, header, row, texts, cells)
}

// So many rows of this width.
fn rows_laid(cells: Vec<Value>, width: usize, count: u32) -> Rows
    ensures cells { result.cells.items ≡ cells.items }
    ensures width { result.width ≡ width }
    ensures count { result.count ≡ count }
{
    Rows {
        cells,
        width,
        count: count as usize,
    }
}

/// Every row that is left of a segment of so many bytes, of which each column's cell stands at its field, or the first fault.
/// One record is filled over and over.
pub(crate) fn read_rows(
    alloc: Global,
    bytes: usize,
    reader: &mut Reader<&[u8]>,
    header: &[&Column],
    fields: &[usize],
) -> Result<Rows, SegmentFault>
    requires reading { IsReading reader.old }
    requires within { All (λ field. field < length header.now) fields.now }
    ensures gives { Gives rows_kept result
        (in_order_of fields.now (rows_from (kinds_of (all_now header.now)) 1 (records_left reader.old))) }
    ensures filled { IfOk result (λ rows. length rows.cells.items ≡ rows.count * rows.width) }
    ensures width { IfOk result (λ rows. rows.width ≡ length fields.now) }
    ensures few { IfOk result (λ rows. rows.count ≤ 1000000) }
{
    let mut cells = Vec::new(alloc);
    let mut found = Vec::new(alloc);
    let mut texts = Texts::new(alloc, bytes)?;
    let mut row = ByteRecord::new(alloc);
    let mut count = 0;
    while take_record(reader, &mut row)? {
        read_row(alloc, count, header, &row, &mut texts, &mut found)?;
        lay_row(fields, &found, &mut cells)?;
        count += 1;
    }
    Ok(rows_laid(cells, fields.len(), count))
}
