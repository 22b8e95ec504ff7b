//! Rows that are judged and counted, and not kept: no cell is made, and no text is copied.
ghost use Rattle.std.specs.Prelude.{◌≡◌, ◌≤◌, IfOk, true};
ghost use Rattle.std.specs.Str.{IsUtf8};
ghost use Rattle.csv.specs.Records.{fields_of};
ghost use Rattle.wsegment.specs.Cells.{cell_of, row_behind, row_of, rows_from, typed};
ghost use Rattle.wsegment.specs.Header.{all_now, kinds_of};
ghost use Rattle.wsegment.specs.Judging.{counted, verdict};
ghost use Rattle.wsegment.specs.Outcome.{Gives};
ghost use Rattle.wsegment.specs.Progress.{IsReading, records_left};

use crate::cell::integer;
use crate::column::Column;
use crate::fault::SegmentFault;
use crate::field::field_text;
use crate::kind::Kind;
use crate::records::take_record;
use csv::{ByteRecord, Reader};
use std::alloc::Global;

/// The most rows of a segment.
pub(crate) const MAX_ROWS: u32 = 1_000_000;

// Whether a text that is not empty says something, by what its column holds.
fn judge_typed(row: u32, kind: Kind, text: &str) -> Result<(), SegmentFault>
    ensures { result ≡ verdict (typed row kind text.now) }
{
    match kind {
        Kind::Text => Ok(()),
        Kind::Integer => match integer(text) {
            Some(_) => Ok(()),
            None => Err(SegmentFault::NotInteger { row }),
        },
    }
}

// Whether a field says something.
fn judge_field(row: u32, kind: Kind, field: &[u8], is_ascii: bool) -> Result<(), SegmentFault>
    requires { is_ascii ≡ true → IsUtf8 field.now }
    ensures { result ≡ verdict (cell_of row kind field.now) }
{
    let Some(text) = field_text(field, is_ascii) else {
        return Err(SegmentFault::RowNotUtf8 { row });
    };
    if text.is_empty() {
        return Ok(());
    }
    judge_typed(row, kind, text)
}

// Whether each field of a row says something, in a row of the right length.
fn judge_fields(number: u32, header: &[&Column], row: &ByteRecord) -> Result<(), SegmentFault>
    ensures { result ≡ verdict (row_of number (kinds_of (all_now header.now)) (fields_of row.now)) }
{
    if row.len() != header.len() {
        return Err(SegmentFault::RowLength { row: number });
    }
    let is_ascii = row.as_slice().is_ascii();
    for (i, column) in header.iter().enumerate() {
        let Some(field) = row.get(i) else {
            unreachable!()
        };
        judge_field(number, column.kind(), field, is_ascii)?;
    }
    Ok(())
}

// Whether the row behind so many is good: it is not one too many, and has no fault of its own.
fn judge_row(count: u32, header: &[&Column], row: &ByteRecord) -> Result<(), SegmentFault>
    requires { count ≤ 1000000 }
    ensures { result ≡ verdict (row_behind count (kinds_of (all_now header.now)) (fields_of row.now)) }
{
    if count == MAX_ROWS {
        return Err(SegmentFault::TooManyRows);
    }
    judge_fields(count + 1, header, row)
}

/// How many rows are left, each of them good, or the first fault. One record is filled over and over.
pub(crate) fn judge_rows(
    alloc: Global,
    reader: &mut Reader<&[u8]>,
    header: &[&Column],
) -> Result<usize, SegmentFault>
    requires reading { IsReading reader.old }
    ensures few { IfOk result (λ count. count ≤ 1000000) }
    ensures gives { Gives (λ count. count) result (counted (rows_from (kinds_of (all_now header.now)) 1 (records_left reader.old))) }
{
    let mut row = ByteRecord::new(alloc);
    let mut count = 0;
    while take_record(reader, &mut row)? {
        judge_row(count, header, &row)?;
        count += 1;
    }
    Ok(count as usize)
}
