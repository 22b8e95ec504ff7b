//! A segment: rows of the table with the bytes that they were read from.
ghost use Rattle.std.specs.Prelude.{◌≡◌, ◌+◌, ◌*◌, ◌<◌, ◌≤◌, [], Ok, Err, IfOk, drop, length, map, slice_index_or, take};
ghost use Rattle.wvalues.specs.Meaning.{meaning};
ghost use Rattle.wsegment.specs.Kept.{rows_kept};
ghost use Rattle.wsegment.specs.Outcome.{Gives};
ghost use Rattle.wsegment.specs.Rows.{cell, rows_of};

use crate::fault::SegmentFault;
use crate::header::{column_fields, header_columns};
use crate::judged::{Judged, LONGEST_SEGMENT};
use crate::records::{reader_of, take_header};
use crate::rows::{Rows, read_rows};
use crate::schema::Schema;
use crate::segment_rows::{SegmentRows, part};
use std::alloc::{AllocError, Global};
use std::marker::Model;
use std::rc::Rc;
use wvalues::Value;

/// The typed rows of some bytes, beside these bytes as they were judged, which it may share. Rows and columns are counted from 0
/// here, and columns stand in the order of the table.
#[derive(Debug, Drop)]
pub struct Segment {
    judged: Rc<Judged>,
    rows: Rows,
}

impl Model for Segment {
    ghost use Rattle.wsegment.specs.Rows.{Content};

    ghost Value = { Content };

    ghost use Rattle.wsegment.specs.Kept.{IsKept, content_of};

    ghost view = { content_of };

    ghost invariant = { IsKept };
}

// The typed rows of these bytes, or their first fault.
fn read_cells(alloc: Global, schema: &Schema, bytes: &[u8]) -> Result<Rows, SegmentFault>
    ensures rows { Gives rows_kept result (rows_of schema.now bytes.now) }
    ensures filled { IfOk result (λ rows. length rows.cells.items ≡ rows.count * rows.width) }
    ensures columns { IfOk result (λ rows. rows.width ≡ length schema.now.columns) }
    ensures few { IfOk result (λ rows. rows.count ≤ 1000000) }
    ensures long { 67108864 < length bytes.now → result ≡ Err SegmentFault.TooLong }
{
    if bytes.len() > LONGEST_SEGMENT {
        return Err(SegmentFault::TooLong);
    }
    let mut reader = reader_of(alloc, bytes)?;
    let first = take_header(alloc, &mut reader)?;
    let columns = schema.columns();
    let header = header_columns(alloc, columns, &first)?;
    let fields = column_fields(alloc, columns, &header)?;
    let rows = read_rows(alloc, bytes.len(), &mut reader, &header, &fields)?;
    Ok(rows)
}

impl Segment {
    /// The typed rows of these bytes, or their first fault. Their number is judged first, without memory, then the header from left
    /// to right, then whether a column is missing, then row by row whether there are too many, the row's length, and
    /// its fields from left to right.
    pub fn read(alloc: Global, schema: &Schema, bytes: &[u8]) -> Result<Segment, SegmentFault>
        ensures rows { Gives (λ segment. segment.rows) result (rows_of schema.now bytes.now) }
        ensures bytes { IfOk result (λ segment. segment.bytes ≡ bytes.now) }
        ensures columns { IfOk result (λ segment. segment.columns ≡ length schema.now.columns) }
        ensures long { 67108864 < length bytes.now → result ≡ Err SegmentFault.TooLong }
    {
        let rows = read_cells(alloc, schema, bytes)?;
        let judged = Judged::kept(alloc, schema, bytes, rows.count)?;
        let Ok(judged) = Rc::new(alloc, judged) else {
            return Err(SegmentFault::NoMemory);
        };
        Ok(Segment { judged, rows })
    }

    /// The typed rows of bytes that were judged, which it shares. They have no fault: only memory may run out.
    pub fn of(alloc: Global, judged: &Rc<Judged>) -> Result<Segment, AllocError>
        ensures { IfOk result (λ segment. segment ≡ judged.now.value) }
    {
        let Ok(rows) = read_cells(alloc, judged.schema(), judged.bytes()) else {
            return Err(AllocError);
        };
        let judged = judged.clone()?;
        Ok(Segment { judged, rows })
    }

    /// The bytes that it was read from, as they were judged.
    pub fn judged(&self) -> &Rc<Judged>
        ensures { result.now.value ≡ self.now }
    {
        &self.judged
    }

    /// How many rows it has, at most 1,000,000.
    #[tactic(auto, using(crate::proofs::KeptFacts::rows_counted))]
    pub fn rows(&self) -> usize
        ensures count { result ≡ length self.now.rows }
        ensures few { result ≤ 1000000 }
    {
        self.rows.count
    }

    /// The bytes that it was read from.
    pub fn bytes(&self) -> &[u8]
        ensures { result.now ≡ self.now.bytes }
    {
        self.judged.bytes()
    }

    /// The values of a row, counted from 0, in the order of the table's columns.
    pub fn row(&self, row: usize) -> &[Value]
        requires { row < length self.now.rows }
        ensures values { map meaning result.now ≡ slice_index_or self.now.rows row [] }
        ensures width { length result.now ≡ self.now.columns }
    {
        part(&self.rows.cells, row, self.rows.width)
    }

    /// All rows, lent, for whoever looks many of them up.
    pub fn lent_rows(&self) -> SegmentRows<'_>
        ensures { result ≡ self.now.rows }
    {
        SegmentRows::new(&self.rows)
    }

    /// The value of a row and a column, both counted from 0.
    pub fn value(&self, row: usize, col: usize) -> &Value
        requires row { row < length self.now.rows }
        requires col { col < self.now.columns }
        ensures { meaning result.now ≡ cell self.now.rows row col }
    {
        let values = self.row(row);
        &values[col]
    }
}
