//! A segment's bytes, judged and counted, of which no cell is made.
ghost use Rattle.std.specs.Prelude.{◌≡◌, ◌<◌, ◌≤◌, Ok, Err, IfOk, IfErr, length};
ghost use Rattle.wsegment.specs.Judging.{IsJudged, where_good};
ghost use Rattle.wsegment.specs.Outcome.{Fails, Gives};
ghost use Rattle.wsegment.specs.Rows.{rows_of};

use crate::fault::SegmentFault;
use crate::header::{header_columns, is_complete};
use crate::judging::judge_rows;
use crate::records::{reader_of, take_header};
use crate::schema::Schema;
use std::alloc::{AllocError, Global};
use std::marker::Model;

/// The most bytes of a segment.
pub const LONGEST_SEGMENT: usize = 67_108_864;

/// Bytes that are a segment by a declaration, with the number of their rows. In a contract it is the segment's content, though no
/// cell of it is made.
#[derive(Debug, Drop)]
pub struct Judged {
    schema: Schema,
    bytes: Vec<u8>,
    rows: usize,
}

impl Model for Judged {
    ghost use Rattle.wsegment.specs.Rows.{Content};

    ghost Value = { Content };

    ghost use Rattle.wsegment.specs.KeptJudged.{IsKept, content_of};

    ghost view = { content_of };

    ghost invariant = { IsKept };
}

// The number of rows of these bytes, or their first fault.
fn count_rows(alloc: Global, schema: &Schema, bytes: &[u8]) -> Result<usize, SegmentFault>
    ensures rows { IfOk result (λ count. IsJudged schema.now bytes.now count) }
    ensures few { IfOk result (λ count. count ≤ 1000000) }
    ensures refused { IfErr result (λ fault. Fails fault (rows_of schema.now bytes.now)) }
    ensures long { 67108864 < length bytes.now → result ≡ Err SegmentFault.TooLong }
{
    if bytes.len() > LONGEST_SEGMENT {
        return Err(SegmentFault::TooLong);
    }
    let mut reader = reader_of(alloc, bytes)?;
    let first = take_header(alloc, &mut reader)?;
    let columns = schema.columns();
    let header = header_columns(alloc, columns, &first)?;
    if !is_complete(columns, &header) {
        return Err(SegmentFault::MissingColumn);
    }
    let count = judge_rows(alloc, &mut reader, &header)?;
    Ok(count)
}

impl Judged {
    /// These bytes, if they are a segment, or their first fault: the one that `Segment::read` finds. They are read once, and no cell is
    /// made.
    pub fn read(alloc: Global, schema: &Schema, bytes: &[u8]) -> Result<Judged, SegmentFault>
        ensures rows { Gives (λ judged. judged.rows) result (rows_of schema.now bytes.now) }
        ensures bytes { IfOk result (λ judged. judged.bytes ≡ bytes.now) }
        ensures columns { IfOk result (λ judged. judged.columns ≡ length schema.now.columns) }
        ensures long { 67108864 < length bytes.now → result ≡ Err SegmentFault.TooLong }
    {
        let rows = count_rows(alloc, schema, bytes)?;
        let judged = Judged::kept(alloc, schema, bytes, rows)?;
        Ok(judged)
    }

    /// Bytes that have so many rows.
    pub(crate) fn kept(
        alloc: Global,
        schema: &Schema,
        bytes: &[u8],
        rows: usize,
    ) -> Result<Judged, AllocError>
        requires judged { IsJudged schema.now bytes.now rows }
        requires few { rows ≤ 1000000 }
        ensures { IfOk result (λ judged. judged ≡ record {
          bytes = bytes.now;
          columns = length schema.now.columns;
          rows =
              where_good (rows_of schema.now bytes.now);
        }) }
    {
        let bytes = Vec::from_slice(alloc, bytes)?;
        let schema = schema.copy()?;
        Ok(Judged {
            schema,
            bytes,
            rows,
        })
    }

    /// A declaration by which the bytes are these rows, with as many columns as the segment has. It is the one that they were judged
    /// by, which no clause says.
    pub fn schema(&self) -> &Schema
        ensures rows { rows_of result.now self.now.bytes ≡ Ok self.now.rows }
        ensures columns { self.now.columns ≡ length result.now.columns }
    {
        &self.schema
    }

    /// How many rows they have, at most 1,000,000.
    pub fn rows(&self) -> usize
        ensures count { result ≡ length self.now.rows }
        ensures few { result ≤ 1000000 }
    {
        self.rows
    }

    /// The bytes.
    pub fn bytes(&self) -> &[u8]
        ensures { result.now ≡ self.now.bytes }
    {
        self.bytes.as_slice()
    }
}
