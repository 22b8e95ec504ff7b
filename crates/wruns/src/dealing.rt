//! Runs of several segments that are dealt out of one order of all their rows.
ghost use Rattle.std.specs.Prelude.{◌≡◌, ◌+◌, ◌++◌, ◌<◌, ◌^◌, [], All, IfOk, OnOk, length, map, slice_index_or, take};
ghost use Rattle.wvalues.specs.Meaning.{meaning, Null};
ghost use Rattle.wframe.specs.Places.{places};
ghost use Rattle.wcodes.specs.CodedRows.{key_column, values_seen};
ghost use Rattle.wsort.specs.Dealt.{put_in};
ghost use Rattle.wruns.specs.Dealing.{dealt_places, lists_seen, ref_at, segment_rows, AreRunsOf, IsRunBy};
ghost use Rattle.wruns.specs.Grouping.{TellShared};
ghost use Rattle.wruns.specs.Lists.{ref};
ghost use Rattle.wruns.specs.Refs.{refs, refs_by};
ghost use Rattle.wruns.specs.Runs.{joined, run_of};

use crate::key_columns::{CodedNumbers, Columnar, coded_order_of};
use crate::merging::short_number;
use crate::refs::RowRef;
use crate::run::{KeyedRows, Run, grouped_run};
use crate::segment_cells::cell_at;
use std::alloc::{AllocError, Global};
use std::rc::Rc;
use wsegment::Segment;
use wvalues::{SortKey, Value};

/// The most rows that are put in one order by codes.
const MOST_CODED: usize = u32::MAX as usize;

/// The rows of several segments by keys, then by segment and place, and the run of each segment by these keys, in the order of the
/// segments.
#[derive(Drop)]
pub struct Dealt {
    pub rows: Vec<RowRef>,
    pub runs: Vec<Rc<Run>>,
}

// The rows of several segments by number: one segment after another.
#[derive(Clone, Copy)]
struct JoinedRows<'a> {
    segments: &'a [&'a Segment],
    count: usize,
    null: &'a Value,
    ghost missing: { meaning null.now ≡ Null },
    ghost all: { count ≡ length (joined (segment_rows segments.now)) },
    ghost few: { count < 2 ^ 32 },
}

// Appends a segment's values of a column, null where it has none.
fn push_values<'a>(
    segment: &'a Segment,
    col: usize,
    null: &'a Value,
    column: &mut Vec<&'a Value>,
) -> Result<(), AllocError>
    requires { meaning null.now ≡ Null }
    ensures { OnOk result (values_seen column.new.items ≡ values_seen column.old.items ++ key_column col segment.now.rows) }
{
    for row in 0..segment.rows() {
        column.push(cell_at(segment, row, col, null))?;
    }
    Ok(())
}

impl<'a> Columnar for JoinedRows<'a> {
    ghost rows = { λ t. joined (segment_rows t.segments.now) };

    fn count(&self) -> usize {
        self.count
    }

    fn column(&self, alloc: Global, col: usize) -> Result<Vec<&Value>, AllocError> {
        let mut column = Vec::with_capacity(alloc, self.count)?;
        for segment in self.segments {
            push_values(*segment, col, self.null, &mut column)?;
        }
        Ok(column)
    }
}

// How many rows the segments have. More of them than are put in one order are too many to be kept.
fn row_count(segments: &[&Segment]) -> Result<usize, AllocError>
    ensures all { IfOk result (λ count. count ≡ length (joined (segment_rows segments.now))) }
    ensures few { IfOk result (λ count. count < 2 ^ 32) }
{
    let mut count = 0;
    for segment in segments {
        count += segment.rows();
        if count > MOST_CODED {
            return Err(AllocError);
        }
    }
    Ok(count)
}

// Appends so many rows of the segment of a number.
fn push_refs(segment: u32, count: usize, refs: &mut Vec<RowRef>) -> Result<(), AllocError>
    requires { count < 2 ^ 32 }
    ensures { OnOk result (refs.new.items ≡ refs.old.items ++ map (ref segment) (places count)) }
{
    for row in 0..count {
        refs.push(RowRef {
            segment,
            row: row as u32,
        })?;
    }
    Ok(())
}

// The rows of all segments by number.
fn refs_by_number(alloc: Global, table: &JoinedRows) -> Result<Vec<RowRef>, AllocError>
    ensures { IfOk result (λ all. all.items ≡ refs (segment_rows table.now.segments.now)) }
{
    let mut refs = Vec::with_capacity(alloc, table.count)?;
    for (i, segment) in table.segments.iter().enumerate() {
        let number = short_number(i)?;
        push_refs(number, segment.rows(), &mut refs)?;
    }
    Ok(refs)
}

// The rows of these numbers.
fn picked(alloc: Global, all: &[RowRef], numbers: &[u32]) -> Result<Vec<RowRef>, AllocError>
    requires { All (λ i. i < length all.now) numbers.now }
    ensures { IfOk result (λ rows. rows.items ≡ map (ref_at all.now) numbers.now) }
{
    let mut rows = Vec::with_capacity(alloc, numbers.len())?;
    for number in numbers {
        rows.push(all[*number as usize])?;
    }
    Ok(rows)
}

// The rows of all segments in the order of their numbers.
fn rows_in(alloc: Global, table: &JoinedRows, numbers: Vec<u32>) -> Result<Vec<RowRef>, AllocError>
    requires { All (λ i. i < table.now.count) numbers.items }
    ensures { IfOk result (λ rows. rows.items ≡ map (ref_at (refs (segment_rows table.now.segments.now))) numbers.items) }
{
    let all = refs_by_number(alloc, table)?;
    let rows = picked(alloc, &all, &numbers)?;
    Ok(rows)
}

// Empty lists with room for the rows of each segment.
fn empty_lists(alloc: Global, segments: &[&Segment]) -> Result<Vec<Vec<u32>>, AllocError>
    ensures len { IfOk result (λ lists. length lists.items ≡ length segments.now) }
    ensures empty { IfOk result (λ lists. All (λ list. list ≡ []) (lists_seen lists.items)) }
{
    let mut lists = Vec::with_capacity(alloc, segments.len())?;
    for segment in segments {
        lists.push(Vec::with_capacity(alloc, segment.rows())?)?;
    }
    Ok(lists)
}

// Appends a row to the list of its segment.
fn put(lists: &mut Vec<Vec<u32>>, row: RowRef) -> Result<(), AllocError>
    requires { row.segment < length lists.old.items }
    ensures lists { OnOk result (lists_seen lists.new.items ≡ put_in row.segment row.row (lists_seen lists.old.items)) }
    ensures len { OnOk result (length lists.new.items ≡ length lists.old.items) }
{
    lists[row.segment as usize].push(row.row)?;
    Ok(())
}

// Deals rows in order into empty lists.
fn deal(rows: &[RowRef], lists: &mut Vec<Vec<u32>>) -> Result<(), AllocError>
    requires within { All (λ r. r.segment < length lists.old.items) rows.now }
    requires empty { All (λ list. list ≡ []) (lists_seen lists.old.items) }
    ensures { OnOk result (lists_seen lists.new.items ≡ dealt_places rows.now (length lists.old.items)) }
{
    for row in rows {
        put(lists, *row)?;
    }
    Ok(())
}

// The places of each segment's rows, as they stand in an order of the rows of all.
fn places_dealt(
    alloc: Global,
    segments: &[&Segment],
    rows: &[RowRef],
) -> Result<Vec<Vec<u32>>, AllocError>
    requires { All (λ r. r.segment < length segments.now) rows.now }
    ensures { IfOk result (λ lists. lists_seen lists.items ≡ dealt_places rows.now (length segments.now)) }
{
    let mut lists = empty_lists(alloc, segments)?;
    deal(rows, &mut lists)?;
    Ok(lists)
}

// Segments beside codes by the numbers of their rows: those of which each list has one code share their keys.
#[derive(Clone, Copy)]
struct CodedSegments<'a> {
    segments: &'a [&'a Segment],
    keys: &'a [SortKey],
    codes: &'a [Vec<u32>],
    ghost shared: { TellShared keys.now (joined (segment_rows segments.now)) codes.now },
    ghost few: { length (joined (segment_rows segments.now)) < 2 ^ 32 },
}

// The run of the segment of a number, which begins with this number of a row and has its rows in this order.
fn run_at(
    alloc: Global,
    table: &CodedSegments,
    number: usize,
    start: usize,
    rows: Vec<u32>,
) -> Result<Rc<Run>, AllocError>
    requires number { number < length table.now.segments.now }
    requires start { start ≡ length (joined (take number (segment_rows table.now.segments.now))) }
    requires rows { rows.items ≡ run_of table.now.keys.now (slice_index_or (segment_rows table.now.segments.now) number []) }
    ensures { IfOk result (λ run. IsRunBy table.now.keys.now (slice_index_or (segment_rows table.now.segments.now) number []) run.value) }
{
    let keyed = KeyedRows {
        segment: table.segments[number],
        keys: table.keys,
        codes: table.codes,
        start,
    };
    let run = grouped_run(alloc, &keyed, rows)?;
    let Ok(shared) = Rc::new(alloc, run) else {
        return Err(AllocError);
    };
    Ok(shared)
}

// The run of each segment, of which these are the places in order.
fn runs_of(
    alloc: Global,
    table: &CodedSegments,
    lists: &[Vec<u32>],
) -> Result<Vec<Rc<Run>>, AllocError>
    requires { lists_seen lists.now ≡ map (run_of table.now.keys.now) (segment_rows table.now.segments.now) }
    ensures { IfOk result (λ runs. AreRunsOf table.now.keys.now (segment_rows table.now.segments.now) runs.items) }
{
    let mut runs = Vec::with_capacity(alloc, lists.len())?;
    let mut start = 0;
    for (i, segment) in table.segments.iter().enumerate() {
        let rows = Vec::from_slice(alloc, &lists[i])?;
        runs.push(run_at(alloc, table, i, start, rows)?)?;
        start += segment.rows();
    }
    Ok(runs)
}

// The run of each segment, dealt out of the order of the rows of all.
fn runs_dealt(
    alloc: Global,
    table: &CodedSegments,
    rows: &[RowRef],
) -> Result<Vec<Rc<Run>>, AllocError>
    requires { rows.now ≡ refs_by table.now.keys.now (segment_rows table.now.segments.now) }
    ensures { IfOk result (λ runs. AreRunsOf table.now.keys.now (segment_rows table.now.segments.now) runs.items) }
{
    let lists = places_dealt(alloc, table.segments, rows)?;
    let runs = runs_of(alloc, table, &lists)?;
    Ok(runs)
}

/// The rows of all segments by keys, then by segment and place, and the run of each segment by these keys: all rows are sorted once,
/// as one table, and each run is what that order has of its segment's rows. A column that the rows do not have counts as null.
/// `AllocError` where memory runs out, or where there are 2^32 rows or more.
pub fn deal_runs(
    alloc: Global,
    segments: &[&Segment],
    keys: &[SortKey],
) -> Result<Dealt, AllocError>
    ensures rows { IfOk result (λ dealt. dealt.rows.items ≡ refs_by keys.now (segment_rows segments.now)) }
    ensures runs { IfOk result (λ dealt. AreRunsOf keys.now (segment_rows segments.now) dealt.runs.items) }
{
    let numbered = JoinedRows {
        segments,
        count: row_count(segments)?,
        null: &Value::Null,
    };
    let CodedNumbers { numbers, codes } = coded_order_of(alloc, &numbered, keys)?;
    let rows = rows_in(alloc, &numbered, numbers)?;
    let coded = CodedSegments {
        segments,
        keys,
        codes: &codes,
    };
    let runs = runs_dealt(alloc, &coded, &rows)?;
    Ok(Dealt { rows, runs })
}
