//! The first rows of the table as they stand: where no order of them is asked for, no row behind those that are is looked at.
ghost use Rattle.std.specs.Prelude.{◌≡◌, ◌+◌, ◌-◌, ◌<◌, ◌^◌, ◌==◌, ◌++◌, if◌then◌else◌, IfOk, OnOk, length};
ghost use Rattle.std.specs.Prelude.{min, take};
ghost use Rattle.wrows.specs.Laid.{rows_seen};
ghost use Rattle.wrows.specs.Outcomes.{Gives};
ghost use Rattle.wtable.specs.Front.{front_count, standing_of};
ghost use Rattle.wtable.specs.Tables.{rows_of_set};

use crate::counting::kept_count;
use crate::orders::asked_of;
use std::alloc::{AllocError, Global};
use wplan::Selection;
use wrows::{AnswerFault, asked_for};
use wset::{Kept, SegmentSet};
use wvalues::Value;

// The lesser of two counts.
fn at_most(most: usize, count: usize) -> usize
    ensures { result ≡ min most count }
{
    if count < most { count } else { most }
}

// Appends the first rows of a segment, until so many are held. They stay where they lie.
fn push_front<'a>(
    rows: &mut Vec<&'a [Value]>,
    kept: &'a Kept,
    most: usize,
) -> Result<(), AllocError>
    ensures { OnOk result (rows_seen rows.new.items ≡ rows_seen rows.old.items
        ++ take (most - length rows.old.items) kept.now.content.rows) }
{
    let segment = kept.segment()?;
    let left = most.saturating_sub(rows.len());
    let count = at_most(left, segment.rows());
    for row in 0..count {
        rows.push(segment.row(row))?;
    }
    Ok(())
}

/// The first rows of all live segments, by name and then by place, so many at most. They stay where they lie. No segment behind the last
/// of them is looked at.
pub(crate) fn front_rows<'a>(
    alloc: Global,
    set: &'a SegmentSet,
    most: usize,
) -> Result<Vec<&'a [Value]>, AllocError>
    ensures { IfOk result (λ rows. rows_seen rows.items ≡ take most (rows_of_set set.now)) }
{
    let mut rows = Vec::with_capacity(alloc, most)?;
    'segments: for (_, segment) in set.lives() {
        if rows.len() >= most {
            return Ok(rows);
        }
        push_front(&mut rows, segment, most)?;
    }
    Ok(rows)
}

// The place behind the last of so many rows from a place on, 0 where there are none.
fn end_of(from: usize, count: usize) -> usize
    requires { from + count < 2 ^ 64 }
    ensures { result ≡ (if count == 0 then 0 else from + count) }
{
    if count == 0 { 0 } else { from + count }
}

// How many of the first of so many rows are needed: those that OFFSET leaves out and those that LIMIT asks for, none where it asks
// for none.
fn needed_of(select: &Selection, total: usize) -> usize
    ensures { result ≡ front_count select.now.offset select.now.limit total }
{
    let (from, count) = asked_for(asked_of(select), total);
    end_of(from, count)
}

/// The first rows of the set's live segments, by name and then by place, up to the last that OFFSET and LIMIT of a SELECT ask for; none
/// where they ask for none. They stay where they lie, and no row behind them is looked at. Whatever else the SELECT says is not looked
/// at either.
///
/// `TooManyRows` where the segments have more than 2,147,483,647 rows. `NoMemory` where memory is refused, or where the cells of a segment
/// are not made (`SegmentSet::make`) of which a row is needed.
pub fn standing_rows<'a>(
    alloc: Global,
    select: &Selection,
    set: &'a SegmentSet,
) -> Result<Vec<&'a [Value]>, AnswerFault>
    ensures { Gives (λ rows. rows_seen rows.items) result
        (standing_of select.now.offset select.now.limit (rows_of_set set.now)) }
{
    let total = kept_count(set)?;
    let needed = needed_of(select, total);
    let rows = front_rows(alloc, set, needed)?;
    Ok(rows)
}
