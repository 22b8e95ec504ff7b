//! The rows of the table that references tell, which stay where they lie.
ghost use Rattle.std.specs.Prelude.{◌≡◌, [], IfOk, map, slice_index_or};
ghost use Rattle.wvalues.specs.Meaning.{meaning};
ghost use Rattle.wrows.specs.Columns.{not_too_many};
ghost use Rattle.wrows.specs.Laid.{rows_seen};
ghost use Rattle.wrows.specs.Outcomes.{Gives};
ghost use Rattle.wset.specs.Running.{live_rows};
ghost use Rattle.wtable.specs.Referenced.{referenced_row};

use std::alloc::{AllocError, Global};
use wrows::{AnswerFault, not_too_many};
use wruns::RowRef;
use wsegment::SegmentRows;
use wset::SegmentSet;
use wvalues::Value;

// The rows of each live segment, by name, lent side by side, so that a look at one need not go by the segment.
fn live_segments(alloc: Global, set: &SegmentSet) -> Result<Vec<SegmentRows<'_>>, AllocError>
    ensures { IfOk result (λ segments. segments.items ≡ live_rows set.now) }
{
    let mut segments = Vec::new(alloc);
    'live: for (_, kept) in set.lives() {
        let segment = kept.segment()?;
        segments.push(segment.lent_rows())?;
    }
    Ok(segments)
}

// The row that a reference tells, without values where there is no such row.
fn referenced_row<'a>(segments: &[SegmentRows<'a>], reference: &RowRef) -> &'a [Value]
    ensures { map meaning result.now ≡ referenced_row segments.now reference.now }
{
    let segment = reference.segment as usize;
    if segment < segments.len() {
        segments[segment].row(reference.row as usize)
    } else {
        &[]
    }
}

// The rows that references tell.
fn each_referenced<'a>(
    alloc: Global,
    segments: &[SegmentRows<'a>],
    refs: &[RowRef],
) -> Result<Vec<&'a [Value]>, AllocError>
    ensures { IfOk result (λ rows. rows_seen rows.items ≡ map (referenced_row segments.now) refs.now) }
{
    let mut rows = Vec::with_capacity(alloc, refs.len())?;
    for reference in refs {
        rows.push(referenced_row(segments, reference))?;
    }
    Ok(rows)
}

/// The rows of live segments that references tell, in their order. They stay where they lie; one of no row of a live segment
/// tells a row without values. `TooManyRows` where they are more than 2,147,483,647, `NoMemory` where memory is refused, or of a set
/// whose cells are not made (`SegmentSet::make`).
pub fn referenced_rows<'a>(
    alloc: Global,
    set: &'a SegmentSet,
    refs: &[RowRef],
) -> Result<Vec<&'a [Value]>, AnswerFault>
    ensures { Gives (λ rows. rows_seen rows.items) result (not_too_many (map (referenced_row (live_rows set.now)) refs.now)) }
{
    let segments = live_segments(alloc, set)?;
    let rows = each_referenced(alloc, &segments, refs)?;
    not_too_many(rows)
}
