//! The rows of several segments in order, from a run of each of them.
ghost use Rattle.std.specs.Prelude.{◌≡◌, ◌<◌, ◌^◌, All, IfOk, length};
ghost use Rattle.wvalues.specs.Meaning.{meaning, Null};
ghost use Rattle.wruns.specs.Heads.{heads_from};
ghost use Rattle.wruns.specs.Lists.{run_refs};
ghost use Rattle.wruns.specs.Merging.{has_keys, rows_seen};
ghost use Rattle.wruns.specs.Refs.{refs_by};

use crate::heads::{Head, HeadRows, heads, rows_in};
use crate::key_columns::order_of;
use crate::merging::merge;
use crate::refs::RowRef;
use crate::run::Run;
use crate::segment_run::SegmentRun;
use std::alloc::{AllocError, Global};
use wvalues::{SortKey, Value};

/// The most groups that are dealt by codes.
const MOST_CODED: usize = u32::MAX as usize;

// The rows of one run, which stand in order.
fn rows_alone(alloc: Global, run: &Run) -> Result<Vec<RowRef>, AllocError>
    ensures { IfOk result (λ refs. refs.items ≡ run_refs 0 run.now) }
{
    let mut refs = Vec::with_capacity(alloc, run.rows().len())?;
    for row in run.rows() {
        refs.push(RowRef {
            segment: 0,
            row: *row,
        })?;
    }
    Ok(refs)
}

// The rows of all runs by keys, then by segment and place: their groups are sorted by the keys of their first rows.
fn ordered_by_heads<'a>(
    alloc: Global,
    keys: &[SortKey],
    sources: &'a [SegmentRun<'a>],
    heads: &'a [Head],
) -> Result<Vec<RowRef>, AllocError>
    requires keys { All (has_keys keys.now) sources.now }
    requires heads { heads.now ≡ heads_from 0 sources.now }
    requires few { length heads.now < 2 ^ 32 }
    ensures { IfOk result (λ refs. refs.items ≡ refs_by keys.now (rows_seen sources.now)) }
{
    let table = HeadRows {
        sources: &*sources,
        heads: &*heads,
        null: &Value::Null,
    };
    let order = order_of(alloc, &table, keys)?;
    let refs = rows_in(alloc, sources, heads, &order)?;
    Ok(refs)
}

/// The rows of all segments by keys, then by segment and place, from a run of each of them by these keys. It is the list that
/// [`merge`] gives, told faster: rows that share their keys are dealt as one, by codes. Its one error is want of memory.
pub fn ordered(
    alloc: Global,
    keys: &[SortKey],
    sources: &[SegmentRun],
) -> Result<Vec<RowRef>, AllocError>
    requires { All (has_keys keys.now) sources.now }
    ensures { IfOk result (λ refs. refs.items ≡ refs_by keys.now (rows_seen sources.now)) }
{
    if sources.len() == 1 {
        return rows_alone(alloc, sources[0].run());
    }
    let heads = heads(alloc, sources)?;
    if heads.len() > MOST_CODED {
        merge(alloc, keys, sources)
    } else {
        ordered_by_heads(alloc, keys, sources, &heads)
    }
}
