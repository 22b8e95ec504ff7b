//! Runs of several segments as one list.
ghost use Rattle.std.specs.Prelude.{◌≡◌, ⊤, All, IfOk, map};
ghost use Rattle.std.specs.Ordering.{is_lt};
ghost use Rattle.wvalues.specs.Meaning.{meaning, Null};
ghost use Rattle.wvalues.specs.Order.{keys_cmp};
ghost use Rattle.wsegment.specs.Rows.{cell};
ghost use Rattle.wruns.specs.Refs.{number_cmp, ref_cmp, ref_keys, refs_by, rows_at};
ghost use Rattle.wruns.specs.Merging.{comes_first, has_keys, lists_from, rows_seen};

use crate::refs::{RowRef, RunRefs};
use crate::segment_cells::cell_at;
use crate::segment_run::SegmentRun;
use itertools::{Itertools, MergePredicate};
use std::alloc::{AllocError, Global};
use std::cmp::Ordering;
use wvalues::{SortKey, Value, compare};

/// The value of a row and a column, null where there is none.
pub(crate) fn value_of<'a>(
    sources: &'a [SegmentRun<'a>],
    row: &RowRef,
    col: usize,
    null: &'a Value,
) -> &'a Value
    requires { meaning null.now ≡ Null }
    ensures { meaning result.now ≡ cell (rows_at (rows_seen sources.now) row.now.segment) row.now.row col }
{
    let segment = row.segment as usize;
    if segment < sources.len() {
        cell_at(sources[segment].segment(), row.row as usize, col, null)
    } else {
        null
    }
}

// The order of two rows by number.
fn compare_numbers(a: &RowRef, b: &RowRef) -> Ordering
    ensures { result ≡ number_cmp a.now b.now }
{
    a.segment.cmp(&b.segment).then(a.row.cmp(&b.row))
}

// Rows by keys and then by number, where their segments lie.
#[derive(Clone, Copy)]
struct ByKeys<'a> {
    keys: &'a [SortKey],
    sources: &'a [SegmentRun<'a>],
    null: &'a Value,
    ghost missing: { meaning null.now ≡ Null },
}

impl<'a> ByKeys<'a> {
    // The order of two rows by the keys.
    fn compare_keys(&self, a: &RowRef, b: &RowRef) -> Ordering
        ensures { result ≡ keys_cmp self.now.keys.now (ref_keys self.now.keys.now (rows_seen self.now.sources.now) a.now)
            (ref_keys self.now.keys.now (rows_seen self.now.sources.now) b.now) }
    {
        for key in self.keys {
            let x = value_of(self.sources, a, key.col, self.null);
            let y = value_of(self.sources, b, key.col, self.null);
            let order = compare(x, y, key);
            if order != Ordering::Equal {
                return order;
            }
        }
        Ordering::Equal
    }

    // The order of two rows by the keys, and then by number.
    fn compare(&self, a: &RowRef, b: &RowRef) -> Ordering
        ensures { result ≡ ref_cmp self.now.keys.now (rows_seen self.now.sources.now) a.now b.now }
    {
        self.compare_keys(a, b).then(compare_numbers(a, b))
    }
}

impl<'a> MergePredicate<RowRef> for ByKeys<'a> {
    ghost can_test = { λ _. ⊤ };

    ghost computes = { λ by first. first ≡ comes_first by.keys.now (rows_seen by.sources.now) };

    fn is_first(&mut self, left: &RowRef, right: &RowRef) -> bool {
        self.compare(left, right).is_lt()
    }
}

/// A number of a segment or of a group in 32 bits. More of them than have one are too many to be kept.
pub(crate) fn short_number(number: usize) -> Result<u32, AllocError>
    ensures { IfOk result (λ short. short ≡ number) }
{
    match u32::try_from(number) {
        Ok(short) => Ok(short),
        Err(_) => Err(AllocError),
    }
}

// The rows of each run, in its order.
fn lists<'a>(alloc: Global, sources: &'a [SegmentRun<'a>]) -> Result<Vec<RunRefs<'a>>, AllocError>
    ensures { IfOk result (λ lists. lists.items ≡ lists_from 0 sources.now) }
{
    let mut lists = Vec::with_capacity(alloc, sources.len())?;
    for (i, source) in sources.iter().enumerate() {
        let number = short_number(i)?;
        lists.push(RunRefs::new(number, source.run()))?;
    }
    Ok(lists)
}

/// The rows of all segments by keys, then by segment and place, merged row by row from a run of each of them by these keys. Its
/// one error is want of memory.
pub fn merge(
    alloc: Global,
    keys: &[SortKey],
    sources: &[SegmentRun],
) -> Result<Vec<RowRef>, AllocError>
    requires { All (has_keys keys.now) sources.now }
    ensures { IfOk result (λ refs. refs.items ≡ refs_by keys.now (rows_seen sources.now)) }
{
    let lists = lists(alloc, sources)?;
    let by = ByKeys {
        keys,
        sources,
        null: &Value::Null,
    };
    let merged = lists.into_iter().kmerge_by(alloc, by)?;
    let refs = merged.collect(alloc)?;
    Ok(refs)
}
