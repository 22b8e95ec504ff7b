//! The groups of several runs, each told by its first row.
ghost use Rattle.std.specs.Prelude.{◌≡◌, ◌++◌, ◌<◌, ◌^◌, All, IfOk, OnOk, length, map};
ghost use Rattle.std.specs.List.{flat_map};
ghost use Rattle.wvalues.specs.Meaning.{meaning, Null};
ghost use Rattle.wframe.specs.Sorting.{first_or};
ghost use Rattle.wruns.specs.Heads.{group_refs, groups_seen, head_at, head_row, heads_from, heads_of, IsHead};
ghost use Rattle.wruns.specs.Merging.{rows_seen};

use crate::key_columns::Columnar;
use crate::merging::{short_number, value_of};
use crate::refs::RowRef;
use crate::run::Run;
use crate::segment_run::SegmentRun;
use std::alloc::{AllocError, Global};
use wvalues::Value;

/// The first row of a group of a run, the group's number in the run, and whether that row is its only one.
#[derive(Clone, Copy, Drop)]
pub(crate) struct Head {
    pub(crate) first: RowRef,
    pub(crate) group: u32,
    pub(crate) is_single: bool,
}

/// The first rows of some groups.
#[derive(Clone, Copy)]
pub(crate) struct HeadRows<'a> {
    pub(crate) sources: &'a [SegmentRun<'a>],
    pub(crate) heads: &'a [Head],
    pub(crate) null: &'a Value,
    ghost missing: { meaning null.now ≡ Null },
    ghost few: { length heads.now < 2 ^ 32 },
}

impl<'a> Columnar for HeadRows<'a> {
    ghost rows = { λ t. map (head_row (rows_seen t.sources.now)) t.heads.now };

    fn count(&self) -> usize {
        self.heads.len()
    }

    fn column(&self, alloc: Global, col: usize) -> Result<Vec<&Value>, AllocError> {
        let mut column = Vec::with_capacity(alloc, self.heads.len())?;
        for head in self.heads {
            column.push(value_of(self.sources, &head.first, col, self.null))?;
        }
        Ok(column)
    }
}

// The first place of a group.
fn first_of(group: &[u32]) -> u32
    ensures { result ≡ first_or 0 group.now }
{
    if group.is_empty() { 0 } else { group[0] }
}

// Appends the heads of a run's groups.
fn push_heads(segment: u32, run: &Run, heads: &mut Vec<Head>) -> Result<(), AllocError>
    ensures { OnOk result (heads.new.items ≡ heads.old.items ++ heads_of segment 0 run.now.groups) }
{
    for number in 0..run.groups() {
        let rows = run.group(number);
        let row = first_of(rows);
        let group = short_number(number)?;
        heads.push(Head {
            first: RowRef { segment, row },
            group,
            is_single: rows.len() == 1,
        })?;
    }
    Ok(())
}

/// The heads of the groups of all runs, one run after another.
pub(crate) fn heads(alloc: Global, sources: &[SegmentRun]) -> Result<Vec<Head>, AllocError>
    ensures { IfOk result (λ heads. heads.items ≡ heads_from 0 sources.now) }
{
    let mut heads = Vec::new(alloc);
    for (i, source) in sources.iter().enumerate() {
        let number = short_number(i)?;
        push_heads(number, source.run(), &mut heads)?;
    }
    Ok(heads)
}

// Appends the rows of a group.
fn push_group(sources: &[SegmentRun], head: Head, refs: &mut Vec<RowRef>) -> Result<(), AllocError>
    requires { IsHead (groups_seen sources.now) head }
    ensures { OnOk result (refs.new.items ≡ refs.old.items ++ group_refs (groups_seen sources.now) head) }
{
    let segment = head.first.segment;
    for row in sources[segment as usize].run().group(head.group as usize) {
        refs.push(RowRef { segment, row: *row })?;
    }
    Ok(())
}

// Appends the rows of a group. A single row is at hand.
fn push_rows(sources: &[SegmentRun], head: Head, refs: &mut Vec<RowRef>) -> Result<(), AllocError>
    requires { IsHead (groups_seen sources.now) head }
    ensures { OnOk result (refs.new.items ≡ refs.old.items ++ group_refs (groups_seen sources.now) head) }
{
    if head.is_single {
        refs.push(head.first)?;
        Ok(())
    } else {
        push_group(sources, head, refs)
    }
}

/// The rows of groups, in an order of these.
pub(crate) fn rows_in(
    alloc: Global,
    sources: &[SegmentRun],
    heads: &[Head],
    order: &[u32],
) -> Result<Vec<RowRef>, AllocError>
    requires heads { All (IsHead (groups_seen sources.now)) heads.now }
    requires below { All (λ i. i < length heads.now) order.now }
    ensures { IfOk result (λ refs. refs.items ≡ flat_map (λ i. group_refs (groups_seen sources.now) (head_at heads.now i)) order.now) }
{
    let mut refs = Vec::with_capacity(alloc, rows_of(sources))?;
    for number in order {
        push_rows(sources, heads[*number as usize], &mut refs)?;
    }
    Ok(refs)
}

// How many rows there are, so that room for them is taken once.
fn rows_of(sources: &[SegmentRun]) -> usize {
    let mut rows: usize = 0;
    for source in sources {
        rows = rows.saturating_add(source.run().rows().len());
    }
    rows
}
