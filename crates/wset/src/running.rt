//! Rows in order, by the runs that are kept of live segments.
ghost use Rattle.std.specs.Prelude.{◌≡◌, ◌↔◌, ◌<◌, ◌/◌, ◌++◌, ◌∷◌, [], All, IsTrue, IfOk, OnOk, map};
ghost use Rattle.std.specs.List.{AllByRecursion, IsAmong};
ghost use Rattle.wruns.specs.Dealing.{segment_rows};
ghost use Rattle.wruns.specs.Merging.{has_keys, rows_seen};
ghost use Rattle.wentries.specs.Blocks.{flat};
ghost use Rattle.wentries.specs.Keeping.{orders_in, rows_in};
ghost use Rattle.wset.specs.Running.{CanBeDealt, no_sizes, with_run, with_runs};

use crate::walk::Walk;
use std::alloc::{AllocError, Global};
use std::rc::Rc;
use wentries::{Block, Held, Kept};
use wruns::{Run, SegmentRun};
use wsegment::Segment;
use wvalues::SortKey;

/// The most rows that are put in one order at once.
const MOST_DEALT: usize = u32::MAX as usize;

/// Appends a segment with its run of these keys.
fn push_source<'a>(
    sources: &mut Vec<SegmentRun<'a>>,
    kept: &'a Kept,
    keys: &[SortKey],
) -> Result<(), AllocError>
    requires { IsAmong kept.now.orders keys.now }
    ensures rows { OnOk result (rows_seen sources.new.items ≡ rows_seen sources.old.items ++ kept.now.content.rows ∷ []) }
    ensures keys { All (has_keys keys.now) sources.old.items → OnOk result (All (has_keys keys.now) sources.new.items) }
{
    let Some(source) = kept.source(keys) else {
        unreachable!()
    };
    sources.push(source)?;
    Ok(())
}

/// Each live segment with its run of these keys, in the order of names.
pub(crate) fn sources<'a>(
    alloc: Global,
    blocks: &'a [Block],
    keys: &[SortKey],
) -> Result<Vec<SegmentRun<'a>>, AllocError>
    requires { AllByRecursion (λ o. IsAmong o keys.now) (orders_in (flat blocks.now)) }
    ensures rows { IfOk result (λ sources. rows_seen sources.items ≡ rows_in (flat blocks.now)) }
    ensures keys { IfOk result (λ sources. All (has_keys keys.now) sources.items) }
{
    let mut sources = Vec::new(alloc);
    let mut walk = Walk::new(blocks);
    'walk: while let Some(entry) = walk.step() {
        if let Held::Live(kept) = &entry.held {
            push_source(&mut sources, kept, keys)?;
        }
    }
    Ok(sources)
}

/// How many runs there are, and their groups and rows.
#[derive(Clone, Copy)]
pub(crate) struct RunSizes {
    runs: usize,
    groups: usize,
    rows: usize,
}

impl RunSizes {
    fn new() -> RunSizes
        ensures { result ≡ no_sizes }
    {
        RunSizes {
            runs: 0,
            groups: 0,
            rows: 0,
        }
    }

    fn add(&mut self, run: &Run)
        ensures { self.new ≡ with_run self.old run.now }
    {
        self.runs = self.runs.saturating_add(1);
        self.groups = self.groups.saturating_add(run.groups());
        self.rows = self.rows.saturating_add(run.rows().len());
    }

    /// The sizes of the runs of some segments.
    pub(crate) fn of_sources(sources: &[SegmentRun]) -> RunSizes
        ensures { result ≡ with_runs no_sizes (map (λ source. source.run.now) sources.now) }
    {
        let mut sizes = RunSizes::new();
        for source in sources {
            sizes.add(source.run());
        }
        sizes
    }

    /// The sizes of some runs.
    pub(crate) fn of_runs(runs: &[Rc<Run>]) -> RunSizes
        ensures { result ≡ with_runs no_sizes (map (λ run. run.value) runs.now) }
    {
        let mut sizes = RunSizes::new();
        for run in runs {
            sizes.add(run.as_ref());
        }
        sizes
    }

    /// Whether there are several runs, of more than one group for two rows, so that to merge them again would cost about what
    /// sorting costs.
    pub(crate) fn cost_much(&self) -> bool
        ensures { IsTrue result ↔ ((1 < self.now.runs) × (self.now.rows / 2 < self.now.groups)) }
    {
        self.runs > 1 && self.groups > self.rows / 2
    }
}

/// Appends a segment, if its cells are made.
fn push_segment<'a>(segments: &mut Vec<&'a Segment>, kept: &'a Kept) -> Result<(), AllocError>
    ensures { OnOk result (segment_rows segments.new.items ≡ segment_rows segments.old.items ++ kept.now.content.rows ∷ []) }
{
    let segment = kept.segment()?;
    segments.push(segment)?;
    Ok(())
}

/// Each live segment, in the order of names: `AllocError` where memory runs out, or where the cells of one are not made.
pub(crate) fn segments<'a>(
    alloc: Global,
    blocks: &'a [Block],
) -> Result<Vec<&'a Segment>, AllocError>
    ensures { IfOk result (λ segments. segment_rows segments.items ≡ rows_in (flat blocks.now)) }
{
    let mut segments = Vec::new(alloc);
    let mut walk = Walk::new(blocks);
    'walk: while let Some(entry) = walk.step() {
        if let Held::Live(kept) = &entry.held {
            push_segment(&mut segments, kept)?;
        }
    }
    Ok(segments)
}

/// Whether no live segment has a run of these keys, and all have fewer rows than are too many for one order.
pub(crate) fn can_be_dealt(blocks: &[Block], keys: &[SortKey]) -> bool
    ensures { IsTrue result ↔ CanBeDealt keys.now 0 (flat blocks.now) }
{
    let mut rows: usize = 0;
    let mut walk = Walk::new(blocks);
    'walk: while let Some(entry) = walk.step() {
        let Held::Live(kept) = &entry.held else {
            continue;
        };
        if kept.has(keys) {
            return false;
        }
        rows = rows.saturating_add(kept.rows());
    }
    rows <= MOST_DEALT
}
