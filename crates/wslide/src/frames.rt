ghost use Rattle.std.specs.Prelude.{◌≡◌, ◌≤◌, ◌<◌, ◌+◌, ◌^◌, ◌++◌, ℕ, length, IfOk, OnOk, All};
ghost use Rattle.wslide.specs.Frames.{folds_of_frames, most, most_by_two_queues};
ghost use Rattle.wslide.specs.Queue.{HasRoom};

use crate::excluded::push_excluded_folds;
use crate::fold::Fold;
use crate::queue::FoldQueue;
use crate::sliding::push_sliding_folds;
use std::alloc::{AllocError, Global};
use wframe::{FrameExclusion, Frames};

/// The queues that fold the frames of one partition after another. One fold after another may fill them.
#[derive(Drop)]
pub struct FrameQueues<P> {
    before: FoldQueue<P>,
    behind: FoldQueue<P>,
}

impl<P: Copy> FrameQueues<P> {
    /// Queues with room for partitions of so many rows.
    pub fn with_capacity<F: Fold<Part = P>>(
        alloc: Global,
        fold: &F,
        rows: usize,
    ) -> Result<FrameQueues<P>, AllocError>
        ensures { IfOk result (HasRoom rows) }
    {
        Ok(FrameQueues {
            before: FoldQueue::with_capacity(alloc, fold, rows)?,
            behind: FoldQueue::with_capacity(alloc, fold, rows)?,
        })
    }
}

/// Adds the fold of each row's frame, in the order of the partition's rows. But for room in the list it takes no memory.
///
/// At most three joins a row, eight where rows are excluded, also where memory is refused. The clause `joins` allows the looser bound
/// of a tree.
pub fn push_frame_folds<F: Fold>(
    queues: &mut FrameQueues<F::Part>,
    folds: &mut Vec<F::Part>,
    fold: &F,
    frames: &Frames,
    meter: &mut F::Meter,
) -> Result<(), AllocError>
    requires rows { length frames.now.keys ≡ F.rows fold.now }
    requires space { HasRoom (F.rows fold.now) queues.old }
    requires room { F.count meter.old + (most frames.now.frame.exclusion (F.rows fold.now) + F.rows fold.now) < 2 ^ 64 }
    ensures folds { OnOk result (folds.new.items ≡ folds.old.items ++ folds_of_frames (F.neutral fold.now)
        (F.joined fold.now) (F.part_at fold.now) frames.now) }
    ensures parts { OnOk result (All (F.is_part fold.now) (folds_of_frames (F.neutral fold.now) (F.joined fold.now)
        (F.part_at fold.now) frames.now)) }
    ensures space { (rows : ℕ) → HasRoom rows queues.old → HasRoom rows queues.new }
    ensures not_less { F.count meter.old ≤ F.count meter.new }
    ensures joins { F.count meter.new ≤ F.count meter.old + most frames.now.frame.exclusion (F.rows fold.now) }
    ensures few { F.count meter.new ≤ F.count meter.old + most_by_two_queues (F.rows fold.now) }
{
    let FrameQueues { before, behind } = queues;
    match frames.exclusion() {
        FrameExclusion::NoOthers => push_sliding_folds(before, folds, fold, frames, meter),
        FrameExclusion::CurrentRow | FrameExclusion::Group | FrameExclusion::Ties => {
            push_excluded_folds(before, behind, folds, fold, frames, meter)
        }
    }
}

/// The fold of each row's frame, in the order of the partition's rows: [`push_frame_folds`] for a partition alone.
pub fn frame_folds<F: Fold>(
    alloc: Global,
    fold: &F,
    frames: &Frames,
    meter: &mut F::Meter,
) -> Result<Vec<F::Part>, AllocError>
    requires rows { length frames.now.keys ≡ F.rows fold.now }
    requires room { F.count meter.old + (most frames.now.frame.exclusion (F.rows fold.now) + F.rows fold.now) < 2 ^ 64 }
    ensures folds { IfOk result (λ folds. folds.items ≡ folds_of_frames (F.neutral fold.now) (F.joined fold.now)
        (F.part_at fold.now) frames.now) }
    ensures parts { IfOk result (λ folds. All (F.is_part fold.now) folds.items) }
    ensures not_less { F.count meter.old ≤ F.count meter.new }
    ensures joins { F.count meter.new ≤ F.count meter.old + most frames.now.frame.exclusion (F.rows fold.now) }
    ensures few { F.count meter.new ≤ F.count meter.old + most_by_two_queues (F.rows fold.now) }
{
    let rows = frames.count();
    let mut queues = FrameQueues::with_capacity(alloc, fold, rows)?;
    let mut folds = Vec::with_capacity(alloc, rows)?;
    push_frame_folds(&mut queues, &mut folds, fold, frames, meter)?;
    Ok(folds)
}
