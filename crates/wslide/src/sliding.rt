ghost use Rattle.std.specs.Prelude.{◌≡◌, ◌≤◌, ◌<◌, ◌+◌, ◌*◌, ◌-◌, ◌^◌, ◌++◌, length, OnOk, All};
ghost use Rattle.wframe.specs.Places.{IsRisen};
ghost use Rattle.wslide.specs.Laws.{total};
ghost use Rattle.wslide.specs.Frames.{folds_of_frames, most_by_queue};
ghost use Rattle.wslide.specs.Queue.{capacity, owed, IsFilledBy};
ghost use Rattle.wslide.specs.Rows.{span_parts};

use crate::fold::Fold;
use crate::queue::FoldQueue;
use crate::running::{begin_together, push_running_folds};
use std::alloc::AllocError;
use wframe::{FrameExclusion, Frames, Span};

/// Moves what a queue holds on from one span to the next.
pub(crate) fn advance<F: Fold>(
    queue: &mut FoldQueue<F::Part>,
    fold: &F,
    meter: &mut F::Meter,
    held: Span,
    span: Span,
)
    requires filled { IsFilledBy (F.is_part fold.now) (F.neutral fold.now) (F.joined fold.now)
        (span_parts (F.part_at fold.now) held) queue.old }
    requires ordered { held.from ≤ held.to }
    requires rises { IsRisen (F.rows fold.now) held span }
    requires space { F.rows fold.now ≤ capacity queue.old }
    requires room { F.count meter.old + owed queue.old + 2 * (span.to - held.to) + F.rows fold.now < 2 ^ 64 }
    ensures filled { IsFilledBy (F.is_part fold.now) (F.neutral fold.now) (F.joined fold.now)
        (span_parts (F.part_at fold.now) span) queue.new }
    ensures capacity { capacity queue.new ≡ capacity queue.old }
    ensures not_less { F.count meter.old ≤ F.count meter.new }
    ensures joins { F.count meter.new + owed queue.new ≤ F.count meter.old + owed queue.old + 2 * (span.to - held.to) }
{
    for row in held.to..span.to {
        queue.push(fold, meter, fold.of(row));
    }
    for _ in held.from..span.from {
        queue.pop(fold, meter);
    }
}

// The fold of a span's rows, all of which the queue holds.
fn held_fold<F: Fold>(
    queue: &FoldQueue<F::Part>,
    fold: &F,
    meter: &mut F::Meter,
    held: Span,
) -> F::Part
    requires filled { IsFilledBy (F.is_part fold.now) (F.neutral fold.now) (F.joined fold.now)
        (span_parts (F.part_at fold.now) held) queue.now }
    requires ordered { held.from ≤ held.to }
    requires within { held.to ≤ F.rows fold.now }
    requires room { F.count meter.old + F.rows fold.now < 2 ^ 64 }
    requires some { 0 < F.rows fold.now }
    ensures value { result ≡ total (F.neutral fold.now) (F.joined fold.now) (span_parts (F.part_at fold.now) held) }
    ensures part { F.is_part fold.now result }
    ensures not_less { F.count meter.old ≤ F.count meter.new }
    ensures joins { F.count meter.new ≤ F.count meter.old + 1 }
{
    queue.fold(fold, meter)
}

// The fold of the span that a queue moves on to. It is that of the held one where they are the same.
fn moved_fold<F: Fold>(
    queue: &mut FoldQueue<F::Part>,
    fold: &F,
    meter: &mut F::Meter,
    held: Span,
    part: F::Part,
    span: Span,
) -> F::Part
    requires filled { IsFilledBy (F.is_part fold.now) (F.neutral fold.now) (F.joined fold.now)
        (span_parts (F.part_at fold.now) held) queue.old }
    requires ordered { held.from ≤ held.to }
    requires value { part ≡ total (F.neutral fold.now) (F.joined fold.now) (span_parts (F.part_at fold.now) held) }
    requires part { F.is_part fold.now part }
    requires rises { IsRisen (F.rows fold.now) held span }
    requires space { F.rows fold.now ≤ capacity queue.old }
    requires room { F.count meter.old + owed queue.old + 2 * (span.to - held.to) + F.rows fold.now < 2 ^ 64 }
    requires some { 0 < F.rows fold.now }
    ensures filled { IsFilledBy (F.is_part fold.now) (F.neutral fold.now) (F.joined fold.now)
        (span_parts (F.part_at fold.now) span) queue.new }
    ensures value { result ≡ total (F.neutral fold.now) (F.joined fold.now) (span_parts (F.part_at fold.now) span) }
    ensures part { F.is_part fold.now result }
    ensures capacity { capacity queue.new ≡ capacity queue.old }
    ensures not_less { F.count meter.old ≤ F.count meter.new }
    ensures joins { F.count meter.new + owed queue.new ≤ F.count meter.old + owed queue.old + 2 * (span.to - held.to) + 1 }
{
    if span.from == held.from && span.to == held.to {
        return part;
    }
    advance(queue, fold, meter, held, span);
    held_fold(queue, fold, meter, span)
}

/// Adds the fold of each row's frame, where the frames are single spans: a queue moves on from one frame to the next, but where they
/// all begin with the partition.
pub(crate) fn push_sliding_folds<F: Fold>(
    queue: &mut FoldQueue<F::Part>,
    folds: &mut Vec<F::Part>,
    fold: &F,
    frames: &Frames,
    meter: &mut F::Meter,
) -> Result<(), AllocError>
    requires rows { length frames.now.keys ≡ F.rows fold.now }
    requires single { frames.now.frame.exclusion ≡ FrameExclusion.NoOthers }
    requires space { F.rows fold.now ≤ capacity queue.old }
    requires room { F.count meter.old + (most_by_queue (F.rows fold.now) + F.rows fold.now) < 2 ^ 64 }
    ensures folds { OnOk result (folds.new.items ≡ folds.old.items ++ folds_of_frames (F.neutral fold.now)
        (F.joined fold.now) (F.part_at fold.now) frames.now) }
    ensures parts { OnOk result (All (F.is_part fold.now) (folds_of_frames (F.neutral fold.now) (F.joined fold.now)
        (F.part_at fold.now) frames.now)) }
    ensures capacity { capacity queue.new ≡ capacity queue.old }
    ensures not_less { F.count meter.old ≤ F.count meter.new }
    ensures joins { F.count meter.new ≤ F.count meter.old + most_by_queue (F.rows fold.now) }
{
    if begin_together(frames) {
        return push_running_folds(folds, fold, frames, meter);
    }
    queue.restart(fold);
    let rows = frames.count();
    let mut held = Span { from: 0, to: 0 };
    let mut part = fold.unit();
    for row in 0..rows {
        let span = frames.extent(row);
        part = moved_fold(queue, fold, meter, held, part, span);
        held = span;
        folds.push(part)?;
    }
    Ok(())
}
