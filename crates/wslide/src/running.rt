ghost use Rattle.std.specs.Prelude.{◌≡◌, ◌≤◌, ◌<◌, ◌+◌, ◌-◌, ◌^◌, ◌++◌, ℕ, true, length, OnOk, All};
ghost use Rattle.wslide.specs.Frames.{folds_of_frames};
ghost use Rattle.wframe.specs.Frame.{frame_extent};

use crate::fold::Fold;
use crate::plain::join_rows;
use std::alloc::AllocError;
use wframe::{FrameExclusion, Frames, Span};

/// Whether all frames begin with the partition, as the last one does: none begins behind it.
pub(crate) fn begin_together(frames: &Frames) -> bool
    ensures all { result ≡ true → (row : ℕ) → row < length frames.now.keys → (frame_extent frames.now row).from ≡ 0 }
    ensures found { 0 < length frames.now.keys → (frame_extent frames.now (length frames.now.keys - 1)).from ≡ 0 → result ≡ true }
{
    let rows = frames.count();
    if rows == 0 {
        return false;
    }
    frames.extent(rows - 1).from == 0
}

/// Adds the fold of each row's frame, where the frames are single spans that begin with the partition: each is the one before it,
/// joined with the rows that are new in it.
pub(crate) fn push_running_folds<F: Fold>(
    folds: &mut Vec<F::Part>,
    fold: &F,
    frames: &Frames,
    meter: &mut F::Meter,
) -> Result<(), AllocError>
    requires rows { length frames.now.keys ≡ F.rows fold.now }
    requires single { frames.now.frame.exclusion ≡ FrameExclusion.NoOthers }
    requires begin { (row : ℕ) → row < length frames.now.keys → (frame_extent frames.now row).from ≡ 0 }
    requires room { F.count meter.old + F.rows fold.now < 2 ^ 64 }
    ensures folds { OnOk result (folds.new.items ≡ folds.old.items ++ folds_of_frames (F.neutral fold.now)
        (F.joined fold.now) (F.part_at fold.now) frames.now) }
    ensures parts { OnOk result (All (F.is_part fold.now) (folds_of_frames (F.neutral fold.now) (F.joined fold.now)
        (F.part_at fold.now) frames.now)) }
    ensures not_less { F.count meter.old ≤ F.count meter.new }
    ensures joins { F.count meter.new ≤ F.count meter.old + F.rows fold.now }
{
    let mut end = 0;
    let mut part = fold.unit();
    let rows = frames.count();
    for row in 0..rows {
        let span = frames.extent(row);
        let new_rows = Span {
            from: end,
            to: span.to,
        };
        part = join_rows(fold, meter, part, new_rows);
        end = span.to;
        folds.push(part)?;
    }
    Ok(())
}
