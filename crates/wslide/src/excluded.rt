ghost use Rattle.std.specs.Prelude.{◌≡◌, ◌≤◌, ◌<◌, ◌+◌, ◌*◌, ◌-◌, ◌^◌, [], ◌∷◌, ◌++◌, length, OnOk, All};
ghost use Rattle.wframe.specs.Places.{IsRisen};
ghost use Rattle.wslide.specs.Laws.{total};
ghost use Rattle.wslide.specs.Frames.{folds_of_frames, most_by_two_queues};
ghost use Rattle.wslide.specs.Queue.{capacity, owed, IsFilledBy};
ghost use Rattle.wslide.specs.Rows.{span_parts, spans_parts};

use crate::fold::Fold;
use crate::plain::join_rows;
use crate::queue::FoldQueue;
use crate::sliding::advance;
use std::alloc::AllocError;
use wframe::{Frames, Span, gaps_slide};

// The spans that two queues hold: what lies before the excluded rows, and what lies behind them.
#[derive(Clone, Copy)]
struct Sides {
    before: Span,
    behind: Span,
}

// Moves what two queues hold on to the next spans.
fn advance_both<F: Fold>(
    before: &mut FoldQueue<F::Part>,
    behind: &mut FoldQueue<F::Part>,
    fold: &F,
    meter: &mut F::Meter,
    held: Sides,
    next: Sides,
)
    requires before_filled { IsFilledBy (F.is_part fold.now) (F.neutral fold.now) (F.joined fold.now)
        (span_parts (F.part_at fold.now) held.before) before.old }
    requires before_ordered { held.before.from ≤ held.before.to }
    requires before_rises { IsRisen (F.rows fold.now) held.before next.before }
    requires before_space { F.rows fold.now ≤ capacity before.old }
    requires behind_filled { IsFilledBy (F.is_part fold.now) (F.neutral fold.now) (F.joined fold.now)
        (span_parts (F.part_at fold.now) held.behind) behind.old }
    requires behind_ordered { held.behind.from ≤ held.behind.to }
    requires behind_rises { IsRisen (F.rows fold.now) held.behind next.behind }
    requires behind_space { F.rows fold.now ≤ capacity behind.old }
    requires room { F.count meter.old + owed before.old + owed behind.old + 2 * (next.before.to - held.before.to)
        + 2 * (next.behind.to - held.behind.to) + F.rows fold.now < 2 ^ 64 }
    ensures before_filled { IsFilledBy (F.is_part fold.now) (F.neutral fold.now) (F.joined fold.now)
        (span_parts (F.part_at fold.now) next.before) before.new }
    ensures before_capacity { capacity before.new ≡ capacity before.old }
    ensures behind_filled { IsFilledBy (F.is_part fold.now) (F.neutral fold.now) (F.joined fold.now)
        (span_parts (F.part_at fold.now) next.behind) behind.new }
    ensures behind_capacity { capacity behind.new ≡ capacity behind.old }
    ensures not_less { F.count meter.old ≤ F.count meter.new }
    ensures joins { F.count meter.new + owed before.new + owed behind.new ≤ F.count meter.old + owed before.old + owed
        behind.old + 2 * (next.before.to - held.before.to) + 2 * (next.behind.to - held.behind.to) }
{
    advance(before, fold, meter, held.before, next.before);
    advance(behind, fold, meter, held.behind, next.behind);
}

// The fold of what two queues hold, with the rows of a span of one row at most between them.
fn fold_around<F: Fold>(
    before: &FoldQueue<F::Part>,
    behind: &FoldQueue<F::Part>,
    fold: &F,
    meter: &mut F::Meter,
    held: Sides,
    within: Span,
) -> F::Part
    requires before_filled { IsFilledBy (F.is_part fold.now) (F.neutral fold.now) (F.joined fold.now)
        (span_parts (F.part_at fold.now) held.before) before.now }
    requires behind_filled { IsFilledBy (F.is_part fold.now) (F.neutral fold.now) (F.joined fold.now)
        (span_parts (F.part_at fold.now) held.behind) behind.now }
    requires ordered { within.from ≤ within.to }
    requires small { within.to ≤ within.from + 1 }
    requires rows { within.to ≤ F.rows fold.now }
    requires room { F.count meter.old + 4 < 2 ^ 64 }
    ensures value { result ≡ total (F.neutral fold.now) (F.joined fold.now)
        (spans_parts (F.part_at fold.now) (held.before ∷ within ∷ held.behind ∷ [])) }
    ensures part { F.is_part fold.now result }
    ensures not_less { F.count meter.old ≤ F.count meter.new }
    ensures joins { F.count meter.new ≤ F.count meter.old + 4 }
{
    let front = before.fold(fold, meter);
    let middle = join_rows(fold, meter, front, within);
    let rear = behind.fold(fold, meter);
    fold.join(meter, middle, rear)
}

/// Adds the fold of each row's frame, where rows are excluded: one queue holds what lies before them, one what lies behind.
///
/// The ends of both rise along with the rows, so each row enters either queue once, and leaves it once.
pub(crate) fn push_excluded_folds<F: Fold>(
    before: &mut FoldQueue<F::Part>,
    behind: &mut FoldQueue<F::Part>,
    folds: &mut Vec<F::Part>,
    fold: &F,
    frames: &Frames,
    meter: &mut F::Meter,
) -> Result<(), AllocError>
    requires rows { length frames.now.keys ≡ F.rows fold.now }
    requires before_space { F.rows fold.now ≤ capacity before.old }
    requires behind_space { F.rows fold.now ≤ capacity behind.old }
    requires room { F.count meter.old + (most_by_two_queues (F.rows fold.now) + F.rows fold.now) < 2 ^ 64 }
    ensures folds { OnOk result (folds.new.items ≡ folds.old.items ++ folds_of_frames (F.neutral fold.now)
        (F.joined fold.now) (F.part_at fold.now) frames.now) }
    ensures parts { OnOk result (All (F.is_part fold.now) (folds_of_frames (F.neutral fold.now) (F.joined fold.now)
        (F.part_at fold.now) frames.now)) }
    ensures before_capacity { capacity before.new ≡ capacity before.old }
    ensures behind_capacity { capacity behind.new ≡ capacity behind.old }
    ensures not_less { F.count meter.old ≤ F.count meter.new }
    ensures joins { F.count meter.new ≤ F.count meter.old + most_by_two_queues (F.rows fold.now) }
{
    // A law, which does nothing: what is left before and behind the excluded rows moves on with the rows.
    gaps_slide();
    before.restart(fold);
    behind.restart(fold);
    let rows = frames.count();
    let mut held = Sides {
        before: Span { from: 0, to: 0 },
        behind: Span { from: 0, to: 0 },
    };
    for row in 0..rows {
        let [left, within, right] = frames.frame(row);
        let next = Sides {
            before: left,
            behind: right,
        };
        advance_both(before, behind, fold, meter, held, next);
        held = next;
        folds.push(fold_around(before, behind, fold, meter, held, within))?;
    }
    Ok(())
}
