ghost use Rattle.std.specs.Prelude.{◌≡◌, ◌≤◌, ◌<◌, ◌+◌, ◌*◌, ◌-◌, ◌^◌, length, IfOk, All};
ghost use Rattle.wframe.specs.Places.{spans_places, AreApart};
ghost use Rattle.wslide.specs.Laws.{total};
ghost use Rattle.wslide.specs.Frames.{folds_of_frames};
ghost use Rattle.wslide.specs.Rows.{span_parts, spans_parts};

use crate::fold::Fold;
use std::alloc::{AllocError, Global};
use wframe::{Frames, Span};

/// A part joined with the part of each row of a span, one row after another.
pub(crate) fn join_rows<F: Fold>(
    fold: &F,
    meter: &mut F::Meter,
    start: F::Part,
    span: Span,
) -> F::Part
    requires part { F.is_part fold.now start }
    requires ordered { span.from ≤ span.to }
    requires within { span.to ≤ F.rows fold.now }
    requires room { F.count meter.old + (span.to - span.from) < 2 ^ 64 }
    ensures value { result ≡ total start (F.joined fold.now) (span_parts (F.part_at fold.now) span) }
    ensures part { F.is_part fold.now result }
    ensures joins { F.count meter.new ≡ F.count meter.old + (span.to - span.from) }
{
    let mut sum = start;
    for row in span.from..span.to {
        sum = fold.join(meter, sum, fold.of(row));
    }
    sum
}

// The fold of several spans' rows, one row after another.
fn rows_of_spans<F: Fold>(fold: &F, meter: &mut F::Meter, spans: &[Span]) -> F::Part
    requires apart { AreApart 0 spans.now (F.rows fold.now) }
    requires room { F.count meter.old + F.rows fold.now < 2 ^ 64 }
    ensures value { result ≡ total (F.neutral fold.now) (F.joined fold.now) (spans_parts (F.part_at fold.now) spans.now) }
    ensures part { F.is_part fold.now result }
    ensures joins { F.count meter.new ≡ F.count meter.old + length (spans_places spans.now) }
{
    let mut sum = fold.unit();
    for span in spans {
        sum = join_rows(fold, meter, sum, *span);
    }
    sum
}

/// The fold of each row's frame, by a walk over the frame's rows: the slow reference of [`crate::frame_folds`].
///
/// The meter counts a join for each row of each frame.
pub fn plain_folds<F: Fold>(
    alloc: Global,
    fold: &F,
    frames: &Frames,
    meter: &mut F::Meter,
) -> Result<Vec<F::Part>, AllocError>
    requires rows { length frames.now.keys ≡ F.rows fold.now }
    requires room { F.count meter.old + F.rows fold.now * F.rows fold.now < 2 ^ 64 }
    ensures folds { IfOk result (λ folds. folds.items ≡ folds_of_frames (F.neutral fold.now) (F.joined fold.now)
        (F.part_at fold.now) frames.now) }
    ensures parts { IfOk result (λ folds. All (F.is_part fold.now) folds.items) }
    ensures not_less { F.count meter.old ≤ F.count meter.new }
    ensures joins { F.count meter.new ≤ F.count meter.old + F.rows fold.now * F.rows fold.now }
{
    let rows = frames.count();
    let mut folds = Vec::with_capacity(alloc, rows)?;
    for row in 0..rows {
        let spans = frames.frame(row);
        folds.push(rows_of_spans(fold, meter, &spans))?;
    }
    Ok(folds)
}
