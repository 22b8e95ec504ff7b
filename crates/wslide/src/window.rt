ghost use Rattle.std.specs.Prelude.{◌≡◌, ◌≤◌, ◌<◌, ◌+◌, ◌-◌, ◌^◌, ◌++◌, ℕ, length, slice_range, OnOk, All};
ghost use Rattle.wframe.specs.Places.{span_at, Tiles};
ghost use Rattle.wslide.specs.Frames.{folds_of_spans, most_by_queues};

use crate::fold::Fold;
use crate::frames::{FrameQueues, push_frame_folds};
use crate::laws::most_is_small;
use std::alloc::{AllocError, Global};
use wframe::{Partitions, Span};

/// A fold over the rows of a span, as another fold has them.
#[derive(Drop)]
struct SpanFold<'a, F: Fold> {
    fold: &'a F,
    span: Span,
    ghost ordered: { span.from ≤ span.to },
    ghost within: { span.to ≤ F.rows fold.now },
    ghost few: { F.rows fold.now < 2 ^ 31 },
}

impl<'a, F: Fold> Fold for SpanFold<'a, F> {
    type Part = F::Part;

    type Meter = F::Meter;

    ghost is_part = { λ own. F.is_part own.fold.now };

    ghost neutral = { λ own. F.neutral own.fold.now };

    ghost joined = { λ own. F.joined own.fold.now };

    ghost rows = { λ own. own.span.to - own.span.from };

    ghost part_at = { λ own row. F.part_at own.fold.now (own.span.from + row) };

    ghost count = { F.count };

    ghost laws = { λ own. F.laws own.fold.now };

    fn joins(&self, meter: &F::Meter) -> u64 {
        self.fold.joins(meter)
    }

    fn unit(&self) -> F::Part {
        self.fold.unit()
    }

    fn of(&self, row: usize) -> F::Part {
        self.fold.of(self.span.from + row)
    }

    fn join(&self, meter: &mut F::Meter, left: F::Part, right: F::Part) -> F::Part {
        self.fold.join(meter, left, right)
    }
}

// How many rows the longest of some partitions has.
fn longest(partitions: &Partitions, numbers: Span) -> usize
    requires within { numbers.to ≤ length partitions.now.spans }
    ensures { (number : ℕ) → numbers.from ≤ number → number < numbers.to
        → (span_at partitions.now.spans number).to - (span_at partitions.now.spans number).from ≤ result }
{
    let mut longest = 0;
    for number in numbers.from..numbers.to {
        let span = partitions.span(number);
        let rows = span.to - span.from;
        if longest < rows {
            longest = rows;
        }
    }
    longest
}

// The first row of a partition, and 0 where there is no such partition. No row lies between partitions.
fn first_row(partitions: &Partitions, number: usize) -> usize
    ensures first { result ≡ (span_at partitions.now.spans number).from }
    ensures tiles { Tiles 0 partitions.now.spans (length partitions.now.keys) }
{
    if number < partitions.count() {
        return partitions.span(number).from;
    }
    0
}

/// Adds the fold of each row's frame in some partitions, one after another: those from the number `numbers.from` on, up to
/// `numbers.to`. The fold is over the rows of these partitions alone: its first row is the first of theirs.
///
/// The queues are made once for all of them. But for them, and for room in the list, it takes no memory. The meter
/// counts at most eight joins for each row, also where memory is refused, and three where the frame clause excludes no row.
pub fn push_window_folds<F: Fold>(
    alloc: Global,
    folds: &mut Vec<F::Part>,
    fold: &F,
    partitions: &Partitions,
    numbers: Span,
    meter: &mut F::Meter,
) -> Result<(), AllocError>
    requires ordered { numbers.from ≤ numbers.to }
    requires within { numbers.to ≤ length partitions.now.spans }
    requires rows { numbers.from < numbers.to → F.rows fold.now ≡ (span_at partitions.now.spans (numbers.to - 1)).to
        - (span_at partitions.now.spans numbers.from).from }
    requires few { F.rows fold.now < 2 ^ 31 }
    requires room { F.count meter.old < 2 ^ 63 }
    ensures folds { OnOk result (folds.new.items ≡ folds.old.items ++ folds_of_spans (F.neutral fold.now)
        (F.joined fold.now) (F.part_at fold.now) partitions.now (span_at partitions.now.spans numbers.from).from
        (slice_range partitions.now.spans numbers.from numbers.to)) }
    ensures parts { OnOk result (All (F.is_part fold.now) (folds_of_spans (F.neutral fold.now) (F.joined fold.now)
        (F.part_at fold.now) partitions.now (span_at partitions.now.spans numbers.from).from
        (slice_range partitions.now.spans numbers.from numbers.to))) }
    ensures not_less { F.count meter.old ≤ F.count meter.new }
    ensures joins { F.count meter.new ≤ F.count meter.old + most_by_queues partitions.now.frame.exclusion (F.rows fold.now) }
{
    // A law, which does nothing.
    most_is_small();
    let mut queues = FrameQueues::with_capacity(alloc, fold, longest(partitions, numbers))?;
    let first = first_row(partitions, numbers.from);
    for number in numbers.from..numbers.to {
        let rows = partitions.span(number);
        let frames = partitions.partition(number);
        let span = Span {
            from: rows.from - first,
            to: rows.to - first,
        };
        let own = SpanFold { fold, span };
        push_frame_folds(&mut queues, folds, &own, &frames, meter)?;
    }
    Ok(())
}
