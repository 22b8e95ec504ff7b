//! Some partitions of a window at a time.
ghost use Rattle.std.specs.Prelude.{◌≡◌, ◌<◌, ◌≤◌, ◌-◌, length, slice_range};
ghost use Rattle.wframe.specs.Places.{Tiles, span_at};
ghost use Rattle.waggregate.specs.BatchEnds.{EndsInTime};

use wframe::{Partitions, Span};

/// How many rows a batch has at least, but for the last one: so many that what is made for a batch hardly counts beside them, and
/// so few that a cache holds what they need.
const ROWS: usize = 4096;

/// Some partitions of a window that follow each other.
#[derive(Clone, Copy)]
pub(crate) struct Batch<'a> {
    /// The numbers of their rows, in the window's order.
    pub(crate) rows: &'a [u32],
    /// All partitions of the window.
    pub(crate) partitions: &'a Partitions<'a>,
    /// Which of them these are, one at least.
    pub(crate) numbers: Span,
    ghost some: { numbers.from < numbers.to },
    ghost within: { numbers.to ≤ length partitions.now.spans },
    ghost whole: { length rows.now ≡ (span_at partitions.now.spans (numbers.to - 1)).to
        - (span_at partitions.now.spans numbers.from).from },
}

// Where a batch ends that begins at a partition: it has so many partitions that their rows suffice and no more, as far as there are
// some.
fn end_of_batch(partitions: &Partitions, from: usize) -> usize
    requires { from < length partitions.now.spans }
    ensures some { from < result }
    ensures within { result ≤ length partitions.now.spans }
    ensures ends { EndsInTime partitions.now.spans from result }
{
    let count = partitions.count();
    let first = partitions.span(from).from;
    let mut to = from + 1;
    while to < count && partitions.span(to - 1).to.saturating_sub(first) < ROWS {
        to += 1;
    }
    to
}

/// The batch that begins at a partition, of which `rows` has the numbers of the rows of all. It ends as soon as it has `ROWS` rows, or
/// with the last partition.
pub(crate) fn batch_from<'a>(
    rows: &'a [u32],
    partitions: &'a Partitions<'a>,
    from: usize,
) -> Batch<'a>
    requires rows { length rows.now ≡ length partitions.now.keys }
    requires tiles { Tiles 0 partitions.now.spans (length partitions.now.keys) }
    requires within { from < length partitions.now.spans }
    ensures from { result.numbers.from ≡ from }
    ensures partitions { result.partitions.now ≡ partitions.now }
    ensures rows { result.rows.now ≡ slice_range rows.now (span_at partitions.now.spans from).from
        (span_at partitions.now.spans (result.numbers.to - 1)).to }
    ensures ends { EndsInTime partitions.now.spans from result.numbers.to }
{
    let to = end_of_batch(partitions, from);
    let first = partitions.span(from);
    let last = partitions.span(to - 1);
    Batch {
        rows: &rows[first.from..last.to],
        partitions,
        numbers: Span { from, to },
    }
}
