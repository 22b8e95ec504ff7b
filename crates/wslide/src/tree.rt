use crate::fold::Fold;
use std::alloc::{AllocError, Global};
use wframe::Span;

/// Parts with the joins of neighbors, level over level, for the fold of any span.
///
/// It is for spans that go back, or come in any order. Those of frames rise, and [`crate::FoldQueue`] takes fewer joins.
/// One fold builds a tree, and is lent to each call.
#[derive(Drop)]
pub struct FoldTree<P> {
    levels: Vec<Vec<P>>,
}

ghost use Rattle.std.specs.Prelude.{◌≡◌, ◌≤◌, ◌+◌, ◌*◌, ◌-◌, ◌/◌, ◌%◌, ◌<◌, ◌^◌, length, slice_range, IfOk, All, vec_len};
ghost use Rattle.wslide.specs.Laws.{total};
ghost use Rattle.wslide.specs.Tree.{paired, tree_parts, IsBuiltBy};

// Each two neighbors joined.
fn pairs<F: Fold>(
    alloc: Global,
    fold: &F,
    meter: &mut F::Meter,
    level: &[F::Part],
) -> Result<Vec<F::Part>, AllocError>
    requires parts { All (F.is_part fold.now) level.now }
    requires room { F.count meter.old + length level.now / 2 < 2 ^ 64 }
    ensures pairs { IfOk result (λ next. next.items ≡ paired (F.joined fold.now) level.now) }
    ensures len { IfOk result (λ next. vec_len next ≡ length level.now / 2) }
    ensures not_less { F.count meter.old ≤ F.count meter.new }
    ensures joins { F.count meter.new ≤ F.count meter.old + length level.now / 2 }
{
    let half = level.len() / 2;
    let mut next = Vec::with_capacity(alloc, half)?;
    for i in 0..half {
        next.push(fold.join(meter, level[2 * i], level[2 * i + 1]))?;
    }
    Ok(next)
}

// Takes the first part of a span, where it has no partner to its left in it.
fn take_left<F: Fold>(
    fold: &F,
    meter: &mut F::Meter,
    level: &[F::Part],
    left: F::Part,
    span: Span,
) -> (F::Part, usize)
    requires parts { All (F.is_part fold.now) level.now }
    requires left { F.is_part fold.now left }
    requires ordered { span.from ≤ span.to }
    requires within { span.to ≤ length level.now }
    requires room { F.count meter.old + 1 < 2 ^ 64 }
    ensures part { F.is_part fold.now result.0 }
    ensures kept { let sum = total (F.neutral fold.now) (F.joined fold.now) in
        F.joined fold.now result.0 (sum (slice_range level.now result.1 span.to)) ≡ F.joined fold.now left
        (sum (slice_range level.now span.from span.to)) }
    ensures from { span.from ≤ result.1 }
    ensures to { result.1 ≤ span.to }
    ensures even { result.1 < span.to → result.1 % 2 ≡ 0 }
    ensures not_less { F.count meter.old ≤ F.count meter.new }
    ensures joins { F.count meter.new ≤ F.count meter.old + 1 }
{
    if span.from < span.to && span.from % 2 == 1 {
        (fold.join(meter, left, level[span.from]), span.from + 1)
    } else {
        (left, span.from)
    }
}

// Takes the last part of a span, where it has no partner to its right in it.
fn take_right<F: Fold>(
    fold: &F,
    meter: &mut F::Meter,
    level: &[F::Part],
    right: F::Part,
    span: Span,
) -> (F::Part, usize)
    requires parts { All (F.is_part fold.now) level.now }
    requires right { F.is_part fold.now right }
    requires ordered { span.from ≤ span.to }
    requires within { span.to ≤ length level.now }
    requires even { span.from < span.to → span.from % 2 ≡ 0 }
    requires room { F.count meter.old + 1 < 2 ^ 64 }
    ensures part { F.is_part fold.now result.0 }
    ensures kept { let sum = total (F.neutral fold.now) (F.joined fold.now) in
        F.joined fold.now (sum (slice_range level.now span.from result.1)) result.0
        ≡ F.joined fold.now (sum (slice_range level.now span.from span.to)) right }
    ensures from { span.from ≤ result.1 }
    ensures to { result.1 ≤ span.to }
    ensures even { span.from < result.1 → result.1 % 2 ≡ 0 }
    ensures not_less { F.count meter.old ≤ F.count meter.new }
    ensures joins { F.count meter.new ≤ F.count meter.old + 1 }
{
    if span.from < span.to && span.to % 2 == 1 {
        let to = span.to - 1;
        (fold.join(meter, level[to], right), to)
    } else {
        (right, span.to)
    }
}

impl<P: Copy> FoldTree<P> {
    ghost use Rattle.std.specs.Prelude.{◌≡◌, ◌≤◌, ◌+◌, ◌*◌, ◌<◌, ◌^◌, length, slice_range, IfOk, All};
    ghost use Rattle.wslide.specs.Laws.{total};
    ghost use Rattle.wslide.specs.Tree.{tree_parts, IsBuiltBy};
    ghost use Rattle.wslide.specs.Height.{height};

    /// The tree of these parts, by at most a join for each.
    pub fn build<F: Fold<Part = P>>(
        alloc: Global,
        fold: &F,
        meter: &mut F::Meter,
        parts: Vec<P>,
    ) -> Result<FoldTree<P>, AllocError>
        requires parts { All (F.is_part fold.now) parts.items }
        requires room { F.count meter.old + length parts.items < 2 ^ 64 }
        ensures built { IfOk result (λ t. IsBuiltBy (F.is_part fold.now) (F.joined fold.now) t) }
        ensures parts { IfOk result (λ t. tree_parts t ≡ parts.items) }
        ensures not_less { F.count meter.old ≤ F.count meter.new }
        ensures joins { F.count meter.new ≤ F.count meter.old + length parts.items }
    {
        let mut levels = Vec::new(alloc);
        let mut level = parts;
        'levels: while level.len() > 1 {
            let next = pairs(alloc, fold, meter, &level)?;
            levels.push(level)?;
            level = next;
        }
        levels.push(level)?;
        Ok(FoldTree { levels })
    }

    /// How many parts it was built of.
    pub fn len(&self) -> usize
        ensures { result ≡ length (tree_parts self.now) }
    {
        match self.levels.first() {
            None => 0,
            Some(level) => level.len(),
        }
    }

    /// The fold of a span of the parts, by at most two joins for each level and three; an empty span gives the unit.
    pub fn fold<F: Fold<Part = P>>(&self, fold: &F, meter: &mut F::Meter, span: Span) -> P
        requires built { IsBuiltBy (F.is_part fold.now) (F.joined fold.now) self.now }
        requires ordered { span.from ≤ span.to }
        requires within { span.to ≤ length (tree_parts self.now) }
        requires room { F.count meter.old + (2 * height (length (tree_parts self.now)) + 3) < 2 ^ 64 }
        ensures part { F.is_part fold.now result }
        ensures value { result ≡ total (F.neutral fold.now) (F.joined fold.now) (slice_range (tree_parts self.now) span.from span.to) }
        ensures not_less { F.count meter.old ≤ F.count meter.new }
        ensures joins { F.count meter.new ≤ F.count meter.old + (2 * height (length (tree_parts self.now)) + 3) }
    {
        let mut left = fold.unit();
        let mut right = fold.unit();
        let mut cut = span;
        for level in &self.levels {
            if cut.from == cut.to {
                break;
            }
            let (left_part, from) = take_left(fold, meter, level, left, cut);
            let (right_part, to) = take_right(fold, meter, level, right, Span { from, to: cut.to });
            left = left_part;
            right = right_part;
            cut = Span {
                from: from / 2,
                to: to / 2,
            };
        }
        fold.join(meter, left, right)
    }
}
