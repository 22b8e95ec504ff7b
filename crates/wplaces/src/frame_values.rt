ghost use Rattle.std.specs.Prelude.{◌≡◌, ◌≤◌, ◌<◌, length, IfOk, Option, None};
ghost use Rattle.std.specs.List.{slice_get, last_or};
ghost use Rattle.wframe.specs.Places.{spans_places};
ghost use Rattle.wplaces.specs.EachRow.{each_row};
ghost use Rattle.wplaces.specs.RowPlaces.{first_place, last_place, nth_place};

use std::alloc::{AllocError, Global};
use wframe::{Frames, Span};

// The place in some spans that has so many places before it.
fn place_at(spans: &[Span], before: usize) -> Option<usize>
    ensures { result ≡ slice_get (spans_places spans.now) before }
{
    let mut left = before;
    for span in spans {
        let length = span.to.saturating_sub(span.from);
        if left < length {
            return Some(span.from + left);
        }
        left -= length;
    }
    None
}

// The last place in some spans.
fn last_place_in(spans: &[Span]) -> Option<usize>
    ensures { result ≡ last_or None (spans_places spans.now) }
{
    let mut last = None;
    for span in spans {
        if span.from < span.to {
            last = Some(span.to - 1);
        }
    }
    last
}

/// The place of the first row of a row's frame, or none where the frame is empty.
pub fn first_value_at(frames: &Frames, row: usize) -> Option<usize>
    requires { row < length frames.now.keys }
    ensures { result ≡ first_place frames.now row }
{
    place_at(&frames.frame(row), 0)
}

/// The place of the last row of a row's frame, or none where the frame is empty.
///
/// It is the last one that the exclusion leaves, also where the row itself lies outside its frame.
pub fn last_value_at(frames: &Frames, row: usize) -> Option<usize>
    requires { row < length frames.now.keys }
    ensures { result ≡ last_place frames.now row }
{
    last_place_in(&frames.frame(row))
}

/// The place of the n-th row of a row's frame, counted from 1, or none where the frame has fewer rows.
pub fn nth_value_at(frames: &Frames, row: usize, n: u64) -> Option<usize>
    requires n { 1 ≤ n }
    requires row { row < length frames.now.keys }
    ensures { result ≡ nth_place frames.now n row }
{
    place_at(&frames.frame(row), n as usize - 1)
}

/// The place of the first row of each row's frame, or none where the frame is empty.
pub fn first_value(alloc: Global, frames: &Frames) -> Result<Vec<Option<usize>>, AllocError>
    ensures { IfOk result (λ found. found.items ≡ each_row frames.now (first_place frames.now)) }
{
    (0..frames.count())
        .map(|row| first_value_at(frames, row))
        .collect(alloc)
}

/// The place of the last row of each row's frame, or none where the frame is empty.
///
/// It is the last one that the exclusion leaves, also where the row itself lies outside its frame.
pub fn last_value(alloc: Global, frames: &Frames) -> Result<Vec<Option<usize>>, AllocError>
    ensures { IfOk result (λ found. found.items ≡ each_row frames.now (last_place frames.now)) }
{
    (0..frames.count())
        .map(|row| last_value_at(frames, row))
        .collect(alloc)
}

/// The place of the n-th row of each row's frame, counted from 1, or none where the frame has fewer rows.
pub fn nth_value(alloc: Global, frames: &Frames, n: u64) -> Result<Vec<Option<usize>>, AllocError>
    requires { 1 ≤ n }
    ensures { IfOk result (λ found. found.items ≡ each_row frames.now (nth_place frames.now n)) }
{
    (0..frames.count())
        .map(|row| nth_value_at(frames, row, n))
        .collect(alloc)
}
