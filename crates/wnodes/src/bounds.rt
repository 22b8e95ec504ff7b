//! The bounds of a frame.

ghost use Rattle.std.specs.Prelude.{◌≡◌};
ghost use Rattle.wnodes.specs.Bounds.{place_of_bound, end_of};

use wquery::{Frame, FrameBound};

/// The place of a bound among the kinds of bound.
pub fn bound_place(bound: &FrameBound) -> u8
    ensures { result ≡ place_of_bound bound.now }
{
    match bound {
        FrameBound::UnboundedPreceding => 0,
        FrameBound::Preceding(_) => 1,
        FrameBound::CurrentRow => 2,
        FrameBound::Following(_) => 3,
        FrameBound::UnboundedFollowing => 4,
    }
}

/// The end of a frame, CURRENT ROW where it was left out.
pub fn frame_end(frame: &Frame) -> FrameBound
    ensures { result ≡ end_of frame.now }
{
    match &frame.end {
        None => FrameBound::CurrentRow,
        Some(end) => *end,
    }
}
