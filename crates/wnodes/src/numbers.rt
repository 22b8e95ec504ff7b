//! The numbers of operators, null places and frame marks, and frames that are equal.

ghost use Rattle.std.specs.Prelude.{◌≡◌, Some};
ghost use Rattle.wnodes.specs.Sameness.{same_bool, same_frame as is_same_frame, same_bound as is_same_bound};
ghost use Rattle.wnodes.specs.Sameness.{operator_number as number_of_operator};
ghost use Rattle.wnodes.specs.Sameness.{nulls_number as number_of_nulls, mode_number as number_of_mode};
ghost use Rattle.wnodes.specs.Sameness.{exclusion_number as number_of_exclusion, offset_in};

use crate::bounds::{bound_place, frame_end};
use wquery::{Frame, FrameBound, FrameExclusion, FrameMode, NullOrder, Operator};

/// The number of an operator among the operators.
pub(crate) fn operator_number(operator: Operator) -> u8
    ensures { result ≡ number_of_operator operator }
{
    match operator {
        Operator::Or => 0,
        Operator::And => 1,
        Operator::Plus => 2,
        Operator::Minus => 3,
        Operator::Times => 4,
    }
}

/// The number of a place of nulls. One that is stated is not that of none.
pub(crate) fn nulls_number(nulls: Option<NullOrder>) -> u8
    ensures { result ≡ number_of_nulls nulls }
{
    match nulls {
        None => 0,
        Some(NullOrder::First) => 1,
        Some(NullOrder::Last) => 2,
    }
}

/// The number of what a frame counts.
pub(crate) fn mode_number(mode: FrameMode) -> u8
    ensures { result ≡ number_of_mode mode }
{
    match mode {
        FrameMode::Rows => 0,
        FrameMode::Range => 1,
        FrameMode::Groups => 2,
    }
}

/// The number of an exclusion. EXCLUDE NO OTHERS is as nothing.
pub(crate) fn exclusion_number(exclusion: Option<FrameExclusion>) -> u8
    ensures { result ≡ number_of_exclusion exclusion }
{
    match exclusion {
        None => 0,
        Some(FrameExclusion::NoOthers) => 0,
        Some(FrameExclusion::CurrentRow) => 1,
        Some(FrameExclusion::Group) => 2,
        Some(FrameExclusion::Ties) => 3,
    }
}

/// The offset of a bound, 0 where it has none.
pub(crate) fn bound_offset(bound: &FrameBound) -> u128
    ensures { result ≡ offset_in bound.now }
{
    match bound {
        FrameBound::Preceding(n) => n.get(),
        FrameBound::Following(n) => n.get(),
        _ => 0,
    }
}

/// Whether two flags are equal.
pub(crate) fn same_flag(a: bool, b: bool) -> bool
    ensures { result ≡ same_bool a b }
{
    if a { b } else { !b }
}

fn same_bound(a: &FrameBound, b: &FrameBound) -> bool
    ensures { result ≡ is_same_bound a.now b.now }
{
    bound_place(a) == bound_place(b) && bound_offset(a) == bound_offset(b)
}

fn same_frames(a: &Frame, b: &Frame) -> bool
    ensures { result ≡ is_same_frame (Some a.now) (Some b.now) }
{
    if mode_number(a.mode) != mode_number(b.mode) {
        return false;
    }
    if !same_bound(&a.start, &b.start) {
        return false;
    }
    if !same_bound(&frame_end(a), &frame_end(b)) {
        return false;
    }
    exclusion_number(a.exclusion) == exclusion_number(b.exclusion)
}

pub(crate) fn same_frame(a: &Option<Frame>, b: &Option<Frame>) -> bool
    ensures { result ≡ is_same_frame a.now b.now }
{
    match (a, b) {
        (None, None) => true,
        (Some(f), Some(g)) => same_frames(f, g),
        _ => false,
    }
}
