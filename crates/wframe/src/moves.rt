//! How far a bound moves a number of rows or of groups.
ghost use Rattle.std.specs.Prelude.{◌≡◌, min};
ghost use Rattle.wframe.specs.Bounds.{is_offset};
ghost use Rattle.wframe.specs.Moves.{move_of, moved_number};
ghost use Rattle.wframe.specs.Offsets.{moves_groups as has_moved_groups};

use crate::frame::{Frame, FrameBound, FrameMode};

/// How far a bound lies below or above a number, among so many numbers.
#[derive(Clone, Copy)]
pub struct Move {
    up: usize,
    down: usize,
}

impl Move {
    /// How far a bound lies from a number, among so many numbers.
    pub fn of(bound: FrameBound, count: usize) -> Move
        ensures { result ≡ move_of bound count }
    {
        // An offset that reaches past all numbers is cut.
        let (up, down) = match bound {
            FrameBound::UnboundedPreceding => (0, count),
            FrameBound::Preceding(offset) => (0, offset.min(count as u128) as usize),
            FrameBound::CurrentRow => (0, 0),
            FrameBound::Following(offset) => (offset.min(count as u128) as usize, 0),
            FrameBound::UnboundedFollowing => (count, 0),
        };
        Move { up, down }
    }

    /// A number moved, up to the count of all numbers.
    pub fn moved(self, number: usize, count: usize) -> usize
        ensures { result ≡ moved_number self count number }
    {
        let raised = number.saturating_add(self.up).min(count);
        raised.saturating_sub(self.down)
    }
}

// Whether a bound is moved from a row by an offset.
fn is_offset(bound: FrameBound) -> bool
    ensures { result ≡ is_offset bound }
{
    matches!(bound, FrameBound::Preceding(_) | FrameBound::Following(_))
}

/// Whether a frame moves keys or group numbers. One that does not ends where the row's peers do, at the first row or at the
/// last one; in ROWS the row's place is moved.
pub fn moves_groups(frame: Frame) -> bool
    ensures { result ≡ has_moved_groups frame }
{
    match frame.mode {
        FrameMode::Rows => false,
        FrameMode::Range | FrameMode::Groups => is_offset(frame.start) || is_offset(frame.end),
    }
}
