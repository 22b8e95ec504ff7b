//! The WINDOW entries that a window may copy.

use crate::window_index::WindowIndex;

/// The WINDOW entries before a place, or all of them.
#[derive(Clone, Copy, Drop)]
pub struct Earlier<'a, 'b> {
    pub index: &'b WindowIndex<'a>,
    pub before: Option<usize>,
}
