//! Windows with what they copy.

use wquery::{Expression, Frame, Key};

/// A window with the partitioning and ordering that it copies.
#[derive(Clone, Copy, Drop)]
pub struct FullWindow<'a> {
    pub partition: &'a [Expression],
    pub order: &'a [Key],
    /// Its own frame clause. No frame is copied.
    pub frame: Option<&'a Frame>,
}

/// A WINDOW entry with what it copies.
#[derive(Clone, Copy, Drop)]
pub struct FullEntry<'a> {
    pub name: &'a str,
    pub window: FullWindow<'a>,
}
