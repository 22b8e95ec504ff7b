//! The frame clause of a window, and spans of places.

/// What a frame counts: rows, distances between keys, or groups of peers.
#[derive(Clone, Copy, Debug, PartialEq, Eq)]
pub enum FrameMode {
    Rows,
    Range,
    Groups,
}

/// One end of a frame. An offset counts rows in ROWS, units of the key in RANGE, and peer groups in GROUPS.
#[derive(Clone, Copy, Debug, PartialEq, Eq)]
pub enum FrameBound {
    UnboundedPreceding,
    Preceding(u128),
    CurrentRow,
    Following(u128),
    UnboundedFollowing,
}

/// What a frame leaves out: the row itself, the row and its peers, its peers alone, or nothing.
#[derive(Clone, Copy, Debug, PartialEq, Eq)]
pub enum FrameExclusion {
    CurrentRow,
    Group,
    Ties,
    NoOthers,
}

/// The frame clause of a window, with its defaults written out.
#[derive(Clone, Copy, Debug, PartialEq, Eq)]
pub struct Frame {
    pub mode: FrameMode,
    pub start: FrameBound,
    pub end: FrameBound,
    pub exclusion: FrameExclusion,
}

/// Places one after another, counted from 0.
#[derive(Clone, Copy, Debug, PartialEq, Eq)]
pub struct Span {
    /// The first place.
    pub from: usize,
    /// The place after the last one: it is not in the span, which is empty where it equals `from`.
    pub to: usize,
}
