//! The peers and the frame of each row of one partition.
ghost use Rattle.std.specs.Prelude.{◌≡◌, ◌<◌, ◌≤◌, ◌+◌, ◌-◌, ℕ, [], ◌∷◌, length, max};
ghost use Rattle.wvalues.specs.Order.{keys_cmp};
ghost use Rattle.wframe.specs.Peers.{AreOrdered, are_peers, smaller_keys};
ghost use Rattle.wframe.specs.Places.{span_places, spans_places, is_in_span, AreApart, IsPlain, IsRisen};
ghost use Rattle.wframe.specs.Partition.{Partition, peer_rows};
ghost use Rattle.wframe.specs.Frame.{frame_rows, frame_start, frame_extent};
ghost use Rattle.wframe.specs.Moves.{moved_number};
ghost use Rattle.wframe.specs.Gaps.{peer_span, before_span, within_span, behind_span};

use crate::ends::FrameEnds;
use crate::exclusion::without;
use crate::frame::{Frame, FrameExclusion, FrameMode, Span};
use crate::key_rows::KeyRows;
use crate::moves::{Move, moves_groups};
use std::marker::Model;

/// One partition with the peers and the frame of each of its rows, lent by [`crate::Partitions`].
///
/// Rows are named by their places in the partition, from 0. No call takes memory.
#[derive(Drop)]
pub struct Frames<'a> {
    rows: KeyRows<'a>,
    frame: Frame,
    span: Span,
    // How far frames start and end from their rows, in ROWS, and from their rows' peers, where neither bound has an offset.
    start: Move,
    end: Move,
    // What is kept of each row.
    ends: &'a FrameEnds,
}

impl<'a> Model for Frames<'a> {
    ghost use Rattle.std.specs.Prelude.{◌≡◌, ◌+◌, length};
    ghost use Rattle.wframe.specs.Moves.{move_of};
    ghost use Rattle.wframe.specs.Partition.{Partition};
    ghost use Rattle.wframe.specs.KeyRows.{key_lists, sort_keys};
    ghost use Rattle.wframe.specs.FrameEnds.{HasFrames};

    ghost Value = { Partition };

    ghost view = { λ f. record { order = sort_keys f.rows; keys = key_lists f.rows; frame = f.frame } };

    ghost invariant = { λ f. (f.span.to ≡ f.span.from + length (key_lists f.rows))
        × (f.start ≡ move_of f.frame.start (length (key_lists f.rows)))
        × (f.end ≡ move_of f.frame.end (length (key_lists f.rows)))
        × HasFrames (record { order = sort_keys f.rows; keys = key_lists f.rows; frame = f.frame }) f.span.from f.ends.now };
}

// A span counted from a place before it.
fn counted_from(span: Span, place: usize) -> Span
    requires from { place ≤ span.from }
    requires to { place ≤ span.to }
    ensures from { result.from ≡ span.from - place }
    ensures to { result.to ≡ span.to - place }
{
    Span {
        from: span.from - place,
        to: span.to - place,
    }
}

// From the start of a span, moved, up to its end, moved, among so many rows.
fn moved_span(start: Move, end: Move, span: Span, count: usize) -> Span
    ensures from { result.from ≡ moved_number start count span.from }
    ensures to { result.to ≡ max (moved_number start count span.from) (moved_number end count span.to) }
{
    let from = start.moved(span.from, count);
    Span {
        from,
        to: from.max(end.moved(span.to, count)),
    }
}

impl<'a> Frames<'a> {
    ghost use Rattle.wframe.specs.KeyRows.{key_lists, sort_keys};
    ghost use Rattle.wframe.specs.FrameEnds.{HasFrames, IsFrameOf};
    ghost use Rattle.wframe.specs.Offsets.{moves_groups as has_moved_groups};
    ghost use Rattle.wframe.specs.Partitions.{IsGroup};
    ghost use Rattle.wframe.specs.Ties.{takes_groups};
    ghost use Rattle.wframe.specs.declared.frame.FrameMode.{FrameMode};
    ghost use Rattle.std.specs.Prelude.{true, false};

    /// The rows of a span, of which the peers and the ends are kept there.
    pub(crate) fn new(
        rows: KeyRows<'a>,
        frame: Frame,
        span: Span,
        ends: &'a FrameEnds,
    ) -> Frames<'a>
        requires span { span.to ≡ span.from + length (key_lists rows) }
        requires frames { HasFrames (record { order = sort_keys rows; keys = key_lists rows; frame = frame }) span.from ends.now }
        ensures order { result.order ≡ sort_keys rows.entry }
        ensures keys { result.keys ≡ key_lists rows.entry }
        ensures frame { result.frame ≡ frame }
    {
        let count = rows.count();
        Frames {
            rows,
            frame,
            span,
            start: Move::of(frame.start, count),
            end: Move::of(frame.end, count),
            ends,
        }
    }

    /// How many rows the partition has.
    pub fn count(&self) -> usize
        ensures count { result ≡ length self.now.keys }
        ensures ordered { AreOrdered (keys_cmp self.now.order) self.now.keys }
    {
        self.rows.count()
    }

    /// What the frames leave out.
    pub fn exclusion(&self) -> FrameExclusion
        ensures { result ≡ self.now.frame.exclusion }
    {
        self.frame.exclusion
    }

    // The peers of a row, by where they begin and where they end.
    fn found_peers(&self, row: usize) -> Span
        requires { row < length self.now.keys }
        ensures { IsGroup (keys_cmp self.now.order) self.now.keys row result }
    {
        let first = self.span.from;
        counted_from(self.ends.peers(first + row), first)
    }

    /// The peers of a row, which are never none.
    pub fn peers(&self, row: usize) -> Span
        requires { row < length self.now.keys }
        ensures peers { span_places result ≡ peer_rows self.now row }
        ensures each { (j : ℕ) → j < length self.now.keys → is_in_span result j ≡ are_peers (keys_cmp self.now.order) self.now.keys row j }
        ensures span { result ≡ peer_span self.now row }
        ensures smaller { result.from ≡ length (smaller_keys (keys_cmp self.now.order) self.now.keys row) }
        ensures from { result.from ≤ row }
        ensures to { row < result.to }
        ensures within { result.to ≤ length self.now.keys }
    {
        self.found_peers(row)
    }

    // The extent of a row's frame in ROWS: the row's place and the one behind it, moved.
    fn moved_extent(&self, row: usize) -> Span
        requires mode { self.now.frame.mode ≡ FrameMode.Rows }
        requires row { row < length self.now.keys }
        ensures { IsFrameOf self.now row result }
    {
        let count = self.rows.count();
        let alone = Span {
            from: row,
            to: row + 1,
        };
        moved_span(self.start, self.end, alone, count)
    }

    // The extent of a row's frame in RANGE and GROUPS without an offset: an end is where the row's peers end, or where the
    // partition does.
    fn peer_extent(&self, row: usize) -> Span
        requires mode { takes_groups self.now.frame.mode ≡ true }
        requires moves { has_moved_groups self.now.frame ≡ false }
        requires row { row < length self.now.keys }
        ensures { IsFrameOf self.now row result }
    {
        let peers = self.found_peers(row);
        moved_span(self.start, self.end, peers, self.rows.count())
    }

    // The extent of a row's frame in RANGE and GROUPS with an offset, as it is kept.
    fn kept_extent(&self, row: usize) -> Span
        requires moves { has_moved_groups self.now.frame ≡ true }
        requires row { row < length self.now.keys }
        ensures { IsFrameOf self.now row result }
    {
        let first = self.span.from;
        counted_from(self.ends.extent(first + row), first)
    }

    // The extent of a row's frame.
    fn found_extent(&self, row: usize) -> Span
        requires { row < length self.now.keys }
        ensures frame { IsFrameOf self.now row result }
        ensures ordered { AreOrdered (keys_cmp self.now.order) self.now.keys }
    {
        if moves_groups(self.frame) {
            return self.kept_extent(row);
        }
        match self.frame.mode {
            FrameMode::Rows => self.moved_extent(row),
            FrameMode::Range | FrameMode::Groups => self.peer_extent(row),
        }
    }

    /// The extent of a row's frame: what lies from its start to its end, excluded rows too. Where none is excluded, it is
    /// the frame.
    pub fn extent(&self, row: usize) -> Span
        requires { row < length self.now.keys }
        ensures span { result ≡ frame_extent self.now row }
        ensures ordered { result.from ≤ result.to }
        ensures within { result.to ≤ length self.now.keys }
        ensures risen { (before : ℕ) → before ≤ row → IsRisen (length self.now.keys) (frame_extent self.now before) result }
        ensures rows { self.now.frame.exclusion ≡ FrameExclusion.NoOthers → span_places result ≡ frame_rows self.now row }
    {
        self.found_extent(row)
    }

    /// The frame of a row: three spans in order, apart from one another, of which some may be empty.
    pub fn frame(&self, row: usize) -> [Span; 3]
        requires { row < length self.now.keys }
        ensures rows { spans_places result ≡ frame_rows self.now row }
        ensures apart { AreApart (frame_start self.now row) result (frame_extent self.now row).to }
        ensures within { AreApart 0 result (length self.now.keys) }
        ensures plain { self.now.frame.exclusion ≡ FrameExclusion.NoOthers → IsPlain (frame_extent self.now row) result }
        ensures list { result ≡ before_span self.now row ∷ within_span self.now row ∷ behind_span self.now row ∷ [] }
    {
        without(
            self.found_extent(row),
            self.frame.exclusion,
            row,
            self.peers(row),
        )
    }
}
