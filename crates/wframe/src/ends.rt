//! What is kept of each partition: where peers end, and where frames start and end.
ghost use Rattle.std.specs.Prelude.{◌≡◌, ◌+◌, ◌<◌, ◌≤◌, ◌^◌, ◌&&◌, length, max, slice_index, IsTrue, IfOk, OnOk, not, true};
ghost use Rattle.wframe.specs.PeerGroups.{begins_of};

use crate::bounds::{push_ends, push_starts};
use crate::frame::{Frame, FrameMode, Span};
use crate::groups::number_groups;
use crate::key_rows::KeyRows;
use crate::moves::moves_groups;
use crate::peers::{PeerEnds, push_peers};
use std::alloc::{AllocError, Global};

/// Where peers end, and in RANGE and GROUPS with an offset where frames start and end, for the rows of one partition after
/// another, by places among all rows. It is kept once for each group of peers; each row has its group's number.
/// All are numbers of 32 bits: there are fewer than 2^32 rows.
#[derive(Drop)]
pub struct FrameEnds {
    numbers: Vec<u32>,
    peer_ends: Vec<u32>,
    starts: Vec<u32>,
    ends: Vec<u32>,
}

// Where the group of a number begins: where the one before ends.
fn group_begin(ends: &[u32], number: usize) -> usize
    requires { number ≤ length ends.now }
    ensures { result ≡ slice_index (begins_of ends.now) number }
{
    if number == 0 {
        0
    } else {
        ends[number - 1] as usize
    }
}

impl FrameEnds {
    ghost use Rattle.wframe.specs.KeyRows.{key_lists, sort_keys, AreInOrder};
    ghost use Rattle.wframe.specs.Bounds.{is_offset};
    ghost use Rattle.wframe.specs.Offsets.{is_range, moves_groups};
    ghost use Rattle.wframe.specs.FrameEnds.{HasFrames, Extends, AreLong};
    ghost use Rattle.wframe.specs.Cuts.{HasNumberedCuts, BeginsWith};
    ghost use Rattle.wframe.specs.PeerGroups.{AreGroups};
    ghost use Rattle.wframe.specs.Frame.{is_before_start, is_after_end};
    ghost use Rattle.wvalues.specs.Order.{keys_cmp};

    /// Room for what is kept of so many rows with these frames, and none yet.
    pub fn with_capacity(alloc: Global, frame: Frame, rows: usize) -> Result<FrameEnds, AllocError>
        ensures { IfOk result (AreLong frame 0) }
    {
        let bounded = if moves_groups(frame) { rows } else { 0 };
        Ok(FrameEnds {
            numbers: Vec::with_capacity(alloc, rows)?,
            peer_ends: Vec::with_capacity(alloc, rows)?,
            starts: Vec::with_capacity(alloc, bounded)?,
            ends: Vec::with_capacity(alloc, bounded)?,
        })
    }

    // Adds the starts and the ends of a partition's frames, of which the peers stand.
    fn push_bounds(
        &mut self,
        groups: &mut Vec<u32>,
        rows: &KeyRows,
        frame: Frame,
        first: usize,
    ) -> Result<(), AllocError>
        requires moves { moves_groups frame ≡ true }
        requires ordered { AreInOrder rows.now }
        requires start { IsTrue (is_range frame.mode && is_offset frame.start) → length (sort_keys rows.now) ≡ 1 }
        requires end { IsTrue (is_range frame.mode && is_offset frame.end) → length (sort_keys rows.now) ≡ 1 }
        requires ends { length self.old.ends.items ≡ length self.old.starts.items }
        requires peers { AreGroups (keys_cmp (sort_keys rows.now)) (key_lists rows.now) first (length self.old.starts.items)
            (length (key_lists rows.now)) self.old.numbers.items self.old.peer_ends.items }
        requires room { first + length (key_lists rows.now) < 2 ^ 32 }
        ensures starts { OnOk result (HasNumberedCuts first (length (key_lists rows.now))
            (is_before_start (sort_keys rows.now) (key_lists rows.now) frame.mode frame.start) self.old.numbers.items
            self.new.starts.items) }
        ensures starts_stay { OnOk result (BeginsWith self.old.starts.items self.new.starts.items) }
        ensures starts_long { OnOk result (length self.new.starts.items ≡ length self.old.peer_ends.items) }
        ensures ends { OnOk result (HasNumberedCuts first (length (key_lists rows.now))
            (λ i j. not (is_after_end (sort_keys rows.now) (key_lists rows.now) frame.mode frame.end i j))
            self.old.numbers.items self.new.ends.items) }
        ensures ends_stay { OnOk result (BeginsWith self.old.ends.items self.new.ends.items) }
        ensures ends_long { OnOk result (length self.new.ends.items ≡ length self.old.peer_ends.items) }
        ensures peers { (self.new.numbers ≡ self.old.numbers) × (self.new.peer_ends ≡ self.old.peer_ends) }
    {
        let first_group = self.starts.len();
        let peers = PeerEnds::new(*rows, &self.numbers, &self.peer_ends, first, first_group);
        if frame.mode == FrameMode::Groups {
            number_groups(groups, &peers)?;
        }
        push_starts(&mut self.starts, &peers, groups, frame.mode, frame.start)?;
        push_ends(&mut self.ends, &peers, groups, frame.mode, frame.end)
    }

    /// Adds what is kept of a partition, whose first row has the place `first`. Where groups are counted, their numbers in the
    /// partition are put in `groups`.
    pub fn push_partition(
        &mut self,
        groups: &mut Vec<u32>,
        rows: &KeyRows,
        frame: Frame,
        first: usize,
    ) -> Result<(), AllocError>
        requires ordered { AreInOrder rows.now }
        requires start { IsTrue (is_range frame.mode && is_offset frame.start) → length (sort_keys rows.now) ≡ 1 }
        requires end { IsTrue (is_range frame.mode && is_offset frame.end) → length (sort_keys rows.now) ≡ 1 }
        requires first { AreLong frame first self.old }
        requires room { first + length (key_lists rows.now) < 2 ^ 32 }
        ensures frames { OnOk result (HasFrames (record {
          order = sort_keys rows.now;
          keys = key_lists rows.now;
          frame =
              frame;
        }) first self.new) }
        ensures extends { OnOk result (Extends self.old self.new) }
        ensures long { OnOk result (AreLong frame (first + length (key_lists rows.now)) self.new) }
    {
        push_peers(&mut self.numbers, &mut self.peer_ends, rows, first)?;
        if moves_groups(frame) {
            return self.push_bounds(groups, rows, frame, first);
        }
        Ok(())
    }

    /// The extent of a row's frame: what lies from its start to its end, excluded rows too.
    pub fn extent(&self, row: usize) -> Span
        requires row { row < length self.now.numbers.items }
        requires start { slice_index self.now.numbers.items row < length self.now.starts.items }
        requires end { slice_index self.now.numbers.items row < length self.now.ends.items }
        ensures from { result.from ≡ slice_index self.now.starts.items (slice_index self.now.numbers.items row) }
        ensures to { result.to ≡ max (slice_index self.now.starts.items (slice_index self.now.numbers.items row))
            (slice_index self.now.ends.items (slice_index self.now.numbers.items row)) }
    {
        let number = self.numbers[row] as usize;
        let from = self.starts[number] as usize;
        Span {
            from,
            to: from.max(self.ends[number] as usize),
        }
    }

    /// The span of a row's peers.
    pub fn peers(&self, row: usize) -> Span
        requires row { row < length self.now.numbers.items }
        requires group { slice_index self.now.numbers.items row < length self.now.peer_ends.items }
        ensures from { result.from ≡ slice_index (begins_of self.now.peer_ends.items) (slice_index self.now.numbers.items row) }
        ensures to { result.to ≡ slice_index self.now.peer_ends.items (slice_index self.now.numbers.items row) }
    {
        let number = self.numbers[row] as usize;
        Span {
            from: group_begin(&self.peer_ends, number),
            to: self.peer_ends[number] as usize,
        }
    }
}
