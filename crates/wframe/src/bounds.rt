//! The ends of frames in RANGE and GROUPS, one for each group of peers, as tests of places.
ghost use Rattle.std.specs.Prelude.{◌≡◌, ◌&&◌, ◌+◌, ◌<◌, ◌^◌, true, not, length, IsTrue, OnOk};
ghost use Rattle.wvalues.specs.Order.{keys_cmp};
ghost use Rattle.wframe.specs.KeyRows.{key_lists, sort_keys};
ghost use Rattle.wframe.specs.Bounds.{is_offset};
ghost use Rattle.wframe.specs.Offsets.{is_range, is_groups};
ghost use Rattle.wframe.specs.Ties.{takes_groups};
ghost use Rattle.wframe.specs.Numbered.{AreNumbered};
ghost use Rattle.wframe.specs.Cuts.{HasNumberedCuts, BeginsWith};
ghost use Rattle.wframe.specs.Frame.{is_before_start as before_start, is_after_end as after_end};

use crate::cuts::{Cut, push_group_cuts};
use crate::frame::{FrameBound, FrameMode};
use crate::order::{is_after_end, is_before_start, key_is_after_end, key_is_before_start};
use crate::peers::PeerEnds;
use std::alloc::AllocError;

// Which rows lie before the start of a row's frame, in a mode that takes peers in together.
#[derive(Drop)]
struct Starts<'a> {
    peers: PeerEnds<'a>,
    groups: &'a [u32],
    mode: FrameMode,
    bound: FrameBound,
    ghost together: { takes_groups mode ≡ true },
    ghost numbered: { IsTrue (is_groups mode) → AreNumbered (keys_cmp (sort_keys peers.rows)) (key_lists peers.rows) groups.now },
    ghost one_key: { IsTrue (is_range mode && is_offset bound) → length (sort_keys peers.rows) ≡ 1 },
}

impl<'a> Cut for Starts<'a> {
    ghost row_count = { λ s. length (key_lists s.peers.rows) };

    ghost passes = { λ s. before_start (sort_keys s.peers.rows) (key_lists s.peers.rows) s.mode s.bound };

    fn is_passed(&self, row: usize, place: usize) -> bool {
        let rows = self.peers.rows();
        match self.mode {
            FrameMode::Rows => is_before_start(self.bound, row, place),
            FrameMode::Range => {
                key_is_before_start(rows.keys(), self.bound, &rows.row(row), &rows.row(place))
            }
            FrameMode::Groups => {
                let group = self.groups[row] as usize;
                is_before_start(self.bound, group, self.groups[place] as usize)
            }
        }
    }

    fn end_of_equals(&self, row: usize) -> usize {
        self.peers.end(row)
    }
}

// Which rows do not lie after the end of a row's frame, in a mode that takes peers in together.
#[derive(Drop)]
struct Ends<'a> {
    peers: PeerEnds<'a>,
    groups: &'a [u32],
    mode: FrameMode,
    bound: FrameBound,
    ghost together: { takes_groups mode ≡ true },
    ghost numbered: { IsTrue (is_groups mode) → AreNumbered (keys_cmp (sort_keys peers.rows)) (key_lists peers.rows) groups.now },
    ghost one_key: { IsTrue (is_range mode && is_offset bound) → length (sort_keys peers.rows) ≡ 1 },
}

impl<'a> Cut for Ends<'a> {
    ghost row_count = { λ s. length (key_lists s.peers.rows) };

    ghost passes = { λ s i j. not (after_end (sort_keys s.peers.rows) (key_lists s.peers.rows) s.mode s.bound i j) };

    fn is_passed(&self, row: usize, place: usize) -> bool {
        let rows = self.peers.rows();
        match self.mode {
            FrameMode::Rows => !is_after_end(self.bound, row, place),
            FrameMode::Range => {
                !key_is_after_end(rows.keys(), self.bound, &rows.row(row), &rows.row(place))
            }
            FrameMode::Groups => {
                let group = self.groups[row] as usize;
                !is_after_end(self.bound, group, self.groups[place] as usize)
            }
        }
    }

    fn end_of_equals(&self, row: usize) -> usize {
        self.peers.end(row)
    }
}

/// Adds, for each group of peers, how many rows lie before the start that a bound gives their frames, counted on from the first
/// row's place, in a mode that takes peers in together: they have one start.
pub fn push_starts(
    starts: &mut Vec<u32>,
    peers: &PeerEnds,
    groups: &[u32],
    mode: FrameMode,
    bound: FrameBound,
) -> Result<(), AllocError>
    requires together { takes_groups mode ≡ true }
    requires numbered { IsTrue (is_groups mode) → AreNumbered (keys_cmp (sort_keys peers.now.rows)) (key_lists peers.now.rows) groups.now }
    requires one_key { IsTrue (is_range mode && is_offset bound) → length (sort_keys peers.now.rows) ≡ 1 }
    requires first { length starts.old.items ≡ peers.now.first_group }
    requires room { peers.now.first + length (key_lists peers.now.rows) < 2 ^ 32 }
    ensures cuts { OnOk result (HasNumberedCuts peers.now.first (length (key_lists peers.now.rows))
        (before_start (sort_keys peers.now.rows) (key_lists peers.now.rows) mode bound) peers.now.numbers.now starts.new.items) }
    ensures stays { OnOk result (BeginsWith starts.old.items starts.new.items) }
    ensures long { OnOk result (length starts.new.items ≡ length peers.now.ends.now) }
{
    let test = Starts {
        peers: *peers,
        groups,
        mode,
        bound,
    };
    push_group_cuts(starts, &test, peers)
}

/// Adds, for each group of peers, how many rows do not lie after the end that a bound gives their frames, counted on from the
/// first row's place, in a mode that takes peers in together: they have one end.
pub fn push_ends(
    ends: &mut Vec<u32>,
    peers: &PeerEnds,
    groups: &[u32],
    mode: FrameMode,
    bound: FrameBound,
) -> Result<(), AllocError>
    requires together { takes_groups mode ≡ true }
    requires numbered { IsTrue (is_groups mode) → AreNumbered (keys_cmp (sort_keys peers.now.rows)) (key_lists peers.now.rows) groups.now }
    requires one_key { IsTrue (is_range mode && is_offset bound) → length (sort_keys peers.now.rows) ≡ 1 }
    requires first { length ends.old.items ≡ peers.now.first_group }
    requires room { peers.now.first + length (key_lists peers.now.rows) < 2 ^ 32 }
    ensures cuts { OnOk result (HasNumberedCuts peers.now.first (length (key_lists peers.now.rows))
        (λ i j. not (after_end (sort_keys peers.now.rows) (key_lists peers.now.rows) mode bound i j)) peers.now.numbers.now
        ends.new.items) }
    ensures stays { OnOk result (BeginsWith ends.old.items ends.new.items) }
    ensures long { OnOk result (length ends.new.items ≡ length peers.now.ends.now) }
{
    let test = Ends {
        peers: *peers,
        groups,
        mode,
        bound,
    };
    push_group_cuts(ends, &test, peers)
}
