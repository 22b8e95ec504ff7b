//! Partitions, peers and window frames over rows that stand in order.
//!
//! - Gives each row its peers as one span, and its frame as at most three rising spans.
//! - Promises: the spans hold exactly the frame's rows, and neither end of a frame ever goes back.
//! - Asks: rows by partition values, then by window keys; one key where RANGE has an offset.
//! - Leaves: ordering, also among peers, to the planner; values to `wplaces` and `wslide`. It evaluates nothing.
//!
//! Read `specs/Places.antt`, `specs/Peers.antt` and `specs/Partition.antt`, then `specs/Bounds.antt` and
//! `specs/Frame.antt`; `specs/Partitions.antt`, `specs/Offsets.antt`, `specs/Codes.antt` and `specs/Ties.antt` say what
//! callers meet.
#![tactic(auto)]

mod ahead;
mod bounds;
mod conditions;
mod cuts;
mod ends;
mod exclusion;
mod frame;
mod frames;
mod groups;
mod key_list;
mod key_lists;
mod key_rows;
mod laws;
mod moves;
mod order;
mod partitions;
mod peers;

pub use conditions::are_in_order;
pub use cuts::{Cut, push_group_cuts};
pub use frame::{Frame, FrameBound, FrameExclusion, FrameMode, Span};
pub use frames::Frames;
pub use key_list::KeyList;
pub use key_rows::KeyRows;
pub use laws::{
    frames_are_rows, frames_slide, gaps_slide, group_numbers_step, keys_order_values, order_splits,
    peers_may_change_places, peers_share_frames, spans_reach_each_place, stable_sorts_agree,
    starts_and_ends_rise,
};
pub use order::compare_lists;
pub use partitions::Partitions;
pub use peers::{PeerEnds, push_peers};
