//! The fold of each row's frame, within a stated number of joins.
//!
//! - Gives the trait of lawful folds, the folds of the aggregates, and the fold of every frame of a partition.
//! - Promises: each fold is that of the frame's rows from left to right, and the meter shows each join.
//! - Asks: one column's values in the partition's order, each row's filter if there is one, room on the meter.
//! - Leaves: partitions and frames to `wframe`, results and their range to `waggregate`.
//!
//! Read `specs/Laws.antt`, `specs/Frames.antt` and `specs/Height.antt`; then `specs/Aggregates.antt` with
//! `specs/Counts.antt`, `specs/Sums.antt` and `specs/Leasts.antt`; then `specs/Queue.antt` and `specs/Tree.antt`.
#![tactic(auto)]

mod count;
mod excluded;
mod extreme;
mod filter;
mod fold;
mod frames;
mod laws;
mod meter;
mod partial_sum;
mod places;
mod plain;
mod queue;
mod ranges;
mod running;
mod sliding;
mod sum;
mod tree;
mod window;

pub use count::{Count, CountRows};
pub use extreme::Extreme;
pub use fold::Fold;
pub use frames::{FrameQueues, frame_folds, push_frame_folds};
pub use laws::{
    counts_are_exact, height_is_least, most_is_small, most_of_few_rows, picked_rows_feed_alike,
    places_are_least, sums_are_exact,
};
pub use meter::Meter;
pub use partial_sum::PartialSum;
pub use plain::plain_folds;
pub use queue::FoldQueue;
pub use ranges::see_ranges;
pub use sum::Sum;
pub use tree::FoldTree;
pub use window::push_window_folds;
