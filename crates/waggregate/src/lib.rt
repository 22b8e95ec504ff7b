//! Aggregates of rows.
//!
//! - Gives what an aggregate is fed by each row, its result over the rows of each group, and over the frame of each row
//!   of a window.
//! - Promises: nothing is skipped, so an argument or filter that is out of range on any row refuses, as a result that
//!   is out of range does; a sum is tested against the range once it is whole. Frames take at most three joins for each
//!   row, eight where rows are excluded.
//! - How, which no clause of these says: what the rows of a window feed is copied and folded some partitions at a time, so that a
//!   cache holds it (where such a batch ends, an inner clause says). What lies far apart is read some rows at a time before it is
//!   copied or put. What several aggregates come to over groups that are fed alike is found in one pass over the rows, which reads
//!   what feeds them where it lies.
//! - Asks: fewer than 2^31 rows.
//! - Leaves expressions to `wplan` and their values to `weval`, frames to `wframe` and their folds to `wslide`.
//!
//! Read `specs/Aggregating.antt`, then `specs/Feeding.antt`, `specs/Grouped.antt`, `specs/Summaries.antt`, `specs/Alike.antt`,
//! `specs/Put.antt`, `specs/FrameAnswers.antt`, `specs/BatchEnds.antt` and `specs/Batches.antt`.
#![tactic(auto)]

mod alike;
mod answers;
mod batch;
mod feeding;
mod folding;
mod grouped;
mod lent_text;
mod picking;
mod summaries;
mod tally;

pub use alike::extremes_of;
pub use answers::count_value;
pub use feeding::{Argument, Fed, argument_values, filter_rows, is_null, plain_argument};
pub use folding::put_frame_aggregates;
pub use grouped::{aggregate_groups, joined_lists};
pub use summaries::{Extremes, Summaries, summaries_for, summarize};
pub use tally::Tally;
