//! The rows of a segment in the order of keys that are plain columns, and of many segments as one list.
//!
//! - Gives runs, the runs that are kept of a segment, and the rows of several segments in order, from a run of each: `merge`
//!   takes them row by row, `ordered` a group of equal keys at a time. Where segments have no runs yet, `deal_runs` sorts the rows of
//!   all at once, and deals each segment's run out of that order. `all_differ` tells of rows in order whether two share keys.
//! - Promises: a run is the one list of its segment's rows by its keys and then by place, whoever kept it; rows of several
//!   segments are the one list by keys, then by segment and place. What groups save is measured, not promised.
//! - Asks: runs by the keys that the rows are put in order by, of the segments that they are handed with; of `all_differ`, rows
//!   in that order.
//! - Leaves names, sets and what is asked to `wset` and `wplanner`.
//!
//! Read `specs/Runs.antt`, `specs/Refs.antt`, then `specs/KeptRuns.antt`; `specs/Heads.antt` and `specs/Cuts.antt` say how
//! groups stand for rows, `specs/Dealing.antt` what is dealt, `specs/Orderings.antt` what an ordering is good for, and
//! `specs/Differing.antt` which rows differ by their keys.
#![tactic(auto)]

mod dealing;
mod differing;
mod heads;
mod kept_runs;
mod key_columns;
mod laws;
mod merging;
mod ordering;
mod refs;
mod run;
mod segment_cells;
mod segment_run;

pub use dealing::{Dealt, deal_runs};
pub use differing::all_differ;
pub use kept_runs::KeptRuns;
pub use laws::{kept_rows_differ, kept_rows_stay_in_order, runs_order_windows};
pub use merging::merge;
pub use ordering::ordered;
pub use refs::RowRef;
pub use run::{Run, sort_run};
pub use segment_run::SegmentRun;
