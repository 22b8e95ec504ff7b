//! What a node knows of all names: a set of segments, retirements, floors and disputes.
//!
//! - Gives a set of segments under one declaration: it takes segments, retirements, floors and disputes,
//!   joins what another set knows, lists the names, lends what it knows in the order of names, and gives all
//!   rows in the order of any keys, by runs of each segment that it keeps. It notes whether no two rows share some keys.
//! - Promises: a set is a view, a finite map from names to what is known of them, a floor under its own name
//!   and no name below it. Each call tells the whole view after it, at an error the one before. `take`,
//!   `retire`, `retire_to`, `dispute` and `join` are joins of views, and joining is associative,
//!   commutative and idempotent (`laws`). The floor of an origin is the greatest of those that are told. A call that teaches
//!   nothing leaves the set as it is, its runs included (the clauses `idle` of `take`, `take_beside`, `take_judged`, `retire`,
//!   `retire_to`, `dispute` and `join`). No block of a set holds more than 512 entries. `ordered` gives the one
//!   list of the rows by keys, then by name and place, and leaves the view as it is; runs are no part of it. `all_differ`
//!   says yes just where no two live rows share the keys.
//! - Asks: of `take_beside`, that both sets have one declaration; of `take_judged`, bytes that were judged by the set's; of
//!   `live_at` and `has_run`, that there is such a live name; of `all_differ`, the rows that `ordered` gives for the keys.
//! - Leaves reading to `wsegment`, runs and their merge to `wruns`, what is held of a name and the blocks of entries to
//!   `wentries`, files to `wexchange` and streams to `wstream`.
//!
//! Read `specs/Knowledge.antt` of `wentries`, `specs/Views.antt`, `specs/Items.antt`, `specs/Laws.antt`,
//! `specs/Tables.antt`, then `specs/Words.antt`, `specs/Listing.antt`, `specs/Sets.antt`, `specs/Lending.antt` and the first
//! half of `specs/Running.antt`; the others say how a set is kept.
#![tactic(auto)]

mod differing;
mod kept_order;
pub mod laws;
mod merge;
mod outcomes;
mod running;
mod set;
mod starts;
mod walk;

pub use outcomes::{JoinError, Retired, TakeError, Taken};
pub use set::SegmentSet;
pub use walk::{Lives, Names};
pub use wentries::{Kept, Known, Listed, Status};
