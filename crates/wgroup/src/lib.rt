//! Groups of rows.
//!
//! - Gives the rows of the groups of each set of columns: each group's key, then what the calls answer for it, of those
//!   groups that HAVING keeps.
//! - Promises: the groups of a set stand behind those of the sets before it, in the order of their keys, nulls last; rows
//!   are of one group where they agree on each column of the set, nulls included; the empty set has one group, also where
//!   there is no row.
//! - How, which no clause of these says: groups that are few beside the rows are found by a table, which holds every group that was
//!   seen, so that a key that is not met where it is looked for is new, and no keys make it slow. Others are found by sorting. Those
//!   of a set that is part of an earlier one are made of its groups, where these are few. A plain column is read where it lies, once
//!   for all calls without FILTER that follow each other and read it.
//! - Asks: at most 2,147,483,647 rows; of `counted_row`, a grouping that counts them and no more.
//! - Leaves aggregates to `waggregate`, expressions to `wplan` and their values to `weval`.
//!
//! Read `specs/Grouping.antt` and `specs/Laws.antt`, then `specs/Sight.antt`, `specs/Table.antt`, `specs/Held.antt`,
//! `specs/Finer.antt`, `specs/Shared.antt` and `specs/Counting.antt`.
#![tactic(auto)]

mod alike;
mod call_columns;
mod counting;
mod fed;
mod finer;
mod found;
mod group_slots;
mod grouping;
mod groups;
mod having;
mod keyed;
mod keys;
mod laws;
mod leaders;
mod seen;
mod shared;
mod sight;

pub use counting::{counted_row, counts_rows};
pub use grouping::group_rows;
pub use laws::{plain_groups, plain_keys};
