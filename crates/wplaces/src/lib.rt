//! Ranks, and places in a partition or a frame.
//!
//! - Gives, for a row of one partition or for each, its number, rank or tile, or the place of the row whose value a call
//!   tells. Numbers count from 1, places from 0, both in the partition's order. The answer for one row makes no list.
//! - Promises: the answers are the counts and places of the definitions. The one error is that memory was refused
//!   for a list.
//! - Asks: at least one tile for `ntile`, and a count from 1 on for `nth_value`. Which of several peers comes first is
//!   the caller's choice: ranks do not tell it, the other answers do.
//! - Leaves: values and nulls to the caller. A place is none where there is no such row, for a default or a null.
//!
//! Read `specs/EachRow.antt`, `specs/Ranks.antt`, `specs/Tile.antt`, then `specs/RowPlaces.antt`.
#![tactic(auto)]

mod frame_values;
mod laws;
mod offsets;
mod ranks;
mod tiles;

pub use frame_values::{
    first_value, first_value_at, last_value, last_value_at, nth_value, nth_value_at,
};
pub use laws::{ranks_tell_first_peers, ranks_tell_keys_alone, tiles_share_the_rows};
pub use offsets::{lag, lag_at, lead, lead_at};
pub use ranks::{dense_rank, next_dense_rank, rank, rank_at, row_number, row_number_at};
pub use tiles::{ntile, ntile_at};
