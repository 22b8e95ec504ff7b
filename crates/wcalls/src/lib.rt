//! Calls with OVER.
//!
//! - Gives what the functions of a window answer for each row, in columns of `wcolumns`.
//! - Promises: the answers stand by the rows' numbers, whatever the order of the window; among peers the rows stand by
//!   number; partition values, keys and arguments that are out of range on any row refuse, as results out of range do.
//! - Asks: fewer than 2^31 rows, one key where RANGE has an offset, at least one tile, a place from 1 on.
//! - Leaves frames to `wframe`, places to `wplaces`, aggregates to `waggregate`.
//!
//! Rows are put into the order of a window once, which serves each window of the same partition values and keys; where the
//! rows are presorted in it, nothing is sorted, and where it is known that no two of them share their keys, these are not
//! compared either. Partition values and keys that are plain columns are lent from the rows, and only what is worked out is
//! kept with the order. Each function answers one partition after another there, and each answer is put at its row's number in
//! the function's column. A function that is no aggregate keeps a number there, a count or that of the row which it reads: one list a
//! function, whatever the number of partitions, and one of the values of an argument that is more than a plain column. Values are made
//! of such columns where they are asked for (`listed_columns`). Where many rows lie apart in the order, the plain columns that functions
//! read are copied first, so that their values lie side by side.
//!
//! Read `specs/Frames.antt`, `specs/Windows.antt`, `specs/Calls.antt` and `specs/Functions.antt`, then
//! `specs/Ordered.antt`, `specs/PresortedRows.antt`, `specs/Arranged.antt`, `specs/Listed.antt`, `specs/Kept.antt` and
//! `specs/ListedValues.antt`; `specs/Sound.antt` says what is asked.
#![tactic(auto)]

mod aggregated;
mod arranged;
mod counts;
mod function_columns;
mod functions;
mod limits;
mod listing;
mod near;
mod other_rows;
mod parts;
mod plain_lists;
mod room;
mod row_function;
mod row_keys;
mod row_lists;
mod values;
mod window_order;

pub use function_columns::window_columns;
pub use listing::{ListedColumn, lent_columns, listed_columns};
pub use parts::{key_orders, key_values};
pub use window_order::{Presorted, WindowOrder, share_order};
