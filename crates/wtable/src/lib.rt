//! The rows of the table, as the live segments of a set have them, and the orders that a SELECT asks for.
//!
//! - Gives the rows that WHERE keeps, all of them or only where they are few, and their number where nothing else is asked;
//!   the orders of all rows by columns, for windows and for ORDER BY, from the runs that segments keep; the numbers of the
//!   kept rows in these orders, and the rows themselves that references tell. Where few rows of an order are asked for, it gives
//!   rows that stand for all; where no order is, the first rows as they stand.
//! - Promises: rows stand by name and then by place, and stay where they lie. WHERE is evaluated on every row, so one on
//!   which it is out of range refuses. What an order of all rows gives of the kept ones is the one that sorting them
//!   gives; where an order says that no two rows share the keys of its window, none of the kept ones do. What a set knows
//!   stays as it is; runs, cells and kept orders may be made, and let go.
//! - Asks: nothing of the rows; of a set whose rows are lent, that its cells are made (`SegmentSet::make`), else it answers that there
//!   is no memory, however much is free (`table_orders` makes them, `kept_count` needs none); of `take_presorted`, whose order it
//!   takes out, that each order is one of these rows.
//! - Leaves runs to `wruns` and `wset`, single rows to `wrows`, windows to `wcalls`, and answers to `wplanner`.
//!
//! Read `specs/Tables.antt`, `specs/TableOrders.antt`, `specs/Referenced.antt`, `specs/Leading.antt`,
//! `specs/Front.antt`, then `specs/Few.antt`.
#![tactic(auto)]

mod counting;
mod front;
mod kept_rows;
mod leading;
mod numbered_rows;
mod orders;
mod presorted;
mod referenced;

pub use counting::kept_count;
pub use front::standing_rows;
pub use kept_rows::{few_kept_rows, kept_table_rows};
pub use leading::leading_rows;
pub use numbered_rows::{NumberedRows, numbered_table_rows};
pub use orders::{TableOrder, TableOrders, asked_of, table_orders};
pub use presorted::{PresortedOrder, PresortedOrders, presorted_orders, take_presorted};
pub use referenced::referenced_rows;
