//! Rows in the order of their keys, by codes.
//!
//! - Gives the numbers of rows in the order of their keys, the first few of them, and the order of rows by two given lists of codes.
//! - Promises: the one order of the rows by their keys, in which ties are broken by number.
//! - How, which no clause says: rows are sorted by codes of 32 bits. Rows of two keys are bucketed by the first and sorted there by
//!   the second, where the first has few values, and else rows are sorted a key at a time, the last one first. Rows that stand in
//!   order are only looked at.
//! - Asks: an order for each key; for rows by number, keys that are laid out one row after another.
//! - Leaves: the codes of a column's values to `wcodes`, and what keys come to on a row to `wrows`.
//!
//! Read `specs/LaidRows.antt` and `specs/Ordered.antt`; `specs/CodedRows.antt` of `wcodes` says what is sorted,
//! `specs/Bucketed.antt` how, and `specs/Selected.antt` where the first rows are found.
#![tactic(auto)]

mod bucketing;
mod cells;
mod coded;
mod keyed;
mod order;
mod selected;
mod two_codes;

pub use cells::slice_of;
pub use coded::{CodedRow, sort_by_codes};
pub use keyed::{Keyed, LaidKeys};
pub use order::{numbers, resorted_numbers, sorted_numbers};
pub use selected::selected_numbers;
pub use two_codes::{CodedOrder, order_by_codes};
