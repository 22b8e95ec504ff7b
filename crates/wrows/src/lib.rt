//! What expressions come to on all rows, and rows in the order of their keys.
//!
//! - Gives the rows that a condition keeps, the values of expressions on each row, the numbers of rows in the order of
//!   keys, and the items of rows in that order, cut by OFFSET and LIMIT, also of rows with columns behind their cells. The
//!   order may be presorted, and then nothing is sorted. A `Condition` is made ready once to be judged on many rows.
//! - Promises: nothing is skipped, so a number that is out of range on any row refuses; ties are broken by number.
//! - How, which no clause says: where few rows are asked for, these alone are found. Items that are all plain columns are read
//!   behind the sort, of the rows that are asked for. What lies far apart is read some rows at a time before it is copied.
//!   Where columns stand behind the cells of rows, one row with what stands there lies in memory at a time (`joined_items`).
//! - Asks: an order for each key.
//! - Leaves expressions to `wplan` and their values to `weval`, sorting to `wsort`, and groups, windows and whole queries to
//!   `wplanner`.
//!
//! Read `specs/Outcomes.antt`, `specs/Columns.antt`, `specs/Sorting.antt` and `specs/Plain.antt`, then
//! `specs/Laid.antt`, `specs/Picked.antt` and `specs/Extended.antt`.
#![tactic(auto)]

mod batches;
mod cells;
mod condition;
mod copied;
mod extended;
mod fault;
mod first_rows;
mod items;
mod joined;
mod keyed;
mod lent;
mod listing;
mod place_values;
mod presorted;
mod rows;
mod values;

pub use batches::{batch_end, copy_of, is_text};
pub use cells::{Cells, gathered, push_row};
pub use condition::Condition;
pub use fault::AnswerFault;
pub use items::{Asked, asked_for, joined_items};
pub use lent::lent_rows;
pub use listing::lists;
pub use place_values::{cells_at, place_of, places_of};
pub use presorted::presorted_items;
pub use rows::{MOST_ROWS, kept_rows, not_too_many};
pub use values::holds;
pub use wsort::{CodedOrder, numbers, order_by_codes, resorted_numbers, slice_of, sorted_numbers};
