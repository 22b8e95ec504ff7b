//! Columns: what each row has, by the numbers of the rows, however it is kept.
//!
//! - Gives columns of values, of counts, and of values that other rows have, what a column has for a row, and copies of plain columns.
//! - Promises: what a column has is read where it lies, and takes no memory. Counts, and numbers of other rows, are of 32 bits.
//! - Asks: where a null is lent for a row that is not there, that it is one.
//! - Leaves: what the columns are to `wcalls`, which makes them, and how they are printed to `wprinted`.
//!
//! Read `specs/Columns.antt`, then `specs/Near.antt`.
#![tactic(auto)]

mod column;
mod field;
mod near;
mod other_rows;
mod values;

pub use column::{Column, LentColumn};
pub use field::Field;
pub use near::{NearColumn, lie_apart, near_column};
pub use other_rows::OtherRows;
pub use values::{ColumnValues, value_of_row, value_or_null};
