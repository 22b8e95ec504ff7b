//! The text of an answer's rows: comma-separated values.
//!
//! - Gives the header line of output names and one line for each row, of the values at some places of it, and of no others. A row
//!   may have behind its cells what some columns have for it, however they are kept.
//! - Promises: the text is the lines of its names and rows, whatever they hold. That values and counts are read where they lie, no
//!   clause says.
//! - Asks: nothing. A value that is not there, as a row has no such place, is a null.
//! - Leaves which rows and places these are to `wplanner`.
//!
//! Read `specs/Printing.antt`, then `specs/Beside.antt`.
#![tactic(auto)]

mod ahead;
mod batch;
mod field;
mod line;
mod printed;
mod printing;
mod row;
mod rows;

pub use printing::print_rows;
pub use row::Row;
pub use rows::{Layout, PickedRows, Rows, RowsBeside};
