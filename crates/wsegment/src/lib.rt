//! The typed rows of a segment's bytes, or the first fault.
//!
//! - Gives a table's declaration, read from its one spelling, and the rows of a segment, read from CSV: their cells, or their
//!   number alone.
//! - Promises: a schema is what its text spells and nothing else is; a segment has exactly the rows of its bytes,
//!   in the order of the table's columns; a fault is the first one in reading order, whether cells are made or not.
//! - Asks: a row and a column in range, of `Segment::row` and `Segment::value` alone.
//! - Leaves names, sets and files to `wset` and `wexchange`.
//!
//! Read `specs/Declaration.antt`, `specs/Spelling.antt`, then `specs/Integer.antt`, `specs/Cells.antt`,
//! `specs/Header.antt`, `specs/Rows.antt`, `specs/Judging.antt` and `specs/Table.antt`.
#![tactic(auto)]

mod cell;
mod column;
mod fault;
mod field;
mod header;
mod judged;
mod judging;
mod kind;
mod laws;
mod records;
mod rows;
mod schema;
mod schema_fault;
mod segment;
mod segment_rows;
mod spelling;
mod texts;

pub use column::Column;
pub use fault::SegmentFault;
pub use judged::{Judged, LONGEST_SEGMENT};
pub use kind::Kind;
pub use laws::{one_spelling, rows_need_no_memory, values_stand_under_their_names};
pub use schema::Schema;
pub use schema_fault::SchemaFault;
pub use segment::Segment;
pub use segment_rows::SegmentRows;
