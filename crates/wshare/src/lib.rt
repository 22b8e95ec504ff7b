//! Windows that share an order of rows.
//!
//! - Gives `same_order`: whether two windows order rows alike, whatever their frames.
//! - Promises: it says so just where their partition values and their keys are written alike, part by part, and what is
//!   written alike says the same.
//! - Asks: nothing, and takes no memory.
//! - Leaves: orders of rows to `wcalls`, and which of them are kept to `wplanner`. Queries as they are written to `wnodes`.
//!
//! Read `specs/Sameness.antt`.
#![tactic(auto)]

mod sameness;

pub use sameness::same_order;
