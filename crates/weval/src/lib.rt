//! The value of an expression on a row.
//!
//! - Gives `eval`, the value or the truth of an expression over a row's values, `truth_on`, what it says as a condition, and
//!   `number_tests`, the tests that decide a condition which compares what a row has at places with numbers.
//! - Promises: each answers what the expression comes to, or that a part of it is out of range. Nothing is skipped; `eval` and
//!   `truth_on` take no memory but the count of a shared text, `number_tests` that of its list, and each goes as deep as the
//!   nesting alone. A condition that has tests is out of range on no row, and true just where all of them pass; which conditions
//!   have some is told.
//! - Asks: nothing. A place that a row lacks is null, and a value of the wrong type is null or unknown.
//! - Leaves: the form of expressions to `wplan`, lists of rows to `wrows`.
//!
//! Read `specs/Values.antt`, `specs/Cells.antt` and `specs/Conditions.antt`, then `specs/Reads.antt`, `specs/Leaves.antt` and
//! `specs/NumberTests.antt`; `specs/Joining.antt` is of its parts alone.
#![tactic(auto)]

mod cell;
mod comparing;
mod evaluating;
mod judging;
mod leaves;
mod operating;

pub use cell::{Cell, EvalFault};
pub use comparing::{NumberTest, NumberTests, number_tests};
pub use evaluating::eval;
pub use judging::truth_on;
