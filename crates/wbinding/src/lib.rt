//! Expressions, aggregates and window functions of a query, with each name bound to its place in a row.
//!
//! - Gives `RowLayout`, which says how a row is laid out, and `build`, `build_listed`, `build_option`, `build_group_call` and
//!   `build_function`, which make what stands in a query over such a row, and `build_elements`, which makes GROUP BY's
//!   elements. The forms are those of `wplan` and `wgroupby`.
//! - Promises: what is made says what was lent: each column the cell that the row has it in, each call the cell of its answer,
//!   behind the row's own; each argument and filter its expression, and each default that is left out what the standard and
//!   PostgreSQL have for it. Columns of GROUP BY and of GROUPING are places in the source's row. Names and calls that a row
//!   does not have are places behind it.
//! - Asks nothing. Memory is asked for what is made alone; a walk goes as deep as the nesting alone.
//! - Leaves to `wscope` which column a name is, to `wgroupby` the sets of GROUP BY, to `wdistinct` which calls a row has, to
//!   `wresolve` the SELECT around them.
//!
//! Read `specs/Resolving.antt`, `specs/Functions.antt`, `specs/Groups.antt`, `specs/Lookups.antt`.
#![tactic(auto)]

mod arguments;
mod bound_expressions;
mod functions;
mod groups;
mod layout;
mod lookups;
mod resolving;

pub use functions::{build_function, build_option};
pub use groups::{build_elements, build_group_call};
pub use layout::{RowCalls, RowLayout};
pub use resolving::{build, build_listed};
