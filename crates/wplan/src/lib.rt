//! Queries with each name and default resolved.
//!
//! - Gives the form of a query that execution reads: a list of SELECTs, the innermost first, with places for names.
//! - Promises: what the form says, wherever its parts lie in memory, is `formula` and `plans`. Constants of an IN have what their
//!   list has, number by number and text by text.
//! - Asks: nothing.
//! - Leaves: resolving to `wresolve`, values of expressions to `weval`, which windows share an order to `wshare`, the meaning
//!   of a whole query to `wplanner`.
//!
//! Read `specs/Formula.antt`, then `specs/Plans.antt`. `specs/Parts.antt` is for those who compare expressions part by part.
#![tactic(auto)]

mod constants;
mod expr;
mod resolved;

pub use constants::Constants;
pub use expr::{Expr, Further};
pub use resolved::{
    Aggregate, AggregateFunction, CallOver, GroupCall, Grouping, Output, Resolved, ResolvedFrame,
    ResolvedKey, ResolvedWindow, Selection, WindowFunction,
};
