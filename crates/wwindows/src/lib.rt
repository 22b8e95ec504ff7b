//! The rules of resolution on windows, places in ORDER BY, and limits.
//!
//! - Gives a walk for each of the rules Q19 to Q24, Q26 and Q27, but for the depth of derived tables. Each family of rules
//!   has one file in `src/` and one in `specs/`.
//! - Promises: each walk answers whether its rule is broken by the query of a scope and its WINDOW entries with what they
//!   copy, used or not. Each rule is one definition, judged under the premise that those before it hold.
//! - Asks of a scope, for Q20 alone, that it is expanded, as each one is that is made. A walk takes no memory, and time in
//!   proportion to the query, where a window is found by its name, and an entry of a name that an earlier one has, in the
//!   logarithm of their number.
//! - Leaves the rules on names, calls and types to `wnames`, the lengths of GROUP BY's lists and the number of its sets to
//!   `wgroupby`, the order of all rules and derived tables to `wrules`.
//!
//! Read `specs/Windows.antt`, `specs/Order.antt` and `specs/Limits.antt`.
#![tactic(auto)]

mod counting;
mod limits;
mod order;
mod windows;

pub use limits::exceeds_limits;
pub use order::has_wrong_place;
pub use windows::{
    bounds_wrongly, copies_wrongly, has_unordered_groups, has_wrong_range_key,
    names_unknown_window, repeats_windows,
};
