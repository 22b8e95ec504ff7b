//! The calls of a SELECT that are computed apart from its expressions, each once.
//!
//! - Gives `group_calls`, the aggregates without OVER, `window_calls`, the calls with OVER, and the set that holds them.
//! - Promises: a set lists its calls in the order of first sight, and tells the place of each call that is equal to one of
//!   them.
//! - How, which no clause says: adding a call, or finding its place, takes time in proportion to the call and not to the number
//!   of calls, but for calls whose hashes are made to meet.
//! - Asks nothing. A walk goes as deep as the nesting alone.
//! - Leaves to `wnodes` when two calls are equal, to `wscope` which functions are aggregates and which nodes stand below one, to
//!   `wbinding` what calls stand for.
//!
//! Read `specs/Calls.antt`, then `specs/Places.antt`.
#![tactic(auto)]

mod call_key;
mod call_set;
mod distinct_calls;
mod finding;

pub use call_set::CallSet;
pub use distinct_calls::{group_calls, window_calls};
