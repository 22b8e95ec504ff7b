//! The least rule of resolution that a query breaks.
//!
//! - Gives the rules of resolution with their numbers, Q10 to Q28, and the least one that a SELECT breaks.
//! - Promises: the rule that is answered is the least one that is broken, the number of sets last. The least rule of a whole
//!   query is a definition: a derived table is judged first; of the outermost query the depth of derived tables comes behind
//!   all rules but that on the number of sets.
//! - Asks of a scope that it is expanded, as each one is that is made. No memory is asked for.
//! - Leaves each rule to `wnames`, `wwindows` and `wgroupby`, what names stand for to `wscope`, and the way through derived
//!   tables and the form that execution reads to `wresolve`.
//!
//! Read `specs/Rules.antt`.
#![tactic(auto)]

mod least_rule;
mod rule;

pub use least_rule::{broken_rule, depth_rule};
pub use rule::Rule;
