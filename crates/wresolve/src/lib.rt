//! A query that breaks no rule, with each name and default resolved: the form that execution reads.
//!
//! - Gives `resolve`. The form is `wplan`'s.
//! - Promises: what is answered says just what the query that was lent says, SELECT by SELECT, the innermost first: each
//!   column its place, the sets of GROUP BY and its columns, each once, each window with what it copies, each call once, each
//!   key of ORDER BY the item or the expression that it names. A refused query is answered the least rule that it breaks.
//! - Asks nothing. Memory is asked for scopes, the columns of sources and what is made; a walk goes as deep as the nesting alone.
//! - How, which no clause says: each SELECT is judged and resolved at most once, by one scope, which is let go before that of
//!   the next is made.
//! - Leaves the rules to `wrules`, names and windows to `wscope`, the sets of GROUP BY to `wgroupby`, which calls there are to
//!   `wdistinct`, expressions, aggregates and functions to `wbinding`, values to `weval`, the meaning of a query to `wplanner`.
//!
//! Read `specs/Shown.antt`, `specs/Selecting.antt`, `specs/Outcomes.antt`, then `specs/Judging.antt`.
#![tactic(auto)]

mod laws;
mod made;
mod query;
mod resolve_fault;
mod selecting;
mod shown;
mod windows;

pub use laws::grouped_alike;
pub use query::resolve;
pub use resolve_fault::ResolveFault;
