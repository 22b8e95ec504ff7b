//! The rules of resolution on names, calls, types and groups.
//!
//! - Gives a walk for each of the rules Q10 to Q18 and Q25, and the words in which they are said: calls with OVER,
//!   aggregates without OVER and GROUPING, grouped queries. Each family of rules has one file in `src/` and one in `specs/`.
//! - Promises: each walk answers whether its rule is broken by the query of a scope. Each rule is one definition, judged
//!   under the premise that those before it hold. What the rule on types asks of a form of expression is read from the
//!   form's signature in `wscope`; a law says it form by form.
//! - Asks nothing. A walk takes no memory, and time in proportion to the query and to the number of its columns; each name
//!   that is sought in a scope takes time in proportion to the logarithm of the number of names. No time depends on a hash.
//! - Leaves the rules on windows and limits to `wwindows`, their order and derived tables to `wrules`.
//!
//! Read `specs/Names.antt`, `specs/Calls.antt`, `specs/Types.antt`, `specs/Groups.antt`, then `specs/Laws.antt`.
#![tactic(auto)]

mod calls;
mod groups;
mod laws;
mod names;
mod types;

pub use calls::{calls_wrongly, counts_none, filters_wrongly};
pub use groups::{misplaces_aggregates, misplaces_window_calls, names_ungrouped_column};
pub use laws::operands_asked;
pub use names::{names_ambiguously, names_unknown_column, names_unknown_table};
pub use types::has_wrong_types;
