//! How far tokens can be followed as a query, and which names stand on the way.
//!
//! - Gives the first token behind which no query goes on, and each name before it by what it stands for.
//! - Promises: it is safe and total. That the place is right is tested, beside the grammar of docs/QUERIES.md, and not proved.
//! - Asks nothing of the tokens.
//! - Leaves trees to `wparser`. It follows tokens in time in proportion to them.
//!
//! Read `src/grammar.rt`, then `src/following.rt`.
#![tactic(auto)]

mod following;
mod grammar;

pub use following::{Followed, Mark, Stop, follow};
pub use grammar::Role;
