//! Where the tokens of a query stand: in which clause of which SELECT, and in what of a call.
//!
//! - Gives this of each token, the parentheses of a query in pairs, and by them the arguments of a call, its FILTER and its OVER.
//! - Promises: the pairs, where each token stands, and what is read from both, are those of the definitions.
//! - How, which no clause says: the tokens are gone through twice in all, whatever stands in them.
//! - Asks nothing of the tokens: one that opens a pair which nothing closes is a pair by itself.
//! - Leaves what breaks a rule to `wspots`.
//!
//! Read `specs/Tokens.antt`, `specs/Pairs.antt` and `specs/Clauses.antt`, then `src/clauses.rt` and `src/pairs.rt`.
#![tactic(auto)]

mod clauses;
mod pairs;
mod tokens;

pub use clauses::{Clause, Clauses, Standing};
pub use pairs::{Arguments, Pairs};
pub use tokens::{
    function_at, is_called, is_grouping, is_parenthesis, is_star, is_symbol, name_at,
};
