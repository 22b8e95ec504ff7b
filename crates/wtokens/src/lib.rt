//! The first token of what is left to read.
//!
//! - Gives what follows a keyword or a symbol where one comes first, and each kind of token that the grammar asks for by what
//!   it says: a name, a text, a number, an operator, a sign, a direction, a null order, a frame mode.
//! - Promises: a token is found where one of the kind comes first, and nowhere else; all behind it is left.
//! - Asks nothing, and takes no memory.
//! - Leaves what stands behind what to `wexpressions` and `wparser`, whose grammar is written in this notation.
//!
//! Read `specs/Words.antt`, then `specs/Notation.antt`.
#![tactic(auto)]

mod first;

pub use first::{
    behind_comma, comparison_operator, direction, keyword, keyword_pair, leading_sign, mode, name,
    null_order, number, operator, symbol, text,
};
