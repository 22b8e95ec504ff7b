//! The expression, the window or the list that comes first among the tokens.
//!
//! - Gives the expressions, windows, keys and columns of `wquery` that come first, with what follows them, and lists of what
//!   a crate above reads.
//! - Promises: what is answered is what the row of the grammar reads, and all that it reads up to a rest that cannot go on
//!   with it; it refuses only tokens of which the row reads nothing (`Answers`). What lies in parentheses takes a level.
//! - Asks: nothing. Takes time in proportion to the tokens, and a stack bounded by the nesting.
//! - Leaves whole queries, and how deep they may be nested, to `wparser`.
//!
//! Read `specs/Notation.antt` of `wtokens`, `specs/Grammar.antt` and `specs/Grips.antt`, then `specs/Finding.antt`.
#![tactic(auto)]

/// What was read and what follows it; a fault is handed on, and what is held is let go before. It stands for `?` where
/// expressions, lists or queries are held: a call lets go of each in one step of a function's proof, and the end of a
/// scope part by part.
macro_rules! got {
    ($outcome:expr, $($held:ident),+) => {
        match $outcome {
            Ok(read) => read,
            Err(fault) => {
                $(drop($held);)+
                return Err(fault);
            }
        }
    };
}

/// What was made; where memory runs out, what is held is let go before, as `got!` does.
macro_rules! made {
    ($made:expr, $($held:ident),+) => {
        match $made {
            Ok(made) => made,
            Err(_) => {
                $(drop($held);)+
                return Err(ParseFault::NoMemory);
            }
        }
    };
}

/// One element at least, with commas between them, each read from what is left by then. Functions that call one another
/// are proved together, so a list that is read by one of them has this loop in a function of its own.
macro_rules! comma_list {
    ($alloc:expr, $tokens:expr, $left:ident => $element:expr) => {{
        let mut elements = Vec::new($alloc);
        let mut $left = $tokens;
        'elements: loop {
            let (element, rest) = got!($element, elements);
            got!(push(&mut elements, element), elements);
            match behind_comma(rest) {
                None => return Ok((elements, rest)),
                Some(after) => $left = after,
            }
        }
    }};
}

mod columns;
mod expressions;
mod fault;
mod frames;
mod lists;
mod nesting;

pub use columns::{Columns, nested};
pub use expressions::{chain, order, window_inside};
pub use fault::ParseFault;
pub use frames::{copied_name, optional_name};
pub use lists::{Element, elements};
pub use nesting::{TooDeep, closed_off, one_level};
