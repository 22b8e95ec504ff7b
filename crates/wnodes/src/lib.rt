//! The nodes of an expression: what each says itself, those right below it, and when two expressions are one.
//!
//! - Gives the nodes right below a node, the comparison of expressions and of calls, a hash of calls, and the bounds of a frame
//!   as they are compared.
//! - Promises: the nodes below a node are listed each once, in the order of the text. Two expressions are answered to be one just
//!   where they are by `is_same`, which looks through spellings that mean one thing: ASC and nothing, EXCLUDE NO OTHERS and
//!   nothing, a frame's end left out and CURRENT ROW, a column with its qualifier and without. Calls that are one have one hash.
//! - Asks nothing. Takes no memory. Comparing goes as deep as the nesting alone, and takes time in proportion to the smaller of
//!   the two.
//! - Leaves to `wscope` and `wrules` what the names mean: a name that is used has to be that of one column.
//!
//! Read `specs/Nodes.antt`, `specs/Children.antt` and `specs/Heads.antt`, then `specs/Bounds.antt` and `specs/Sameness.antt`;
//! `specs/Hashed.antt` says what a head is hashed by.
#![tactic(auto)]

mod bounds;
mod children;
mod forms;
mod hashing;
mod head;
mod marks;
mod numbers;
mod sameness;

pub use bounds::{bound_place, frame_end};
pub use children::Children;
pub use hashing::sketch;
pub use sameness::{same, same_call};
