//! What a text is answered: tokens, the query that they spell, its first broken rule, or its answer's bytes.
//!
//! - Gives `ask`, which answers any text on the rows of a set.
//! - Promises: the answer is the one that the text has on what the set knows, or its first fault. A text has one answer
//!   (`one_answer`). A query that breaks no rule is answered its meaning or its fault (`accepted_is_sound`).
//! - Asks: nothing. Want of memory alone may come in the place of an answer.
//! - Leaves each step to the crate that it belongs to: `wlexer`, `wparser`, `wresolve` and `wplanner`.
//!
//! Read `specs/Texts.antt`, then `specs/Answer.antt` and `specs/Laws.antt`.
#![tactic(auto)]

mod answer;
mod laws;

pub use answer::ask;
pub use laws::{accepted_is_sound, one_answer};
pub use wplanner::AskFault;
