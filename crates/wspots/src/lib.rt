//! Where in the text of a query it stops being one, and where a name stands that breaks a rule.
//!
//! - Gives the line of the query, with a caret below the first token behind which no query goes on, or below the first name
//!   that breaks a rule, in the innermost SELECT that has one. GROUPING and the item `*` are pointed at like names.
//! - Promises: what is added is a line of the query with a caret and a note below it, or nothing. What is found to break a rule in a
//!   SELECT is at a token of the query, is the first that does, and is told as the definitions have it. The SELECTs are asked from
//!   the innermost out, each over the columns of its source, as far as one of which something is told: that is what is added. Which
//!   item of a SELECT is the first of a name is told exactly. Which marks a query has is tested, and not proved.
//! - Asks: the tokens of the query. Where no name tells how a rule is broken, nothing is told.
//! - Leaves judging to `wparser` and `wrules`, following the tokens to `wgrammar`, and where they stand to `wclauses`.
//!
//! Read `specs/Scene.antt`, `specs/Items.antt`, `specs/Breaches.antt`, `specs/Names.antt`, `specs/Notes.antt` and `specs/Selects.antt`,
//! then `src/places.rt`, `src/names.rt` and `src/scene.rt`.
#![tactic(auto)]

mod calls;
mod groups;
mod names;
mod notes;
mod outputs;
mod places;
mod scene;

pub use places::{push_breach, push_stop};
