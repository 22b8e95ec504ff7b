//! A query that no rule refuses is well scoped, well typed and within bounds: the laws, and no code.
//!
//! - Gives the type of an expression over a row, what it comes to where no default stands in for anything, the types of the
//!   rows that a resolved query answers, and what the words of a query denote.
//! - Promises: an expression of a type comes to a value of that type, or out of range, and no default of `value_of` has a part
//!   in it (`typed_is_exact`). What an accepted query resolves to is well typed throughout (`accepted_is_typed`), and so are
//!   the rows that execution makes: no default has a part in what is evaluated on them (`accepted_runs_typed`). Each of its
//!   words denotes what is there (`accepted_is_scoped`), and it asks for no more than the limits (`accepted_is_bounded`).
//!   Equal calls are one function over one window (`equal_is_one`). `proofs/Worked.antt` has for each rule a query that
//!   breaks it alone, of which one of these laws would be false.
//! - Asks: nothing of what a text spells (`spelled_is_shaped`); `accepted_is_typed` is not of other trees.
//! - Leaves to `wrules` which queries are accepted, to `wresolve` what they resolve to, to `wplanner` what that means on rows, to
//!   `wask` that windows are found and counts are sound.
//!
//! Read `specs/Typing.antt`, `specs/Exact.antt`, `specs/Plans.antt`, `specs/Scoped.antt`, then `specs/Shapes.antt`,
//! `specs/Laws.antt`, `specs/Running.antt`, `specs/Calls.antt` and `specs/Bounded.antt`.
#![tactic(auto)]

mod laws;

pub use laws::{
    accepted_is_bounded, accepted_is_scoped, accepted_is_typed, accepted_runs_typed, equal_is_one,
    spelled_is_shaped, typed_is_exact,
};
