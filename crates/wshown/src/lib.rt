//! Bytes that a user gave, as they are shown on a terminal.
//!
//! - Gives texts, values, paths and numbers, and a line of a query with a caret below a place in it, added to a text.
//! - Promises: of a text or a value 60 characters are shown at most, a path whole, and no character that a terminal would
//!   obey or hide but by its number. A place in a query is shown by its line, 60 characters of it at most in the same way, but tabs and form feeds as spaces,
//!   with a caret and the note below.
//!   Which of its characters are shown, and where the caret stands, is tested, and not proved.
//! - Asks nothing.
//! - Leaves what is said of them to `wspots` and `wexplain`.
//!
//! Read `specs/Shown.antt`, `src/values.rt`, then `src/places.rt`.
#![tactic(auto)]

mod places;
mod values;

pub use places::push_place;
pub use values::{push_bytes, push_number, push_path, push_text, push_value};
