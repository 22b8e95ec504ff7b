//! Values of integer and text columns, names of segments, and their orders.
//!
//! - Gives the values of a cell with their arithmetic, the three truths, the order of a sort key, names with their
//!   order, the number that a word spells, and a wrapper that counts what a reader or a writer did.
//! - Promises: a whole number is in its range, a name is well formed, `compare` is the total order of a key.
//! - Leaves parsing to `wsegment` and storage to `wset`.
//!
//! Read `specs/Whole.antt`, `specs/Truth.antt`, `specs/Meaning.antt`, `specs/Sameness.antt`, `specs/Order.antt`,
//! `specs/OrderLaws.antt`, then `specs/Number.antt`, `specs/Names.antt` and `specs/Counts.antt`.
#![tactic(auto)]

mod counted;
mod key;
mod laws;
mod name;
mod number;
mod short;
mod truth;
mod value;
mod whole;

pub use counted::Counted;
pub use key::{SortKey, compare};
pub use laws::{keys_order_totally, ties_are_same, value_is_in_range};
pub use name::{Name, NameFault};
pub use number::number_word;
pub use short::ShortText;
pub use truth::Truth;
pub use value::Value;
pub use whole::Whole;
