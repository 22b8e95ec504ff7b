//! Replies, as they are spelled.
//!
//! - Gives the bytes that tell what was done or refused: words, refusals by their number, lists of names, and answers with
//!   their length.
//! - Promises: the bytes are those of `specs/Spelling.antt`. Scripts and subcommands tell a refusal in the same bytes.
//! - Leaves what is told to the crates that judge it.
#![tactic(auto)]

mod fixed_replies;
mod lists;
mod refusals;
mod text;

pub use fixed_replies::{refused_name, refused_table, retired, taken};
pub use lists::{answer, names};
pub use refusals::{refused_file, refused_query, refused_segment};
pub use text::Text;
