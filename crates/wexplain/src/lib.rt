//! What is wrong where a subcommand was refused, for a person: in a declaration, a name, a segment, a delivery stream, an exchange
//! file or a query.
//!
//! - Gives explanations of one to three lines: the sentence of the refusal, and where it can be told the place, as the line of a
//!   query with a caret below it, or the row, the field and the value.
//! - Promises: an explanation begins with what the refusal that was printed is called, and there is none where nothing was refused;
//!   a refused name or declaration has one, and a refused query where the table is declared, unless memory is refused. An item is the
//!   line in front, with its body, and a name or a byte is told by its words, with what was given as it is shown. The words of
//!   sentences, and which record or field is wrong, are tested, and not proved.
//! - Asks: the fault that the same bytes were refused with; with another one it tells less, or a place that is none.
//! - Leaves judging to the crates that refuse, sentences, declarations, names and segments to `wsentences`, and places in a query
//!   to `wspots`. It reads the bytes again, in time in proportion to them; of a delivery stream it is lent the one message, or the
//!   bytes, at which it stopped.
//!
//! Read `specs/Refusals.antt`, `specs/Items.antt` and `specs/Places.antt`, then `src/explaining.rt`.
#![tactic(auto)]

mod exchange_file;
mod explaining;
mod items;
mod query;
mod reply;
mod stream;

pub use explaining::{Given, Input, NameWords, Stream, explain};
