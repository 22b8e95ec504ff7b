//! What refusals are called and say, and what is wrong in a declaration, a name or a segment, for a person.
//!
//! - Gives the sentence of each refusal, the line of it with which an explanation begins, and explanations of declarations, names
//!   and segments: below the sentence, where it can be told, the line, the field and the value.
//! - Promises: a sentence has the label that its refusal prints, and an explanation begins with it. What is added of a place in a
//!   segment, if anything is, has its words and the number of the row, and what was given stands in it as it is shown. Which field
//!   it is, and the words of sentences, are tested, and not proved.
//! - Asks: the fault that the same bytes were refused with; with another one it tells less, or a place that is none.
//! - Leaves judging to the crates that refuse, how values are shown to `wshown`, and files, streams and queries to `wexplain`. It
//!   reads the bytes again, in time in proportion to them.
//!
//! Read `specs/Labels.antt` and `specs/Explanations.antt`, then `src/sentences.rt` and `src/lines.rt`.
#![tactic(auto)]

mod declaration;
mod lines;
mod segment;
mod sentences;

pub use declaration::{explain_declaration, explain_name};
pub use lines::{explained, push_file, push_sentence};
pub use segment::{explain_segment, push_length, push_segment_place};
pub use sentences::{STREAM, Sentence, file_sentence, query_sentence, segment_sentence};
