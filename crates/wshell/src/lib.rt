//! Queries on an input that goes on, each answered as soon as it is whole.
//!
//! - Gives `run`, which reads queries from any counted reader and writes the reply to each to any counted writer.
//! - Promises: the input is split at each `;` outside quotes and comments; each text between two, and the one behind the
//!   last, has its answer or its refusal for a reply, unless it holds blanks and comments alone, of at most 65,536 bytes; an empty
//!   line stands between two replies. What the node knows stays as it is. A fault has its cause, and what was written then is a beginning of the replies.
//!   That before more is read, what can be answered is answered and written, is tested by a conversation.
//! - Asks: a reader and a writer that have counted nothing yet.
//! - Leaves the answer to a query to `wact`, and files and streams to the program.
//!
//! Read `specs/Splitting.antt`, then `specs/Replying.antt` and `specs/Runs.antt`.
#![tactic(auto)]

mod fault;
mod mode;
mod pending;
mod replying;
mod shell_run;

pub use fault::ShellFault;
pub use shell_run::run;
