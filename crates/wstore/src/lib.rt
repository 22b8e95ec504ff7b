//! Nodes, and the scripts that speak to them.
//!
//! - Gives a node, which takes segments, retires names, puts and gets exchange files, is fed a delivery stream and
//!   answers queries, and `run`, which reads a script of such commands to sixteen nodes and sixteen slots from any
//!   reader and writes a reply to each.
//! - Promises: what `run` has written is what the script's commands are answered, each by what its node was told
//!   before it, itself, by its stream or through slots; at a fault it is a beginning of that. Before the reader is
//!   asked for more, all commands that it gave are answered and the replies written (`step`). Nodes that know the same
//!   answer the same (`laws`). A refused command changes nothing of what a node knows; a piece that no messages
//!   begin with ends the stream of its node as a bad one.
//! - Asks: of `run`, a reader and a writer that have counted nothing yet; of `take_judged`, bytes that were judged by the node's
//!   declaration.
//! - Leaves segments to `wsegment`, names to `wset`, files to `wexchange`, streams to `wstream`, and reading commands to
//!   `wscript`.
//!
//! Read `specs/Replies.antt` and `specs/History.antt` behind `specs/Commands.antt` of `wscript`, then `specs/Laws.antt` and
//! `specs/Runs.antt`; the others say how the code stands for them.
#![tactic(auto)]

mod cluster;
mod feeding;
pub mod laws;
mod node;
mod script_run;
mod session;
mod slot;

pub use node::{Node, Reply};
pub use script_run::{End, RunFault, run};
pub use wask::AskFault;
pub use wrules::Rule;
