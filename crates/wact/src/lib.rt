//! What a subcommand does, as a function of bytes.
//!
//! - Gives `act`, which is lent a choice of the command line and the bytes of its files, and answers what is printed,
//!   the exit status, and the new store if there may be one; and its parts for a stream, which take the store's bytes `hashed`.
//! - Promises: the table is judged first, then the store, then the subcommand. It does to the store what a node that
//!   knows the store is told, and prints the reply of a script's command, of a query the answer alone. A refusal has
//!   status 1 and no new store.
//! - Asks: of `act`, a choice other than the session and the shell; of `feed_store` and `feed_node`, a batch of the table's
//!   declaration that is whole and has not stopped.
//! - Leaves files and streams to the program, words to `wcommand`, and nodes to `wstore`.
//!
//! Read `specs/Outcomes.antt`, then `specs/Acts.antt`.
#![tactic(auto)]

mod acted;
mod acting;
mod feeding;
mod laws;
mod opening;
mod queries;

pub use acted::{Acted, DONE, REFUSED, refused};
pub use acting::act;
pub use feeding::{feed_node, feed_store, undelivered};
pub use laws::{long_is_refused_alike, long_table_is_refused_alike, stores_act_alike};
pub use opening::{Opened, Purpose, hashed, open_store};
pub use queries::{QueryReply, reply};
