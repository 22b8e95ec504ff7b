//! Delivery streams: nodes are fed by bytes alone.
//!
//! - Gives an `Inbox`, which is fed a stream in pieces and hands out its messages.
//! - Promises: however a stream is cut, its messages are those of its bytes (`first_message`), and bytes behind which no message can
//!   stand are bad, and stay so.
//! - Asks: nothing.
//! - Leaves lines and bodies to `wrecords`, and what a message does to the crates above.
//!
//! Read `specs/Messages.antt`, then `specs/Inboxes.antt` and `specs/Laws.antt`.
#![tactic(auto)]

mod found;
mod inbox;
pub mod laws;
mod message;

pub use inbox::Inbox;
pub use message::{BadStream, Message, PushFault};
