//! The commands of scripts, and what reads them.
//!
//! - Gives `read_command`, which reads the next command of a script from any reader: a header line, and behind it a body, where the
//!   form has one.
//! - Promises: what was read is the one command that stands next, byte for byte, and nothing behind it was consumed; or the bytes
//!   are none (`IsMalformed`), or at their end. A body that its form or its name's words refuse is passed over and not kept. While
//!   it waits for more bytes, the replies so far are written.
//! - Asks: a reader and a writer that have not failed.
//! - Leaves lines and bodies to `wlines`, and what a command is answered to `wstore`.
//!
//! Read `specs/Commands.antt`, then `specs/Headers.antt` and `specs/Requests.antt`, which say how the code stands for it.
#![tactic(auto)]

mod header_lines;
mod numbers;
mod reading;
mod request;

pub use header_lines::{Header, read_header};
pub use numbers::{NODES, NodeNumber, SLOTS, SlotNumber};
pub use reading::read_command;
pub use request::{Command, Found, Order, Refusal, Request};
