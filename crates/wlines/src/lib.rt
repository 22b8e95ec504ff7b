//! Header lines and bodies of a stream of commands, read in blocks, and replies that are written before the next read.
//!
//! - Gives a source over any counted reader, which hands out lines of at most 200 bytes and bodies of a stated
//!   length, an outbox of replies before any counted writer, and a writer of replies that says which front of a reply
//!   went out.
//! - Promises: what was handed out and what is left are the bytes that the reader gave; a line or a body that is
//!   not there is reported as malformed, and only then. The reader is asked only where no byte is held and no reply
//!   waits, a line is read only once the line before it is answered, and what was read last has had a byte handed out,
//!   so that nothing is read ahead.
//! - Asks: a reader and a writer that have counted nothing yet.
//! - Leaves the meaning of lines to the crates above.
//!
//! Read `specs/Words.antt`, `specs/Pending.antt`, `specs/Sent.antt`, `specs/Failing.antt`, then `specs/Reads.antt`.
#![tactic(auto)]

mod block_reader;
mod body;
mod fault;
mod line;
mod outbox;
mod reading;
mod words;
mod writing;

pub use block_reader::BlockReader;
pub use body::Body;
pub use fault::ReadFault;
pub use line::{Line, LineEnd};
pub use outbox::Outbox;
pub use reading::{read_body, read_line, skip_body};
pub use words::{is_word, split_word};
pub use writing::{WriteFault, write_reply};
