//! Deliveries of a stream, kept in order until they are delivered.
//!
//! - Gives a batch, which is handed a delivery stream in blocks and keeps what its messages deliver.
//! - Promises: however a stream is cut, a batch holds the deliveries of its messages, in order, and the bytes behind the last
//!   one that is whole; a segment is judged as it comes. It stops at the first message that cannot be delivered, whatever
//!   follows, and an end inside a message is no end.
//! - Asks: nothing.
//! - Leaves messages to `wstream`, segments to `wsegment`, and what a delivery does to the crates above.
//!
//! Read `specs/Streams.antt`, then `specs/Batches.antt`.
#![tactic(auto)]

mod batch;
mod delivery;
mod stop;
mod stopped_at;

pub use batch::Batch;
pub use delivery::Delivery;
pub use stop::Stop;
pub use stopped_at::{Place, Stands};
