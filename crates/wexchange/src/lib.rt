//! Exchange files: nodes meet by bytes alone.
//!
//! - Gives `write`, which spells what a set knows as an exchange file of version 2, into any counted writer; `read`,
//!   which reads a file of version 1 or 2 into a set, and `read_beside`, which shares what a set at hand knows; and
//!   `Hashed`, bytes with states of the hasher at some of their beginnings, from which `read_beside` and `write_over` go on.
//! - Promises: a view has one file, and `read` answers the view whose file the bytes are, or whose text in version 1, or
//!   their first fault from left to right. A file of version 2 ends with the digest of all before it, so that a byte that
//!   changed on the way shows. No state of a hasher changes what is written or answered.
//! - Does not promise that no other bytes have the same digest.
//! - Asks: a writer that has counted nothing yet.
//! - Leaves lines and bodies to `wrecords`, segments to `wsegment`, and what is known of names to `wset`.
//!
//! Read `specs/Files.antt` and `specs/Judging.antt` behind `specs/Forms.antt` of `wrecords`, then `specs/Laws.antt`; the
//! others say what the steps of reading and writing tell.
#![tactic(auto)]

mod fault;
mod hashed;
mod hashing;
pub mod laws;
mod reading;
mod seal;
mod version;
mod writing;

pub use fault::FileFault;
pub use hashed::Hashed;
pub use reading::{read, read_beside};
pub use version::Version;
pub use writing::{write, write_over};
