//! Files, read and replaced whole, over calls that are counted and recorded.
//!
//! - Gives a system that counts the reads of files, the calls that failed and the growths that were refused; the bytes of
//!   a file, whole, in blocks, or as far as they are not too many; and a place whose file is replaced, by one that is written beside it.
//! - Promises: a fault comes only where a call failed, a growth was refused or the reads are used up, as the system counts them, and
//!   nothing else has failed then. A reader is read to its end, or until it has given more bytes than may be; the record has the path
//!   and these bytes of each file that was read, and the folder whose lock was taken; what is written is written whole. A place is
//!   that of the file of its path, or of the path that the link there was found to lead to, which the record has. A file is
//!   replaced as `wfolder` replaces it, on calls that the record has, with the owner, the group and the mode that its place has.
//! - Asks: a system in which nothing has failed yet.
//! - Leaves what the bytes mean to the program. What a real file holds, and where a link leads, no clause can say: each
//!   method of `real.rt`, of `Reading` and of `Place` notes the call that it makes, and its answer.
//!
//! Read `specs/Noting.antt`, `specs/Reading.antt`, `specs/Listing.antt` and `specs/Place.antt`, and those of `wfolder` first.
#![tactic(auto)]

mod files;
mod place;
mod reading;
mod real;
mod record;
mod simulated;
mod system;

pub use files::{read_at_most, read_if_there, read_whole};
pub use place::Place;
pub use reading::Reading;
pub use record::Record;
pub use simulated::Simulated;
pub use system::System;
