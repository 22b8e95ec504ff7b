//! A store in its folder, replaced whole, and what a crash leaves of it.
//!
//! - Gives the calls on a folder that a replacement makes, over any folder that records them with their answers; the replacement, by
//!   a file that is written beside the store; and for tests a disk in memory, with what a crash leaves of it.
//! - Promises: whichever call of a replacement a machine stops in, the store holds what it might have held before, or the new bytes
//!   whole: that is a theorem over the record of the calls, for every folder that does what `specs/Model.antt` says of them. New files
//!   are made and removed in the store's own folder alone, and before one is made what killed runs have left there is removed, as far as
//!   it can be. Where a store stands, the new file is its owner's alone until it is given the store's owner, group and mode, and has
//!   them before its bytes. Each fault has its cause in the folder's counts; a read fault comes only where the folder's names were not
//!   listed, a write fault only where the last call was refused, or the names of all 1,000 tries were found taken.
//! - Asks: that by the record the lock is held of the folder that the store stands in, and that nothing has failed yet.
//! - Leaves the files of a real system to `wfiles`, and what the bytes mean to the program.
//!
//! Read `specs/Call.antt`, `specs/Model.antt` and `specs/Names.antt`, then `specs/Replacing.antt`, `specs/Clearing.antt` and
//! `specs/Calls.antt`.
#![tactic(auto)]

mod disk;
mod fault;
mod folder;
mod names;
mod replacing;
mod target;

pub use disk::{Disk, Entry};
pub use fault::Fault;
pub use folder::{Access, Folder};
pub use replacing::{NotReplaced, replace};
pub use target::Target;
