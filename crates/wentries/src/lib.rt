//! What is held of names, and what is known by it: entries in the order of names, in blocks.
//!
//! - Gives what is held of a name (`Held`), with the content of a live one, its cells and its runs (`Kept`), and what is known
//!   by it (`Known`, `Status`); entries of names, and blocks of entries: a name is looked up in them and put by binary searches,
//!   a floor is put, which drops what is below it and tells what falls (`Fall`), a live name is found by its number, and cells and
//!   runs are made.
//! - Promises: what is said of blocks is said of the one list of their entries, wherever they are cut, and after want of memory
//!   that list is the one before. No block is empty or has more than 512 entries. What two hold of a name is joined to what
//!   they know together. No contract sees which cells are made; making or keeping runs changes the runs alone.
//! - Asks: of most calls on blocks, that the names rise; of those that look for a floor, that no name is below one.
//! - Leaves reading to `wsegment`, runs to `wruns`, and to `wset` views and their laws, joins of all names, and the number of
//!   live names before each block.
//!
//! Read `specs/Knowledge.antt`, `specs/Holding.antt`, `specs/Entries.antt`, `specs/Blocks.antt`, then
//! `specs/Keeping.antt` and `specs/Falls.antt`; `specs/Cells.antt` and `specs/StoredBlocks.antt` say how a content and a block
//! are kept.
#![tactic(auto)]

mod blocks;
mod entries;
mod fall;
mod held;
mod judged_content;
mod kept_content;
mod known;
mod status;

pub use blocks::{
    Block, count_after, end_before, end_before_origin, floor_in, held_in, in_blocks, is_low,
    keep_in, listing, make_cells_in, make_in, put_in, raise_in, shared,
};
pub use entries::{Entry, is_above, live_at};
pub use fall::Fall;
pub use held::Held;
pub use kept_content::Kept;
pub use known::Known;
pub use status::{Listed, Status};
