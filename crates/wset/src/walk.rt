//! What a set knows, name by name, in one pass.
ghost use Rattle.std.specs.Prelude.{◌≡◌, [], ◌∷◌, MatchOption};
ghost use Rattle.std.specs.Iterator.{YieldsFirstBy, item_count};
ghost use Rattle.wentries.specs.Holding.{told_of};
ghost use Rattle.wentries.specs.Entries.{known_entries};
ghost use Rattle.wentries.specs.Blocks.{flat};
ghost use Rattle.wset.specs.Walking.{contents};

use std::iter::Iterator;
use std::marker::Model;
use wentries::{Block, Entry, Held, Kept, Known};
use wvalues::Name;

/// The entries of blocks that a walk has before it. In a contract it is their list.
#[derive(Drop)]
pub(crate) struct Walk<'a> {
    entries: &'a [Entry],
    blocks: &'a [Block],
}

impl<'a> Model for Walk<'a> {
    ghost use Rattle.std.specs.Prelude.{List, ◌++◌};
    ghost use Rattle.wentries.specs.Blocks.{flat};
    ghost use Rattle.wentries.specs.declared.entries.Entry.{Entry};

    ghost Value = { List Entry };

    ghost view = { λ w. w.entries.now ++ flat w.blocks.now };
}

impl<'a> Walk<'a> {
    /// A walk over the entries of all blocks.
    pub(crate) fn new(blocks: &'a [Block]) -> Walk<'a>
        ensures { result ≡ flat blocks.now }
    {
        Walk {
            entries: &[],
            blocks,
        }
    }

    /// Takes the first entry.
    pub(crate) fn step(&mut self) -> Option<&'a Entry>
        ensures { MatchOption result ((self.old ≡ []) × (self.new ≡ [])) (λ entry. self.old ≡ entry.now ∷ self.new) }
    {
        if self.entries.is_empty() {
            let (block, blocks) = self.blocks.split_first()?;
            self.entries = block.entries();
            self.blocks = blocks;
        }
        let (entry, entries) = self.entries.split_first()?;
        self.entries = entries;
        Some(entry)
    }
}

/// Each name that is not unknown and what is known of it, in the order of names. In a contract it is the list of
/// those that are left. A step takes constant time and no memory.
#[derive(Drop)]
pub struct Names<'a> {
    walk: Walk<'a>,
}

impl<'a> Model for Names<'a> {
    ghost use Rattle.std.specs.Prelude.{List};
    ghost use Rattle.wvalues.specs.Names.{NameParts};
    ghost use Rattle.wentries.specs.Knowledge.{Known};
    ghost use Rattle.wentries.specs.Entries.{known_entries};

    ghost Value = { List (NameParts × Known) };

    ghost view = { λ names. known_entries names.walk };
}

impl<'a> Names<'a> {
    /// The names of all blocks.
    pub(crate) fn new(blocks: &'a [Block]) -> Names<'a>
        ensures { result ≡ known_entries (flat blocks.now) }
    {
        Names {
            walk: Walk::new(blocks),
        }
    }
}

impl<'a> Iterator for Names<'a> {
    type Item = (Name, Known<'a>);

    ghost next_gives = { YieldsFirstBy (λ item. (item.0, told_of item.1)) (λ left. left) };

    ghost remaining = { item_count (λ left. left) };

    fn next(&mut self) -> Option<(Name, Known<'a>)> {
        let entry = self.walk.step()?;
        Some((entry.name, entry.held.lent()))
    }
}

/// Each live name and its content, in the order of names. In a contract it is the list of those that are left. The
/// whole walk takes a step for each name that is not unknown, and no memory.
#[derive(Drop)]
pub struct Lives<'a> {
    walk: Walk<'a>,
}

impl<'a> Model for Lives<'a> {
    ghost use Rattle.std.specs.Prelude.{List};
    ghost use Rattle.wvalues.specs.Names.{NameParts};
    ghost use Rattle.wsegment.specs.Rows.{Content};
    ghost use Rattle.wset.specs.Walking.{contents};

    ghost Value = { List (NameParts × Content) };

    ghost view = { λ lives. contents lives.walk };
}

impl<'a> Lives<'a> {
    /// The live names of all blocks.
    pub(crate) fn new(blocks: &'a [Block]) -> Lives<'a>
        ensures { result ≡ contents (flat blocks.now) }
    {
        Lives {
            walk: Walk::new(blocks),
        }
    }
}

impl<'a> Iterator for Lives<'a> {
    type Item = (Name, &'a Kept);

    ghost next_gives = { YieldsFirstBy (λ item. (item.0, item.1.now.content)) (λ left. left) };

    ghost remaining = { item_count (λ left. left) };

    fn next(&mut self) -> Option<(Name, &'a Kept)> {
        'walk: while let Some(entry) = self.walk.step() {
            if let Held::Live(kept) = &entry.held {
                return Some((entry.name, kept));
            }
        }
        None
    }
}
