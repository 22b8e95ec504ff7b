//! Entries in blocks of a bounded size, so that an insert moves few of them.
ghost use Rattle.std.specs.Prelude.{All, ◌≡◌, ◌↔◌, ◌<◌, ◌≤◌, ◌++◌, ◌+◌, ◌-◌, ◌^◌, [], ◌∷◌, ℕ, suc, IsOk, IsSome, IsTrue, List};
ghost use Rattle.std.specs.Prelude.{true, false, length, take, drop, get_or, map, option_map, IfSome, IfOk, OnOk, OnErr};
ghost use Rattle.std.specs.Option.{option_copied};
ghost use Rattle.std.specs.List.{filter_map, list_all, list_any};
ghost use Rattle.std.specs.FinMap.{find, put};
ghost use Rattle.wsegment.specs.Declaration.{Declaration};
ghost use Rattle.wvalues.specs.Names.{name_cmp};
ghost use Rattle.wruns.specs.Dealing.{AreRunsOf};
ghost use Rattle.wentries.specs.Knowledge.{Known as TheKnown, Floor, first_of as first_number, floor_number, is_above, is_over};
ghost use Rattle.wentries.specs.Holding.{IsHeldBy, known_of};
ghost use Rattle.wentries.specs.Entries.{AreBelow, AreOriginsBelow, AllHeldBy, AreSettled, IsRising, above_floor};
ghost use Rattle.wentries.specs.Entries.{first_from, known_entries, listing_of, AreBehind};
ghost use Rattle.wentries.specs.Keeping.{AreAdded, BeginWithRuns, HeldHasRun, kept_in, orders_in, plain_block, rows_in};
ghost use Rattle.wentries.specs.Blocks.{AreFilled, HasRoom, IsGrown, IsHome, IsOriginHome, first_of, flat, half, halved, longest, trimmed};
ghost use Rattle.wentries.specs.Falls.{IsFall, lives_of};
ghost use Rattle.wentries.specs.declared.entries.Entry.{Entry as HeldEntry};

use crate::entries::{
    Entry, drop_under, first_from, floor_of, held_of, is_above, keep_runs, list_entries,
    live_count, make_cells, make_runs, put_entry, share_entries,
};
use crate::fall::Fall;
use crate::held::Held;
use crate::status::Listed;
use std::alloc::{AllocError, Global};
use std::marker::Model;
use std::rc::Rc;
use wruns::Run;
use wvalues::{Name, SortKey};

/// The most entries of a block.
const LONGEST: usize = 512;

/// The entries of each half of a block that has the most.
const HALF: usize = 256;

/// From one entry to 512, in the order of their names, and how many of them are live. In a contract it is its entries.
#[derive(Drop)]
pub struct Block {
    entries: Vec<Entry>,
    live: usize,
}

impl Model for Block {
    ghost use Rattle.std.specs.Prelude.{List};
    ghost use Rattle.wentries.specs.declared.entries.Entry.{Entry};

    ghost Value = { List Entry };

    ghost view = { λ b. b.entries.items };

    ghost use Rattle.wentries.specs.StoredBlocks.{IsBlock};

    ghost invariant = { IsBlock };
}

impl Block {
    /// A block of these entries.
    pub(crate) fn new(entries: Vec<Entry>) -> Block
        requires some { 0 < length entries.items }
        requires bounded { length entries.items ≤ longest }
        ensures { result ≡ entries.items }
    {
        let live = live_count(&entries);
        Block { entries, live }
    }

    /// A block of the same entries.
    fn copy(alloc: Global, entries: &[Entry]) -> Result<Block, AllocError>
        requires some { 0 < length entries.now }
        requires bounded { length entries.now ≤ longest }
        ensures { IfOk result (λ block. block ≡ entries.now) }
    {
        let mut shared = Vec::new(alloc);
        share_entries(&mut shared, entries)?;
        Ok(Block::new(shared))
    }

    /// Its entries.
    pub fn entries(&self) -> &[Entry]
        ensures same { result.now ≡ self.now }
        ensures filled { 0 < length result.now }
        ensures bounded { length result.now ≤ longest }
    {
        self.entries.as_slice()
    }

    /// How many of its names are live.
    pub fn live_count(&self) -> usize
        ensures { result ≡ length (kept_in self.now) }
    {
        self.live
    }

    /// Whether it has the most entries that a block can have.
    fn is_full(&self) -> bool
        ensures full { result ≡ true → length self.now ≡ longest }
        ensures room { result ≡ false → length self.now < longest }
    {
        self.entries.len() == LONGEST
    }

    /// Whether something can be put of a name: its entry is here, or there is room for one.
    fn has_room(&self, name: &Name) -> bool
        requires { IsRising self.now }
        ensures room { result ≡ true → HasRoom self.now name.now }
        ensures full { result ≡ false → length self.now ≡ longest }
    {
        if held_of(&self.entries, name).is_some() {
            return true;
        }
        !self.is_full()
    }

    /// Puts what is held of a name, in the place of what was, and tells whether there are more or fewer live names then. Where
    /// it finds no memory nothing is changed.
    fn put(&mut self, name: Name, held: Held) -> Result<bool, AllocError>
        requires rising { IsRising self.old }
        requires room { HasRoom self.old name }
        ensures ok { OnOk result
            (known_entries self.new ≡ put name_cmp name (known_of held) (known_entries self.old)) }
        ensures read { (d : Declaration)
            → AllHeldBy d self.old → IsHeldBy d held → AllHeldBy d self.new }
        ensures more { length self.old ≤ length self.new }
        ensures lives { IfOk result
            (λ changes. changes ≡ false → length (kept_in self.new) ≡ length (kept_in self.old)) }
        ensures err { OnErr result (self.new ≡ self.old) }
    {
        let live = self.live;
        put_entry(&mut self.entries, name, held)?;
        self.live = live_count(&self.entries);
        Ok(self.live != live)
    }

    /// Makes the run of these keys of each segment that has none.
    fn make_runs(&mut self, alloc: Global, keys: &[SortKey]) -> Result<(), AllocError>
        ensures plain { plain_block self.new ≡ plain_block self.old }
        ensures has { OnOk result (All (λ e. HeldHasRun keys.now e.held) self.new) }
        ensures adds { AreAdded keys.now (orders_in self.old) (orders_in self.new) }
    {
        make_runs(alloc, &mut self.entries, keys)?;
        Ok(())
    }

    /// Keeps the first of some runs by these keys, one for each segment, and gives those that are left.
    fn keep_runs<'a>(
        &mut self,
        alloc: Global,
        keys: &[SortKey],
        runs: &'a [Rc<Run>],
    ) -> Result<&'a [Rc<Run>], AllocError>
        requires { BeginWithRuns keys.now (rows_in self.old) runs.now }
        ensures plain { plain_block self.new ≡ plain_block self.old }
        ensures has { OnOk result (All (λ e. HeldHasRun keys.now e.held) self.new) }
        ensures adds { AreAdded keys.now (orders_in self.old) (orders_in self.new) }
        ensures left { IfOk result (λ left. left.now ≡ drop (length (rows_in self.old)) runs.now) }
    {
        let left = keep_runs(alloc, &mut self.entries, keys, runs)?;
        Ok(left)
    }

    /// Makes the cells of each segment that has none.
    fn make_cells(&mut self, alloc: Global) -> Result<(), AllocError>
        ensures { self.new ≡ self.old }
    {
        make_cells(alloc, &mut self.entries)?;
        Ok(())
    }

    /// Whether all its entries are below a floor. It looks at the first alone where that is not.
    fn is_under(&self, floor: &Name) -> bool
        ensures { result ≡ list_all (λ e. is_above e.name floor.now) self.now }
    {
        self.entries
            .iter()
            .all(|entry| is_above(&entry.name, floor))
    }

    /// Drops the entries that are below a floor, unless all are, and tells what the floor drops.
    fn trim(&mut self, floor: &Name) -> Fall
        ensures trimmed { self.new ≡ trimmed floor.now self.old }
        ensures fall { IsFall floor.now (self.old ∷ []) result }
    {
        let entries = self.entries.len();
        let live = self.live;
        if self.is_under(floor) {
            return Fall {
                entries,
                whole: true,
                lives: true,
            };
        }
        drop_under(&mut self.entries, floor);
        self.live = live_count(&self.entries);
        Fall {
            entries: entries - self.entries.len(),
            whole: false,
            lives: self.live != live,
        }
    }

    /// Whether the origin of its last name stands before this one.
    fn ends_before_origin(&self, origin: &[u8]) -> bool
        ensures before { result ≡ true → (before : List HeldEntry) → IsRising (before ++ self.now)
            → AreOriginsBelow origin.now (known_entries (before ++ self.now)) }
        ensures all { AreOriginsBelow origin.now (known_entries self.now) → IsTrue result }
    {
        let end = self.entries.len() - 1;
        let last = &self.entries[end];
        last.name.origin().cmp(origin).is_lt()
    }

    /// Puts an entry behind the others, and tells whether there are more live names then. Where it finds no memory nothing
    /// is changed.
    fn push(&mut self, entry: Entry) -> Result<bool, AllocError>
        requires { length self.old < longest }
        ensures ok { OnOk result (self.new ≡ self.old ++ entry ∷ []) }
        ensures lives { IfOk result
            (λ changes. changes ≡ false → length (kept_in self.new) ≡ length (kept_in self.old)) }
        ensures err { OnErr result (self.new ≡ self.old) }
    {
        let live = entry.live_count();
        self.entries.push(entry)?;
        self.live += live;
        Ok(live != 0)
    }

    /// The later half of a block that has the most entries.
    fn later_half(&self, alloc: Global) -> Result<Block, AllocError>
        requires { length self.now ≡ longest }
        ensures { IfOk result (λ later. later ≡ drop half self.now) }
    {
        let (_, later) = self.entries.as_slice().split_at(HALF);
        let block = Block::copy(alloc, later)?;
        Ok(block)
    }

    /// Lets the later half go.
    fn keep_half(&mut self)
        requires { length self.old ≡ longest }
        ensures { self.new ≡ take half self.old }
    {
        self.entries.truncate(HALF);
        self.live = live_count(&self.entries);
    }

    /// Whether its last name stands before the name.
    fn ends_before(&self, name: &Name) -> bool
        ensures before { result ≡ true → (before : List HeldEntry) → IsRising (before ++ self.now)
            → AreBelow name.now (known_entries (before ++ self.now)) }
        ensures behind { result ≡ false → (after : List HeldEntry) → IsRising (self.now ++ after)
            → AreBehind name.now (known_entries after) }
        ensures all { AreBelow name.now (known_entries self.now) → IsTrue result }
    {
        let end = self.entries.len() - 1;
        let last = &self.entries[end];
        last.is_below(name)
    }
}

/// The first entry behind a block.
fn first_after(blocks: &[Block], k: usize) -> Option<&Entry>
    requires { k < length blocks.now }
    ensures { option_copied result ≡ first_of (flat (drop (suc k) blocks.now)) }
{
    if k + 1 == blocks.len() {
        return None;
    }
    let entries = blocks[k + 1].entries();
    Some(&entries[0])
}

/// The block where a name is, if it is not unknown, or else goes.
fn home(blocks: &[Block], name: &Name) -> usize
    requires some { 0 < length blocks.now }
    requires rising { IsRising (flat blocks.now) }
    ensures { IsHome blocks.now name.now result }
{
    let mut low = 0;
    let mut high = blocks.len() - 1;
    'search: while low < high {
        let middle = low + (high - low) / 2;
        if blocks[middle].ends_before(name) {
            low = middle + 1;
        } else {
            high = middle;
        }
    }
    low
}

/// The first block of which the last origin does not stand before this one, or else the last block.
fn origin_home(blocks: &[Block], origin: &[u8]) -> usize
    requires some { 0 < length blocks.now }
    requires rising { IsRising (flat blocks.now) }
    ensures { IsOriginHome blocks.now origin.now result }
{
    let mut low = 0;
    let mut high = blocks.len() - 1;
    'search: while low < high {
        let middle = low + (high - low) / 2;
        if blocks[middle].ends_before_origin(origin) {
            low = middle + 1;
        } else {
            high = middle;
        }
    }
    low
}

/// Whether all names stand before the name.
pub fn end_before(blocks: &[Block], name: &Name) -> bool
    requires { IsRising (flat blocks.now) }
    ensures { IsTrue result ↔ AreBelow name.now (known_entries (flat blocks.now)) }
{
    if blocks.is_empty() {
        return true;
    }
    let last = blocks.len() - 1;
    blocks[last].ends_before(name)
}

/// Whether all origins stand before that of the name.
pub fn end_before_origin(blocks: &[Block], name: &Name) -> bool
    requires { IsRising (flat blocks.now) }
    ensures { IsTrue result ↔ AreOriginsBelow name.now.origin (known_entries (flat blocks.now)) }
{
    if blocks.is_empty() {
        return true;
    }
    let last = blocks.len() - 1;
    blocks[last].ends_before_origin(name.origin())
}

/// What is held of a name, if it is not unknown.
pub fn held_in<'a>(blocks: &'a [Block], name: &Name) -> Option<&'a Held>
    requires { IsRising (flat blocks.now) }
    ensures known { option_map known_of (option_copied result)
        ≡ find name_cmp name.now (known_entries (flat blocks.now)) }
    ensures read { IfSome result
        (λ held. (d : Declaration) → AllHeldBy d (flat blocks.now) → IsHeldBy d held.now) }
{
    if blocks.is_empty() {
        return None;
    }
    let k = home(blocks, name);
    held_of(blocks[k].entries(), name)
}

/// The first entry that does not stand before the name.
fn first_in<'a>(blocks: &'a [Block], name: &Name) -> Option<&'a Entry>
    requires { IsRising (flat blocks.now) }
    ensures { option_copied result ≡ first_from name.now (flat blocks.now) }
{
    if blocks.is_empty() {
        return None;
    }
    let k = home(blocks, name);
    match first_from(blocks[k].entries(), name) {
        Some(entry) => Some(entry),
        None => first_after(blocks, k),
    }
}

/// Whether a floor is above the name. No name before the floor of its origin is held, so that the first entry which does
/// not stand before the name is that floor, if there is one.
pub fn is_low(blocks: &[Block], name: &Name) -> bool
    requires rising { IsRising (flat blocks.now) }
    requires settled { AreSettled (known_entries (flat blocks.now)) }
    ensures { result ≡ list_any (is_over name.now) (known_entries (flat blocks.now)) }
{
    match first_in(blocks, name) {
        Some(entry) => entry.is_over(name),
        None => false,
    }
}

/// Drops the entries that are below a floor, but for blocks of such alone, in the blocks from `start` to `end`: those
/// before have smaller origins, and those behind have names behind the floor. It tells what the floor drops.
fn trim_all(blocks: &mut Vec<Block>, start: usize, end: usize, floor: &Name) -> Fall
    requires in_range { end < length blocks.old.items }
    requires before { AreOriginsBelow floor.now.origin (known_entries (flat (take start blocks.old.items))) }
    requires behind { AreBehind floor.now (known_entries (flat (drop (suc end) blocks.old.items))) }
    ensures trimmed { blocks.new.items ≡ map (trimmed floor.now) blocks.old.items }
    ensures fall { IsFall floor.now blocks.old.items result }
{
    let mut fall = Fall::new();
    'blocks: for k in start..end + 1 {
        let more = blocks[k].trim(floor);
        fall = fall.joined(&more);
    }
    fall
}

/// Drops the entries that are below a floor, and tells what it drops. It takes no memory, and looks at the blocks from the
/// origin's first to that of the floor, which are found by binary searches: all between them are dropped. At the first entry
/// of each other block it looks only where a block is dropped as a whole, which takes 256 names that were put for each time.
fn drop_all_under(blocks: &mut Vec<Block>, floor: &Name) -> Fall
    requires { IsRising (flat blocks.old.items) }
    ensures known { known_entries (flat blocks.new.items) ≡ above_floor floor.now (known_entries (flat blocks.old.items)) }
    ensures read { (d : Declaration) → AllHeldBy d (flat blocks.old.items) → AllHeldBy d (flat blocks.new.items) }
    ensures fewer { length blocks.new.items ≤ length blocks.old.items }
    ensures entries { length (flat blocks.old.items) < 2 ^ 64
        → length (flat blocks.new.items) + result.entries ≡ length (flat blocks.old.items) }
    ensures lives { result.lives ≡ false → lives_of blocks.new.items ≡ lives_of blocks.old.items }
{
    if blocks.is_empty() {
        return Fall::new();
    }
    let start = origin_home(blocks, floor.origin());
    let end = home(blocks, floor);
    let fall = trim_all(blocks, start, end, floor);
    if !fall.whole {
        return fall;
    }
    blocks.retain(|block| !block.is_under(floor));
    fall
}

/// Puts a floor, drops what is below it, and tells what falls: how many entries of those with the floor, and whether the
/// number of live names of some block, or that of blocks, may have changed, if only by the floor. Where it finds no memory
/// no entry is changed.
pub fn raise_in(alloc: Global, blocks: &mut Vec<Block>, floor: Name) -> Result<Fall, AllocError>
    requires { IsRising (flat blocks.old.items) }
    ensures ok { OnOk result
        (known_entries (flat blocks.new.items)
        ≡ above_floor floor (put name_cmp floor Floor (known_entries (flat blocks.old.items)))) }
    ensures read { (d : Declaration) → AllHeldBy d (flat blocks.old.items) → AllHeldBy d (flat blocks.new.items) }
    ensures err { OnErr result (flat blocks.new.items ≡ flat blocks.old.items) }
    ensures few { length (flat blocks.new.items) ≤ length (put name_cmp floor Floor (known_entries (flat blocks.old.items))) }
    ensures long { length blocks.new.items ≤ length blocks.old.items + 1 }
    ensures entries { IfOk result (λ fall. length (put name_cmp floor Floor (known_entries (flat blocks.old.items))) < 2 ^ 64
        → length (flat blocks.new.items) + fall.entries
        ≡ length (put name_cmp floor Floor (known_entries (flat blocks.old.items)))) }
    ensures lives { IfOk result (λ fall. fall.lives ≡ false → lives_of blocks.new.items ≡ lives_of blocks.old.items) }
{
    let changes = put_in(alloc, blocks, floor, Held::Floor)?;
    let fall = drop_all_under(blocks, &floor);
    Ok(fall.beside(changes))
}

/// The number of the floor of an origin. A floor is the first of its origin, so that no block but the first that has a
/// name of the origin has it.
pub fn floor_in(blocks: &[Block], origin: &[u8]) -> Option<u32>
    requires rising { IsRising (flat blocks.now) }
    requires settled { AreSettled (known_entries (flat blocks.now)) }
    ensures { result ≡ first_number (filter_map (floor_number origin.now) (known_entries (flat blocks.now))) }
{
    if blocks.is_empty() {
        return None;
    }
    let k = origin_home(blocks, origin);
    floor_of(blocks[k].entries(), origin)
}

/// Cuts a block that has the most entries in two halves. Where it finds no memory nothing is changed.
fn cut(alloc: Global, blocks: &mut Vec<Block>, k: usize) -> Result<(), AllocError>
    requires in_range { k < length blocks.old.items }
    requires full { (d : List HeldEntry) → length (get_or blocks.old.items k d) ≡ longest }
    ensures ok { OnOk result (blocks.new.items ≡ halved k blocks.old.items) }
    ensures err { OnErr result (blocks.new.items ≡ blocks.old.items) }
{
    let later = blocks[k].later_half(alloc)?;
    blocks.insert(k + 1, later)?;
    blocks[k].keep_half();
    Ok(())
}

/// The home of a name, with room for it: a block that has the most entries is cut in two before. Where it finds no memory
/// nothing is changed.
fn roomy_home(alloc: Global, blocks: &mut Vec<Block>, name: &Name) -> Result<usize, AllocError>
    requires some { 0 < length blocks.old.items }
    requires rising { IsRising (flat blocks.old.items) }
    ensures home { IfOk result (λ k. IsHome blocks.new.items name.now k) }
    ensures room { IfOk result (λ k. (d : List HeldEntry) → HasRoom (get_or blocks.new.items k d) name.now) }
    ensures same { flat blocks.new.items ≡ flat blocks.old.items }
    ensures long { length blocks.new.items ≤ length blocks.old.items + 1 }
    ensures uncut { length blocks.new.items ≡ length blocks.old.items → blocks.new.items ≡ blocks.old.items }
    ensures filled { AreFilled half blocks.old.items → AreFilled half blocks.new.items }
{
    let k = home(blocks, name);
    if blocks[k].has_room(name) {
        return Ok(k);
    }
    cut(alloc, blocks, k)?;
    if blocks[k].ends_before(name) {
        return Ok(k + 1);
    }
    Ok(k)
}

/// Whether there is no block, or the last has the most entries.
fn end_full(blocks: &[Block]) -> bool
    ensures full { result ≡ true → (n : ℕ) (b : List HeldEntry)
        → n ≤ longest → AreFilled n blocks.now → AreFilled n (blocks.now ++ b ∷ []) }
    ensures some { result ≡ false → 0 < length blocks.now }
    ensures room { result ≡ false → (d : List HeldEntry) → length (get_or blocks.now (length blocks.now - 1) d) < longest }
{
    if blocks.is_empty() {
        return true;
    }
    let last = blocks.len() - 1;
    blocks[last].is_full()
}

/// Puts an entry into a block of its own behind all others. Where it finds no memory nothing is changed.
fn begin(alloc: Global, blocks: &mut Vec<Block>, entry: Entry) -> Result<(), AllocError>
    ensures ok { OnOk result (blocks.new.items ≡ blocks.old.items ++ (entry ∷ []) ∷ []) }
    ensures err { OnErr result (blocks.new.items ≡ blocks.old.items) }
{
    let mut entries = Vec::new(alloc);
    entries.push(entry)?;
    blocks.push(Block::new(entries))?;
    Ok(())
}

/// Puts an entry behind all others. A block is begun only where the last has the most entries, so that entries which are
/// put so fill their blocks. It tells whether the number of live names of a block, or that of blocks, changes. Where it finds
/// no memory nothing is changed.
fn append(alloc: Global, blocks: &mut Vec<Block>, entry: Entry) -> Result<bool, AllocError>
    ensures ok { OnOk result (flat blocks.new.items ≡ flat blocks.old.items ++ entry ∷ []) }
    ensures err { OnErr result (blocks.new.items ≡ blocks.old.items) }
    ensures grown { IsGrown blocks.old.items blocks.new.items }
    ensures filled { (n : ℕ) → n ≤ longest → AreFilled n blocks.old.items → AreFilled n blocks.new.items }
    ensures lives { IfOk result (λ changes. changes ≡ false → lives_of blocks.new.items ≡ lives_of blocks.old.items) }
{
    if end_full(blocks) {
        begin(alloc, blocks, entry)?;
        return Ok(true);
    }
    let last = blocks.len() - 1;
    let changes = blocks[last].push(entry)?;
    Ok(changes)
}

/// Puts what is held of a name into its home, and tells whether there are more or fewer live names then.
fn put_home(blocks: &mut Vec<Block>, k: usize, name: Name, held: Held) -> Result<bool, AllocError>
    requires rising { IsRising (flat blocks.old.items) }
    requires home { IsHome blocks.old.items name k }
    requires room { (d : List HeldEntry) → HasRoom (get_or blocks.old.items k d) name }
    ensures ok { OnOk result
        (known_entries (flat blocks.new.items)
        ≡ put name_cmp name (known_of held) (known_entries (flat blocks.old.items))) }
    ensures read { (d : Declaration)
        → AllHeldBy d (flat blocks.old.items) → IsHeldBy d held → AllHeldBy d (flat blocks.new.items) }
    ensures err { OnErr result (flat blocks.new.items ≡ flat blocks.old.items) }
    ensures long { length blocks.new.items ≡ length blocks.old.items }
    ensures filled { AreFilled half blocks.old.items → AreFilled half blocks.new.items }
    ensures lives { IfOk result (λ changes. changes ≡ false → lives_of blocks.new.items ≡ lives_of blocks.old.items) }
{
    let block = &mut blocks[k];
    let changes = block.put(name, held)?;
    Ok(changes)
}

/// Puts what is held of a name, in the place of what was, and tells whether the number of live names of a block, or that of
/// blocks, changes. Where it finds no memory no entry is changed.
pub fn put_in(
    alloc: Global,
    blocks: &mut Vec<Block>,
    name: Name,
    held: Held,
) -> Result<bool, AllocError>
    requires { IsRising (flat blocks.old.items) }
    ensures ok { OnOk result
        (known_entries (flat blocks.new.items)
        ≡ put name_cmp name (known_of held) (known_entries (flat blocks.old.items))) }
    ensures read { (d : Declaration)
        → AllHeldBy d (flat blocks.old.items) → IsHeldBy d held → AllHeldBy d (flat blocks.new.items) }
    ensures err { OnErr result (flat blocks.new.items ≡ flat blocks.old.items) }
    ensures few { length (flat blocks.new.items) ≤ length (put name_cmp name (known_of held) (known_entries (flat blocks.old.items))) }
    ensures long { length blocks.new.items ≤ length blocks.old.items + 1 }
    ensures behind { AreBelow name (known_entries (flat blocks.old.items)) → IsGrown blocks.old.items blocks.new.items }
    ensures filled { AreFilled half blocks.old.items → AreFilled half blocks.new.items }
    ensures lives { IfOk result (λ changes. changes ≡ false → lives_of blocks.new.items ≡ lives_of blocks.old.items) }
{
    if end_before(blocks, &name) {
        let grown = append(alloc, blocks, Entry { name, held })?;
        return Ok(grown);
    }
    let count = blocks.len();
    let k = roomy_home(alloc, blocks, &name)?;
    let is_cut = blocks.len() != count;
    let changes = put_home(blocks, k, name, held)?;
    Ok(changes || is_cut)
}

/// The number of entries when something is put of a name, where so many there are now. It errs where there are as many
/// as a number can tell, and none of this name.
pub fn count_after(blocks: &[Block], count: usize, name: &Name) -> Result<usize, AllocError>
    requires rising { IsRising (flat blocks.now) }
    requires count { count ≡ length (flat blocks.now) }
    ensures count { IfOk result
        (λ after. (k : TheKnown) → after ≡ length (put name_cmp name.now k (known_entries (flat blocks.now)))) }
    ensures full { OnErr result (count ≡ 2 ^ 64 - 1) }
    ensures known { IsSome (find name_cmp name.now (known_entries (flat blocks.now))) → IsOk result }
{
    if held_in(blocks, name).is_some() {
        return Ok(count);
    }
    if count == usize::MAX {
        return Err(AllocError);
    }
    Ok(count + 1)
}

/// Makes the run of these keys of each segment that has none.
pub fn make_in(alloc: Global, blocks: &mut Vec<Block>, keys: &[SortKey]) -> Result<(), AllocError>
    ensures plain { map plain_block blocks.new.items ≡ map plain_block blocks.old.items }
    ensures has { OnOk result (All (All (λ e. HeldHasRun keys.now e.held)) blocks.new.items) }
    ensures adds { AreAdded keys.now (orders_in (flat blocks.old.items)) (orders_in (flat blocks.new.items)) }
{
    for i in 0..blocks.len() {
        blocks[i].make_runs(alloc, keys)?;
    }
    Ok(())
}

/// Keeps runs by these keys, one for each segment.
pub fn keep_in(
    alloc: Global,
    blocks: &mut Vec<Block>,
    keys: &[SortKey],
    runs: &[Rc<Run>],
) -> Result<(), AllocError>
    requires { AreRunsOf keys.now (rows_in (flat blocks.old.items)) runs.now }
    ensures plain { map plain_block blocks.new.items ≡ map plain_block blocks.old.items }
    ensures has { OnOk result (All (All (λ e. HeldHasRun keys.now e.held)) blocks.new.items) }
    ensures adds { AreAdded keys.now (orders_in (flat blocks.old.items)) (orders_in (flat blocks.new.items)) }
{
    let mut left = runs;
    for i in 0..blocks.len() {
        left = blocks[i].keep_runs(alloc, keys, left)?;
    }
    Ok(())
}

/// Makes the cells of each segment that has none.
pub fn make_cells_in(alloc: Global, blocks: &mut Vec<Block>) -> Result<(), AllocError>
    ensures { blocks.new.items ≡ blocks.old.items }
{
    for i in 0..blocks.len() {
        blocks[i].make_cells(alloc)?;
    }
    Ok(())
}

/// The same entries, in one list.
pub fn shared(alloc: Global, blocks: &[Block]) -> Result<Vec<Entry>, AllocError>
    ensures { IfOk result (λ all. all.items ≡ flat blocks.now) }
{
    let mut all = Vec::new(alloc);
    'walk: for block in blocks {
        share_entries(&mut all, block.entries())?;
    }
    Ok(all)
}

/// The same entries in blocks, of which each but the last has the most.
pub fn in_blocks(alloc: Global, entries: &[Entry]) -> Result<Vec<Block>, AllocError>
    ensures same { IfOk result (λ blocks. flat blocks.items ≡ entries.now) }
    ensures filled { IfOk result (λ blocks. AreFilled longest blocks.items) }
{
    let mut blocks = Vec::new(alloc);
    'entries: for entry in entries {
        let shared = entry.share()?;
        append(alloc, &mut blocks, shared)?;
    }
    Ok(blocks)
}

/// Each entry's name, status and number of rows.
pub fn listing(alloc: Global, blocks: &[Block]) -> Result<Vec<Listed>, AllocError>
    ensures { IfOk result (λ all. all.items ≡ map listing_of (flat blocks.now)) }
{
    let mut all = Vec::new(alloc);
    'walk: for block in blocks {
        list_entries(&mut all, block.entries())?;
    }
    Ok(all)
}
