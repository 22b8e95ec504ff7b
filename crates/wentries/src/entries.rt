//! Entries in the order of their names.
ghost use Rattle.std.specs.Prelude.{All, Some, [], ◌∷◌, slice_get, not, true, false, ◌≢◌, ◌≡◌, ◌<◌, ◌≤◌, ◌++◌};
ghost use Rattle.std.specs.Prelude.{drop, length, map, option_map, IfSome, IfOk, IfErr, OnOk, OnErr};
ghost use Rattle.std.specs.List.{filter, filter_map, insert};
ghost use Rattle.std.specs.Option.{option_copied};
ghost use Rattle.std.specs.Ordering.{is_lt};
ghost use Rattle.std.specs.FinMap.{find, put};
ghost use Rattle.wsegment.specs.Declaration.{Declaration};
ghost use Rattle.wvalues.specs.Names.{name_cmp};
ghost use Rattle.wentries.specs.Knowledge.{Known as TheKnown, Floor, first_of as first_number, floor_number, is_above, is_over, join_known};
ghost use Rattle.wentries.specs.Holding.{IsHeldBy, known_of};
ghost use Rattle.wentries.specs.Keeping.{AreAdded, BeginWithRuns, HeldHasRun, kept_in, orders_in, plain_block, rows_in};
ghost use Rattle.wentries.specs.Entries.{AllHeldBy, IsGap, IsPlace, IsRising, above_floor, first_from};
ghost use Rattle.wentries.specs.Entries.{known_entries, known_entry, listing_of};

use crate::held::Held;
use crate::kept_content::Kept;
use crate::status::Listed;
use std::alloc::{AllocError, Global};
use std::rc::Rc;
use wruns::Run;
use wvalues::{Name, SortKey};

/// Whether a floor is above a name: of its origin, with a greater number.
pub fn is_above(name: &Name, floor: &Name) -> bool
    ensures { result ≡ is_above name.now floor.now }
{
    name.origin() == floor.origin() && name.number() < floor.number()
}

/// A name that is not unknown, and what is held of it. It is small: an insert moves those behind it in
/// their block.
#[derive(Drop)]
pub struct Entry {
    pub name: Name,
    pub held: Held,
}

impl Entry {
    /// The same, for another set.
    pub fn share(&self) -> Result<Entry, AllocError>
        ensures { IfOk result (λ entry. entry ≡ self.now) }
    {
        let held = self.held.share()?;
        Ok(Entry {
            name: self.name,
            held,
        })
    }

    /// Whether it stands before the name.
    pub(crate) fn is_below(&self, name: &Name) -> bool
        ensures { result ≡ is_lt (name_cmp self.now.name name.now) }
    {
        self.name.cmp(name).is_lt()
    }

    /// One where its name is live, else none.
    pub(crate) fn live_count(&self) -> usize
        ensures { result ≡ length (kept_in (self.now ∷ [])) }
    {
        match self.held {
            Held::Live(_) => 1,
            Held::Disputed | Held::Retired | Held::Floor => 0,
        }
    }

    /// Whether it is a floor.
    pub fn is_floor(&self) -> bool
        ensures yes { result ≡ true → known_of self.now.held ≡ Floor }
        ensures other { result ≡ false → known_of self.now.held ≢ Floor }
    {
        match self.held {
            Held::Floor => true,
            Held::Live(_) => false,
            Held::Disputed => false,
            Held::Retired => false,
        }
    }

    /// Whether it is a floor above the name.
    pub(crate) fn is_over(&self, name: &Name) -> bool
        ensures { result ≡ is_over name.now (known_entry self.now) }
    {
        match self.held {
            Held::Floor => is_above(name, &self.name),
            Held::Live(_) => false,
            Held::Disputed => false,
            Held::Retired => false,
        }
    }

    /// Its number, if it is a floor of this origin.
    pub(crate) fn floor_of(&self, origin: &[u8]) -> Option<u32>
        ensures { result ≡ floor_number origin.now (known_entry self.now) }
    {
        if self.name.origin() != origin {
            return None;
        }
        match self.held {
            Held::Floor => Some(self.name.number()),
            Held::Live(_) => None,
            Held::Disputed => None,
            Held::Retired => None,
        }
    }

    /// What two sets know together of a name, of which these are the entries.
    pub fn joined(&self, other: &Entry) -> Result<Entry, AllocError>
        ensures known { let known = join_known (known_of self.now.held) (known_of other.now.held) in
            IfOk result (λ entry. known_entry entry ≡ (self.now.name, known)) }
        ensures read { IfOk result
            (λ entry. (d : Declaration) → IsHeldBy d self.now.held → IsHeldBy d entry.held) }
    {
        let held = self.held.joined(&other.held)?;
        Ok(Entry {
            name: self.name,
            held,
        })
    }
}

/// Puts the same entries behind others.
pub(crate) fn share_entries(all: &mut Vec<Entry>, entries: &[Entry]) -> Result<(), AllocError>
    ensures { OnOk result (all.new.items ≡ all.old.items ++ entries.now) }
{
    'entries: for entry in entries {
        let shared = entry.share()?;
        all.push(shared)?;
    }
    Ok(())
}

/// Where a name is, or else where it would go.
fn place(entries: &[Entry], name: &Name) -> Result<usize, usize>
    requires { IsRising entries.now }
    ensures bound { IfOk result (λ i. i < length entries.now) }
    ensures end { IfErr result (λ i. i ≤ length entries.now) }
    ensures found { IfOk result (IsPlace entries.now name.now) }
    ensures absent { IfErr result (IsGap entries.now name.now) }
{
    entries.binary_search_by_key(name, |entry| entry.name)
}

/// What is held of a name, if it is not unknown.
pub(crate) fn held_of<'a>(entries: &'a [Entry], name: &Name) -> Option<&'a Held>
    requires { IsRising entries.now }
    ensures known { option_map known_of (option_copied result)
        ≡ find name_cmp name.now (known_entries entries.now) }
    ensures read { IfSome result
        (λ held. (d : Declaration) → AllHeldBy d entries.now → IsHeldBy d held.now) }
{
    match place(entries, name) {
        Ok(i) => Some(&entries[i].held),
        Err(_) => None,
    }
}

/// Puts what is held of a name, in the place of what was. Where it finds no memory nothing is changed.
pub(crate) fn put_entry(entries: &mut Vec<Entry>, name: Name, held: Held) -> Result<(), AllocError>
    requires { IsRising entries.old.items }
    ensures ok { OnOk result
        (known_entries entries.new.items
        ≡ put name_cmp name (known_of held) (known_entries entries.old.items)) }
    ensures read { (d : Declaration)
        → AllHeldBy d entries.old.items → IsHeldBy d held → AllHeldBy d entries.new.items }
    ensures err { OnErr result (entries.new.items ≡ entries.old.items) }
{
    match place(entries, &name) {
        Ok(i) => {
            let entry = &mut entries[i];
            entry.held = held;
            Ok(())
        }
        Err(i) => {
            entries.insert(i, Entry { name, held })?;
            Ok(())
        }
    }
}

/// The first entry that does not stand before the name.
pub(crate) fn first_from<'a>(entries: &'a [Entry], name: &Name) -> Option<&'a Entry>
    requires { IsRising entries.now }
    ensures { option_copied result ≡ first_from name.now entries.now }
{
    match place(entries, name) {
        Ok(i) => Some(&entries[i]),
        Err(i) if i < entries.len() => Some(&entries[i]),
        Err(_) => None,
    }
}

/// Drops the entries that are below a floor.
pub(crate) fn drop_under(entries: &mut Vec<Entry>, floor: &Name)
    ensures { entries.new.items ≡ filter (λ e. not (is_above e.name floor.now)) entries.old.items }
{
    entries.retain(|entry| !is_above(&entry.name, floor));
}

/// The number of the first floor of an origin.
pub(crate) fn floor_of(entries: &[Entry], origin: &[u8]) -> Option<u32>
    ensures { result ≡ first_number (filter_map (floor_number origin.now) (known_entries entries.now)) }
{
    'entries: for entry in entries {
        if let Some(number) = entry.floor_of(origin) {
            return Some(number);
        }
    }
    None
}

/// Makes the run of these keys of each segment that has none.
pub(crate) fn make_runs(
    alloc: Global,
    entries: &mut Vec<Entry>,
    keys: &[SortKey],
) -> Result<(), AllocError>
    ensures plain { plain_block entries.new.items ≡ plain_block entries.old.items }
    ensures has { OnOk result (All (λ e. HeldHasRun keys.now e.held) entries.new.items) }
    ensures adds { AreAdded keys.now (orders_in entries.old.items) (orders_in entries.new.items) }
{
    for i in 0..entries.len() {
        let entry = &mut entries[i];
        entry.held.make(alloc, keys)?;
    }
    Ok(())
}

/// Keeps the first of some runs by these keys, one for each segment, and gives those that are left.
pub(crate) fn keep_runs<'a>(
    alloc: Global,
    entries: &mut Vec<Entry>,
    keys: &[SortKey],
    runs: &'a [Rc<Run>],
) -> Result<&'a [Rc<Run>], AllocError>
    requires { BeginWithRuns keys.now (rows_in entries.old.items) runs.now }
    ensures plain { plain_block entries.new.items ≡ plain_block entries.old.items }
    ensures has { OnOk result (All (λ e. HeldHasRun keys.now e.held) entries.new.items) }
    ensures adds { AreAdded keys.now (orders_in entries.old.items) (orders_in entries.new.items) }
    ensures left { IfOk result (λ left. left.now ≡ drop (length (rows_in entries.old.items)) runs.now) }
{
    let mut left = runs;
    for i in 0..entries.len() {
        let entry = &mut entries[i];
        left = entry.held.keep_run(alloc, keys, left)?;
    }
    Ok(left)
}

/// Makes the cells of each segment that has none.
pub(crate) fn make_cells(alloc: Global, entries: &mut Vec<Entry>) -> Result<(), AllocError>
    ensures { entries.new.items ≡ entries.old.items }
{
    for i in 0..entries.len() {
        let entry = &mut entries[i];
        entry.held.make_cells(alloc)?;
    }
    Ok(())
}

/// How many names are live.
pub(crate) fn live_count(entries: &[Entry]) -> usize
    ensures { result ≡ length (kept_in entries.now) }
{
    let mut count = 0;
    'entries: for entry in entries {
        if let Held::Live(_) = &entry.held {
            count += 1;
        }
    }
    count
}

/// The live name of a number, from 0 in the order of names, and what is kept of it.
pub fn live_at(entries: &[Entry], number: usize) -> (Name, &Kept)
    requires { number < length (kept_in entries.now) }
    ensures { slice_get (kept_in entries.now) number ≡ Some (result.0, result.1.now) }
{
    let mut left = number;
    'entries: for entry in entries {
        match &entry.held {
            Held::Live(kept) if left == 0 => return (entry.name, kept),
            Held::Live(_) => left -= 1,
            Held::Disputed | Held::Retired | Held::Floor => {}
        }
    }
    unreachable!()
}

/// Puts each entry's name, status and number of rows behind others.
pub(crate) fn list_entries(all: &mut Vec<Listed>, entries: &[Entry]) -> Result<(), AllocError>
    ensures { OnOk result (all.new.items ≡ all.old.items ++ map listing_of entries.now) }
{
    'entries: for entry in entries {
        all.push(Listed {
            name: entry.name,
            status: entry.held.status(),
            rows: entry.held.rows(),
        })?;
    }
    Ok(())
}
