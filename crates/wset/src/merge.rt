//! The entries of two sets, joined name by name.
ghost use Rattle.std.specs.Prelude.{◌≡◌, ◌<◌, ◌++◌, ◌∷◌, [], false, not, length, IfOk, OnOk, MatchOption};
ghost use Rattle.std.specs.List.{AllByRecursion, filter};
ghost use Rattle.wentries.specs.Entries.{AreBelow, AllHeldBy, AreSettled, IsRising, above_floor, above_floors, known_entries, known_entry};
ghost use Rattle.wentries.specs.Knowledge.{Floor as TheFloor, is_over};
ghost use Rattle.wsegment.specs.Declaration.{Declaration};
ghost use Rattle.wentries.specs.Blocks.{flat};
ghost use Rattle.wset.specs.Merging.{IsKnownTo, Joins, join_lists};

use std::alloc::{AllocError, Global};
use std::cmp::Ordering;
use wentries::{Block, Entry, held_in, is_above, is_low, shared};
use wvalues::Name;

/// The first entry of a join, and what is left of both lists.
#[derive(Drop)]
struct Step<'a> {
    entry: Entry,
    ours: &'a [Entry],
    theirs: &'a [Entry],
}

/// The first entry of the join of two lists that are not empty.
fn first_of_both<'a>(ours: &'a [Entry], theirs: &'a [Entry]) -> Result<Step<'a>, AllocError>
    requires ours { IsRising ours.now }
    requires theirs { IsRising theirs.now }
    requires ours_filled { 0 < length ours.now }
    requires theirs_filled { 0 < length theirs.now }
    ensures { IfOk result (λ s. Joins ours.now theirs.now s.entry s.ours.now s.theirs.now) }
{
    let Some((first, ours_after)) = ours.split_first() else {
        unreachable!()
    };
    let Some((other, theirs_after)) = theirs.split_first() else {
        unreachable!()
    };
    let (entry, ours, theirs) = match first.name.cmp(&other.name) {
        Ordering::Less => (first.share()?, ours_after, theirs),
        Ordering::Equal => (first.joined(other)?, ours_after, theirs_after),
        Ordering::Greater => (other.share()?, ours, theirs_after),
    };
    Ok(Step {
        entry,
        ours,
        theirs,
    })
}

/// The first entry of the join of two lists of entries, if one has any.
fn first_joined<'a>(ours: &'a [Entry], theirs: &'a [Entry]) -> Result<Option<Step<'a>>, AllocError>
    requires ours { IsRising ours.now }
    requires theirs { IsRising theirs.now }
    ensures { let none = join_lists (known_entries ours.now) (known_entries theirs.now) ≡ [] in
        IfOk result
        (λ step. MatchOption step none
        (λ s. Joins ours.now theirs.now s.entry s.ours.now s.theirs.now)) }
{
    let Some((first, ours_after)) = ours.split_first() else {
        let Some((other, theirs_after)) = theirs.split_first() else {
            return Ok(None);
        };
        let entry = other.share()?;
        return Ok(Some(Step {
            entry,
            ours,
            theirs: theirs_after,
        }));
    };
    if theirs.is_empty() {
        let entry = first.share()?;
        return Ok(Some(Step {
            entry,
            ours: ours_after,
            theirs,
        }));
    }
    let step = first_of_both(ours, theirs)?;
    Ok(Some(step))
}

/// Whether an entry adds to what is known of its name.
fn adds(ours: &[Block], entry: &Entry) -> bool
    requires rising { IsRising (flat ours.now) }
    requires settled { AreSettled (known_entries (flat ours.now)) }
    ensures known { result ≡ false → IsKnownTo (flat ours.now) entry.now }
    ensures new { IsKnownTo (flat ours.now) entry.now → result ≡ false }
{
    if is_low(ours, &entry.name) {
        return false;
    }
    match held_in(ours, &entry.name) {
        None => true,
        Some(held) => held.learns(&entry.held),
    }
}

/// Whether some of these add to what ours tell.
fn some_add(ours: &[Block], theirs: &[Entry]) -> bool
    requires rising { IsRising (flat ours.now) }
    requires settled { AreSettled (known_entries (flat ours.now)) }
    ensures known { result ≡ false → AllByRecursion (IsKnownTo (flat ours.now)) theirs.now }
    ensures new { AllByRecursion (IsKnownTo (flat ours.now)) theirs.now → result ≡ false }
{
    'theirs: for entry in theirs {
        if adds(ours, entry) {
            return true;
        }
    }
    false
}

/// Whether theirs add to what ours tell.
pub(crate) fn teaches(ours: &[Block], theirs: &[Block]) -> bool
    requires rising { IsRising (flat ours.now) }
    requires settled { AreSettled (known_entries (flat ours.now)) }
    ensures known { result ≡ false → AllByRecursion (IsKnownTo (flat ours.now)) (flat theirs.now) }
    ensures new { AllByRecursion (IsKnownTo (flat ours.now)) (flat theirs.now) → result ≡ false }
{
    'theirs: for block in theirs {
        if some_add(ours, block.entries()) {
            return true;
        }
    }
    false
}

/// Drops the entries at the end that are below a floor.
fn drop_tail(all: &mut Vec<Entry>, floor: &Name)
    requires rising { IsRising all.old.items }
    requires behind { AreBelow floor.now (known_entries all.old.items) }
    ensures { all.new.items ≡ filter (λ e. not (is_over e.name (floor.now, TheFloor))) all.old.items }
{
    'tail: while !all.is_empty() {
        let end = all.len() - 1;
        if !is_above(&all[end].name, floor) {
            return;
        }
        all.truncate(end);
    }
}

/// Puts an entry behind others, without those that are then below it.
fn push_settled(all: &mut Vec<Entry>, entry: Entry) -> Result<(), AllocError>
    requires rising { IsRising all.old.items }
    requires behind { AreBelow entry.name (known_entries all.old.items) }
    ensures { OnOk result (all.new.items ≡ filter (λ e. not (is_over e.name (known_entry entry))) all.old.items ++ entry ∷ []) }
{
    if entry.is_floor() {
        drop_tail(all, &entry.name);
        all.push(entry)?;
        return Ok(());
    }
    all.push(entry)?;
    Ok(())
}

/// The join of two lists of entries. Segments are shared, and none is read again.
fn merged(alloc: Global, ours: &[Entry], theirs: &[Entry]) -> Result<Vec<Entry>, AllocError>
    requires ours { IsRising ours.now }
    requires theirs { IsRising theirs.now }
    ensures known { IfOk result
        (λ all. known_entries all.items
        ≡ above_floors (join_lists (known_entries ours.now) (known_entries theirs.now))) }
    ensures read { IfOk result
        (λ all. (d : Declaration)
        → AllHeldBy d ours.now → AllHeldBy d theirs.now → AllHeldBy d all.items) }
{
    let mut all = Vec::new(alloc);
    let mut ours = ours;
    let mut theirs = theirs;
    'merge: while let Some(step) = first_joined(ours, theirs)? {
        push_settled(&mut all, step.entry)?;
        ours = step.ours;
        theirs = step.theirs;
    }
    Ok(all)
}

/// The entries of the join of two sets.
pub(crate) fn joined(
    alloc: Global,
    ours: &[Block],
    theirs: &[Block],
) -> Result<Vec<Entry>, AllocError>
    requires ours { IsRising (flat ours.now) }
    requires theirs { IsRising (flat theirs.now) }
    ensures known { IfOk result
        (λ all. known_entries all.items
        ≡ above_floors (join_lists (known_entries (flat ours.now)) (known_entries (flat theirs.now)))) }
    ensures read { IfOk result
        (λ all. (d : Declaration)
        → AllHeldBy d (flat ours.now) → AllHeldBy d (flat theirs.now) → AllHeldBy d all.items) }
{
    let ours = shared(alloc, ours)?;
    let theirs = shared(alloc, theirs)?;
    let all = merged(alloc, &ours, &theirs)?;
    Ok(all)
}
