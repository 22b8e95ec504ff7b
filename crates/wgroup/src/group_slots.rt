//! The groups of rows in a table of slots.
//!
//! A group stands in one of few slots, from that of its key's hash on, or where all of these are taken, among the groups that
//! stand apart. So a row whose key is met in none of its slots, nor apart, is the first of its group, whatever hashes are.
ghost use Rattle.std.specs.Prelude.{◌≡◌, ◌≤◌, ◌<◌, ◌+◌, ◌*◌, ◌^◌, length, nat_le, ◌++◌, ◌∷◌, []};
ghost use Rattle.std.specs.Prelude.{true, false, if◌then◌else◌, IfOk, IfSome, OnOk};
ghost use Rattle.std.specs.List.{list_any, position, position_or_len};
ghost use Rattle.std.specs.Option.{IfNone};
ghost use Rattle.wgroup.specs.Sight.{first_of};
ghost use Rattle.wgroup.specs.declared.keyed.GroupingRows.{GroupingRows};
ghost use Rattle.wgroup.specs.Table.{HasKeys, Holds, alike, apart_after, is_of_group, key_hash, looked_at, looks_after, slot_of};

use crate::alike::{has_key, key_hash};
use crate::keyed::GroupingRows;
use crate::keys::push_key;
use std::alloc::{AllocError, Global};
use wrows::{cells_at, slice_of};
use wvalues::Value;

/// In how many slots a key is looked for.
const MOST_PROBES: usize = 8;

/// What a slot holds in which no group stands.
const EMPTY: u32 = u32::MAX;

/// The groups of the rows that were seen.
#[derive(Drop)]
pub(crate) struct GroupTable {
    /// The number of the first row of each group, in the order of first sight.
    pub(crate) firsts: Vec<u32>,
    /// The key of each group, one behind the other, which lie closer together than the first rows do.
    pub(crate) keys: Vec<Value>,
    /// The numbers of groups. There are slots behind the last one of a hash, for the keys that are looked for from there on.
    pub(crate) slots: Vec<u32>,
    /// The numbers of the groups that found their slots taken.
    pub(crate) apart: Vec<u32>,
    /// With how many groups that stand apart rows were compared.
    pub(crate) looks: usize,
}

/// A table without groups, with so many slots for hashes, a power of two.
pub(crate) fn empty_table(alloc: Global, slots: usize) -> Result<GroupTable, AllocError>
    requires some { 1 ≤ slots }
    requires few { slots < 2 ^ 32 }
    ensures holds { (keyed : GroupingRows) → IfOk result (Holds keyed 0) }
    ensures wide { IfOk result (λ table. length table.slots.items ≡ slots + 7) }
    ensures apart { IfOk result (λ table. table.apart.items ≡ []) }
    ensures looks { IfOk result (λ table. table.looks ≡ 0) }
{
    Ok(GroupTable {
        firsts: Vec::new(alloc),
        keys: Vec::new(alloc),
        slots: vec![in alloc; EMPTY; slots + (MOST_PROBES - 1)]?,
        apart: Vec::new(alloc),
        looks: 0,
    })
}

// The slot from which on a key of this hash is looked for. The length of the slots less the most probes is the mask `n - 1` of
// `n` hashes.
fn slot_of(slots: &[u32], hash: u64) -> usize
    requires { 8 ≤ length slots.now }
    ensures slot { result ≡ slot_of slots.now hash }
    ensures within { result + 8 ≤ length slots.now }
{
    hash as usize & (slots.len() - MOST_PROBES)
}

// Whether a group has this number, and a row is of that group.
#[inline(always)]
fn is_of_group(keyed: &GroupingRows, table: &GroupTable, number: usize, row: usize) -> bool
    requires { HasKeys keyed.now table.now.firsts.items table.now.keys.items }
    ensures { result ≡ is_of_group keyed.now table.now.firsts.items row number }
{
    if number >= table.firsts.len() {
        return false;
    }
    let key = slice_of(&table.keys, keyed.columns.len(), number);
    has_key(keyed, row, key)
}

// The group of a row, if its number is among these.
#[inline(always)]
fn group_among(keyed: &GroupingRows, table: &GroupTable, numbers: &[u32], row: usize) -> Option<u32>
    requires { HasKeys keyed.now table.now.firsts.items table.now.keys.items }
    ensures some { IfSome result (λ number. is_of_group keyed.now table.now.firsts.items row number ≡ true) }
    ensures found { IfSome result (λ number. list_any (is_of_group keyed.now table.now.firsts.items row) numbers.now ≡ true) }
    ensures none { IfNone result (list_any (is_of_group keyed.now table.now.firsts.items row) numbers.now ≡ false) }
{
    for number in numbers {
        if is_of_group(keyed, table, *number as usize, row) {
            return Some(*number);
        }
    }
    None
}

// The first of some slots in which no group stands, where there are so many groups.
fn free_slot(slots: &[u32], groups: usize) -> Option<usize>
    ensures { result ≡ position (nat_le groups) slots.now }
{
    slots.iter().position(|number| *number as usize >= groups)
}

impl GroupTable {
    /// Guesses of the numbers of some rows' groups, from a row on: what stands in the first slot of each. Nothing is done between one
    /// row and the next, so that the processor has many slots on their way from memory at once.
    #[inline(never)]
    pub(crate) fn guess(&self, keyed: &GroupingRows, from: usize, guesses: &mut [u32])
        requires { 8 ≤ length self.now.slots.items }
    {
        for step in 0..guesses.len() {
            let hash = key_hash(keyed, from.saturating_add(step));
            guesses[step] = self.slots[slot_of(&self.slots, hash)];
        }
    }

    // The group of a row, of whose key this is the first slot, if it is of one that was seen. What else changes is the count
    // of looks.
    fn group_seen(&mut self, keyed: &GroupingRows, first: usize, row: usize) -> Option<u32>
        requires keys { HasKeys keyed.now self.old.firsts.items self.old.keys.items }
        requires first { first + 8 ≤ length self.old.slots.items }
        ensures some { IfSome result (λ number. is_of_group keyed.now self.old.firsts.items row number ≡ true) }
        ensures none { IfNone result (list_any (is_of_group keyed.now self.old.firsts.items row)
            (looked_at self.old.slots.items self.old.apart.items first) ≡ false) }
        ensures same { self.new ≡ record self.old { looks = self.new.looks } }
        ensures looks { self.new.looks ≡ looks_after keyed.now self.old first row }
    {
        let slots = &self.slots[first..first + MOST_PROBES];
        // most rows are of the group in the first of their slots, for which no loop is gone into
        if is_of_group(keyed, self, slots[0] as usize, row) {
            return Some(slots[0]);
        }
        let near = group_among(keyed, self, slots, row);
        if near.is_some() {
            return near;
        }
        self.looks = self.looks.saturating_add(self.apart.len());
        group_among(keyed, self, &self.apart, row)
    }

    // Adds the group that begins with a row, of whose key this is the first slot.
    fn add(&mut self, keyed: &GroupingRows, first: usize, row: usize) -> Result<u32, AllocError>
        requires held { Holds keyed.now row self.old }
        requires new { list_any (alike keyed.now row) self.old.firsts.items ≡ false }
        requires first { first ≡ slot_of self.old.slots.items (key_hash keyed.now row) }
        requires within { first + 8 ≤ length self.old.slots.items }
        requires row { row < 2 ^ 32 }
        requires few { length self.old.firsts.items < 2 ^ 32 }
        ensures held { OnOk result (Holds keyed.now (row + 1) self.new) }
        ensures number { IfOk result (λ number. number ≡ length self.old.firsts.items) }
        ensures apart { OnOk result (self.new.apart.items ≡ apart_after self.old first) }
        ensures looks { self.new.looks ≡ self.old.looks }
    {
        let groups = self.firsts.len();
        let number = groups as u32;
        match free_slot(&self.slots[first..first + MOST_PROBES], groups) {
            Some(step) => self.slots[first + step] = number,
            None => self.apart.push(number)?,
        }
        push_key(keyed.columns, cells_at(keyed.rows, row), &mut self.keys)?;
        self.firsts.push(row as u32)?;
        Ok(number)
    }

    // The number of a row's group, of 32 bits, which is added where no earlier row is of it.
    #[inline(never)]
    fn number_of(&mut self, keyed: &GroupingRows, row: usize) -> Result<u32, AllocError>
        requires held { Holds keyed.now row self.old }
        requires row { row < 2 ^ 32 }
        requires few { length self.old.firsts.items < 2 ^ 32 }
        ensures held { OnOk result (Holds keyed.now (row + 1) self.new) }
        ensures number { IfOk result (λ number. number ≡ position_or_len (alike keyed.now row) (first_of (alike keyed.now) (row + 1))) }
        ensures looks { self.new.looks ≡ looks_after keyed.now self.old (slot_of self.old.slots.items (key_hash keyed.now row)) row }
    {
        let first = slot_of(&self.slots, key_hash(keyed, row));
        match self.group_seen(keyed, first, row) {
            Some(number) => Ok(number),
            None => self.add(keyed, first, row),
        }
    }

    /// The number of a row's group, of 32 bits, which is added where no earlier row is of it. A guess of it, which may be any number,
    /// is looked at first.
    #[inline(always)]
    pub(crate) fn number_guessed(
        &mut self,
        keyed: &GroupingRows,
        row: usize,
        guess: u32,
    ) -> Result<u32, AllocError>
        requires held { Holds keyed.now row self.old }
        requires row { row < 2 ^ 32 }
        requires few { length self.old.firsts.items < 2 ^ 32 }
        ensures held { OnOk result (Holds keyed.now (row + 1) self.new) }
        ensures number { IfOk result (λ number. number ≡ position_or_len (alike keyed.now row) (first_of (alike keyed.now) (row + 1))) }
        ensures looks { self.new.looks ≡ (if is_of_group keyed.now self.old.firsts.items row guess then self.old.looks
            else looks_after keyed.now self.old (slot_of self.old.slots.items (key_hash keyed.now row)) row) }
    {
        if is_of_group(keyed, self, guess as usize, row) {
            return Ok(guess);
        }
        self.number_of(keyed, row)
    }
}
