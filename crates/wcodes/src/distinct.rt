//! The distinct values of a column, found at a bounded cost for each cell: a value is looked for in few slots of a table,
//! from that of its hash on. Values whose hashes collide push each other out, and are then listed more than once.
ghost use Rattle.std.specs.Prelude.{◌≡◌, ◌≤◌, ◌<◌, ◌+◌, ◌^◌, ℕ, true, All, length, map, IfNone, IfOk, IfSome, OnOk};
ghost use Rattle.wvalues.specs.Meaning.{meaning};
ghost use Rattle.wcodes.specs.Columns.{value_at};
ghost use Rattle.wcodes.specs.CodedRows.{values_seen};

use std::alloc::{AllocError, Global};
use std::hash::{FoldHasher, Hash, Hasher};
use wvalues::Value;

/// The most distinct values that are found by hashing. Where there are more, few cells share a value, and sorting the
/// cells themselves costs less.
const MOST_DISTINCT: usize = 1 << 16;

/// The most slots of a table, a power of two.
const MOST_SLOTS: usize = 1 << 17;

/// In how many slots a value is looked for.
const MOST_PROBES: usize = 8;

/// What a slot holds in which no value stands.
const EMPTY: u32 = u32::MAX;

/// The distinct values of a column, and for each cell the number of its value, of 32 bits.
#[derive(Drop)]
pub(crate) struct Distinct<'a> {
    pub(crate) values: Vec<&'a Value>,
    pub(crate) numbers: Vec<u32>,
}

// Whether a value has this number and is the same as another.
fn is_known(values: &[&Value], number: usize, value: &Value) -> bool
    ensures within { result ≡ true → number < length values.now }
    ensures same { result ≡ true → value_at (values_seen values.now) number ≡ meaning value.now }
{
    if number >= values.len() {
        return false;
    }
    values[number].is_same(value)
}

// One of so many slots: the one of this number, where they are a power of two, those behind the last one being the first.
#[inline(always)]
fn wrapped(number: usize, slots: usize) -> usize
    requires { 0 < slots }
    ensures { result < slots }
{
    number & (slots - 1)
}

// The number of the same value, where it stands in one of few slots from one on. Behind one in which no value stands it is in none.
fn known_number(values: &[&Value], slots: &[u32], first: usize, value: &Value) -> Option<usize>
    requires { 0 < length slots.now }
    ensures within { IfSome result (λ number. number < length values.now) }
    ensures same { IfSome result (λ number. value_at (values_seen values.now) number ≡ meaning value.now) }
{
    for step in 0..MOST_PROBES {
        let number = slots[wrapped(first.wrapping_add(step), slots.len())];
        if number == EMPTY {
            return None;
        }
        if is_known(values, number as usize, value) {
            return Some(number as usize);
        }
    }
    None
}

// The slot of a new value: of few from one on the first in which none stands, and else that one.
fn free_slot(slots: &[u32], first: usize) -> usize
    requires { first < length slots.now }
    ensures { result < length slots.now }
{
    for step in 0..MOST_PROBES {
        let slot = wrapped(first.wrapping_add(step), slots.len());
        if slots[slot] == EMPTY {
            return slot;
        }
    }
    first
}

// The slot from which on a value is looked for.
fn slot_of(value: &Value, slots: usize) -> usize
    requires { 0 < slots }
    ensures { result < slots }
{
    let mut hasher = FoldHasher::default();
    value.hash(&mut hasher);
    wrapped(hasher.finish() as usize, slots)
}

// Lists a new value, and gives its number.
fn list_value<'a>(
    values: &mut Vec<&'a Value>,
    slots: &mut Vec<u32>,
    first: usize,
    value: &'a Value,
) -> Result<usize, AllocError>
    requires { first < length slots.old.items }
    ensures within { IfOk result (λ number. number < length values.new.items) }
    ensures same { IfOk result (λ number. value_at (values_seen values.new.items) number ≡ meaning value.now) }
    ensures kept { OnOk result ((i : ℕ) → i < length values.old.items → value_at (values_seen values.new.items) i
        ≡ value_at (values_seen values.old.items) i) }
    ensures longer { OnOk result (length values.new.items ≡ length values.old.items + 1) }
    ensures slots { OnOk result (length slots.new.items ≡ length slots.old.items) }
{
    let number = values.len();
    values.push(value)?;
    let slot = free_slot(slots, first);
    slots[slot] = u32::try_from(number).unwrap_or(EMPTY);
    Ok(number)
}

// The number of a value among those that are listed, with it where it was not found.
fn number_of<'a>(
    values: &mut Vec<&'a Value>,
    slots: &mut Vec<u32>,
    value: &'a Value,
) -> Result<usize, AllocError>
    requires { 0 < length slots.old.items }
    ensures within { IfOk result (λ number. number < length values.new.items) }
    ensures same { IfOk result (λ number. value_at (values_seen values.new.items) number ≡ meaning value.now) }
    ensures kept { OnOk result ((i : ℕ) → i < length values.old.items → value_at (values_seen values.new.items) i
        ≡ value_at (values_seen values.old.items) i) }
    ensures longer { OnOk result (length values.old.items ≤ length values.new.items) }
    ensures few { OnOk result (length values.new.items ≤ length values.old.items + 1) }
    ensures slots { OnOk result (length slots.new.items ≡ length slots.old.items) }
{
    let first = slot_of(value, slots.len());
    match known_number(values, slots, first, value) {
        Some(number) => Ok(number),
        None => list_value(values, slots, first, value),
    }
}

// A table of empty slots for the distinct ones of so many values, a power of two of them.
fn empty_slots(alloc: Global, count: usize) -> Result<Vec<u32>, AllocError>
    ensures { IfOk result (λ slots. 0 < length slots.items) }
{
    let most = count.saturating_mul(2).min(MOST_SLOTS).max(1);
    vec![in alloc; EMPTY; most.next_power_of_two()]
}

/// The distinct values of a column, in the order of first sight; a value may be listed more than once where hashes
/// collide. None where more than 65,536 are listed.
pub(crate) fn distinct_values<'a>(
    alloc: Global,
    column: &[&'a Value],
) -> Result<Option<Distinct<'a>>, AllocError>
    ensures cells { IfOk result (λ distinct. IfSome distinct (λ found. map (value_at (values_seen found.values.items))
        found.numbers.items ≡ values_seen column.now)) }
    ensures below { IfOk result (λ distinct. IfSome distinct (λ found. All (λ i. i < length found.values.items) found.numbers.items)) }
    ensures few { IfOk result (λ distinct. IfSome distinct (λ found. length found.values.items ≤ length column.now)) }
    ensures most { IfOk result (λ distinct. IfSome distinct (λ found. length found.values.items ≤ 2 ^ 16)) }
    ensures none { IfOk result (λ distinct. IfNone distinct (2 ^ 16 < length column.now)) }
{
    let mut slots = empty_slots(alloc, column.len())?;
    let mut values = Vec::new(alloc);
    let mut numbers = Vec::with_capacity(alloc, column.len())?;
    for value in column {
        let number = number_of(&mut values, &mut slots, *value)?;
        if values.len() > MOST_DISTINCT {
            return Ok(None);
        }
        numbers.push(number as u32)?;
    }
    Ok(Some(Distinct { values, numbers }))
}
