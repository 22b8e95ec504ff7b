//! Where the peers of a row end, and the number of each group of them.
ghost use Rattle.std.specs.Prelude.{◌≡◌, ◌<◌, ◌≤◌, ◌+◌, ◌-◌, ◌^◌, ℕ, [], ◌∷◌, ◌++◌, length, slice_index, OnOk};
ghost use Rattle.wvalues.specs.Order.{keys_cmp};
ghost use Rattle.wframe.specs.KeyRows.{key_lists, sort_keys, AreInOrder};
ghost use Rattle.wframe.specs.Peers.{is_before, is_upto};
ghost use Rattle.wframe.specs.Cuts.{CutsAt, BeginsWith};
ghost use Rattle.wframe.specs.PeerGroups.{AreGroups, HoldsEnd, begins_of};

use crate::ahead::Ahead;
use crate::frame::Span;
use crate::key_rows::KeyRows;
use std::alloc::AllocError;

// A row that agrees with the first of some rows, and behind it one that does not, or the place behind the last row. The steps
// from row to row double.
fn end_bounds(rows: &KeyRows, first: usize) -> Span
    requires ordered { AreInOrder rows.now }
    requires first { first < length (key_lists rows.now) }
    ensures { HoldsEnd (keys_cmp (sort_keys rows.now)) (key_lists rows.now) first result }
{
    let count = rows.count();
    let mut from = first;
    while from - first + 1 < count - from {
        let place = from + (from - first + 1);
        if !rows.agree(first, place) {
            return Span { from, to: place };
        }
        from = place;
    }
    Span { from, to: count }
}

// Where the rows that agree with a row end, between two places.
fn end_between(rows: &KeyRows, first: usize, bounds: Span) -> usize
    requires ordered { AreInOrder rows.now }
    requires first { first < length (key_lists rows.now) }
    requires bounds { HoldsEnd (keys_cmp (sort_keys rows.now)) (key_lists rows.now) first bounds }
    ensures { CutsAt (length (key_lists rows.now)) (is_upto (keys_cmp (sort_keys rows.now)) (key_lists rows.now) first) result }
{
    let mut from = bounds.from;
    let mut to = bounds.to;
    while 1 < to - from {
        let middle = from + (to - from) / 2;
        if rows.agree(first, middle) {
            from = middle;
        } else {
            to = middle;
        }
    }
    to
}

/// Where the rows that agree with a row end, which is the first of them. Without keys all agree.
///
/// It looks at rows in steps that double, and then halves the last step, so it compares few of many rows that agree.
pub fn agreeing_end(rows: &KeyRows, first: usize) -> usize
    requires ordered { AreInOrder rows.now }
    requires first { first < length (key_lists rows.now) }
    requires before { CutsAt (length (key_lists rows.now)) (is_before (keys_cmp (sort_keys rows.now)) (key_lists rows.now) first) first }
    ensures { CutsAt (length (key_lists rows.now)) (is_upto (keys_cmp (sort_keys rows.now)) (key_lists rows.now) first) result }
{
    if rows.keys().is_empty() {
        return rows.count();
    }
    end_between(rows, first, end_bounds(rows, first))
}

// Adds a group of so many rows, which ends at a place: for each row the group's number, and for the group its end.
fn push_group(
    numbers: &mut Vec<u32>,
    ends: &mut Vec<u32>,
    rows: usize,
    end: usize,
) -> Result<(), AllocError>
    requires number { length ends.old.items < 2 ^ 32 }
    requires end { end < 2 ^ 32 }
    ensures ends { OnOk result (ends.new.items ≡ ends.old.items ++ end ∷ []) }
    ensures stays { OnOk result (BeginsWith numbers.old.items numbers.new.items) }
    ensures each { OnOk result ((i : ℕ) → length numbers.old.items ≤ i → i < length numbers.new.items
        → slice_index numbers.new.items i ≡ length ends.old.items) }
    ensures long { OnOk result (length numbers.new.items ≡ length numbers.old.items + rows) }
{
    let number = ends.len() as u32;
    ends.push(end as u32)?;
    for _ in 0..rows {
        numbers.push(number)?;
    }
    Ok(())
}

/// Adds, for each row, the number of its group of peers, and for each group where it ends, counted on from `first`. Groups are
/// numbered on from those that are there.
///
/// Rows are compared with the first of their peers alone, and few of many that are peers.
pub fn push_peers(
    numbers: &mut Vec<u32>,
    ends: &mut Vec<u32>,
    rows: &KeyRows,
    first: usize,
) -> Result<(), AllocError>
    requires ordered { AreInOrder rows.now }
    requires numbers { length numbers.old.items ≡ first }
    requires last { slice_index (begins_of ends.old.items) (length ends.old.items) ≡ first }
    requires few { length ends.old.items ≤ first }
    requires room { first + length (key_lists rows.now) < 2 ^ 32 }
    ensures groups { OnOk result (AreGroups (keys_cmp (sort_keys rows.now)) (key_lists rows.now) first
        (length ends.old.items) (length (key_lists rows.now)) numbers.new.items ends.new.items) }
    ensures numbers_stay { OnOk result (BeginsWith numbers.old.items numbers.new.items) }
    ensures ends_stay { OnOk result (BeginsWith ends.old.items ends.new.items) }
    ensures long { OnOk result (length numbers.new.items ≡ first + length (key_lists rows.now)) }
    ensures few { OnOk result (length ends.new.items ≤ first + length (key_lists rows.now)) }
    ensures last { OnOk result (slice_index (begins_of ends.new.items) (length ends.new.items) ≡ first + length (key_lists rows.now)) }
{
    let count = rows.count();
    let mut ahead = Ahead::default();
    let mut from = 0;
    while from < count {
        rows.look_ahead(&mut ahead, from);
        let to = agreeing_end(rows, from);
        push_group(numbers, ends, to - from, first + to)?;
        from = to;
    }
    Ok(())
}

/// Rows in order, with the number of each row's group of peers, and for each group the place where it ends, counted on from
/// `first`. The first row's group has the number `first_group`.
#[derive(Clone, Copy)]
pub struct PeerEnds<'a> {
    rows: KeyRows<'a>,
    numbers: &'a [u32],
    ends: &'a [u32],
    first: usize,
    first_group: usize,
    ghost ordered: { AreInOrder rows },
    ghost groups: { AreGroups (keys_cmp (sort_keys rows)) (key_lists rows) first first_group (length (key_lists rows))
        numbers.now ends.now },
}

impl<'a> PeerEnds<'a> {
    ghost use Rattle.std.specs.Prelude.{true, false};
    ghost use Rattle.wframe.specs.Peers.{are_peers};

    /// The rows, and the groups of their peers.
    pub fn new(
        rows: KeyRows<'a>,
        numbers: &'a [u32],
        ends: &'a [u32],
        first: usize,
        first_group: usize,
    ) -> PeerEnds<'a>
        requires ordered { AreInOrder rows }
        requires groups { AreGroups (keys_cmp (sort_keys rows)) (key_lists rows) first first_group (length (key_lists rows))
            numbers.now ends.now }
        ensures rows { result.rows ≡ rows.entry }
        ensures numbers { result.numbers ≡ numbers.entry }
        ensures ends { result.ends ≡ ends.entry }
        ensures first { result.first ≡ first }
        ensures first_group { result.first_group ≡ first_group }
    {
        PeerEnds {
            rows,
            numbers,
            ends,
            first,
            first_group,
        }
    }

    /// The rows.
    pub fn rows(&self) -> KeyRows<'a>
        ensures { result ≡ self.now.rows }
    {
        self.rows
    }

    /// The place of the first row.
    pub fn first(&self) -> usize
        ensures { result ≡ self.now.first }
    {
        self.first
    }

    /// Where the peers of a row end, counted from the first row.
    pub fn end(&self, row: usize) -> usize
        requires { row < length (key_lists self.now.rows) }
        ensures more { row < result }
        ensures within { result ≤ length (key_lists self.now.rows) }
        ensures peers { (j : ℕ) → row ≤ j → j < result
            → are_peers (keys_cmp (sort_keys self.now.rows)) (key_lists self.now.rows) row j ≡ true }
        ensures others { (j : ℕ) → result ≤ j → j < length (key_lists self.now.rows)
            → are_peers (keys_cmp (sort_keys self.now.rows)) (key_lists self.now.rows) row j ≡ false }
        ensures same { (j : ℕ) → row ≤ j → j < result → slice_index self.now.numbers.now (self.now.first + j)
            ≡ slice_index self.now.numbers.now (self.now.first + row) }
        ensures next { result < length (key_lists self.now.rows)
            → slice_index self.now.numbers.now (self.now.first + result) ≡ slice_index self.now.numbers.now (self.now.first + row) + 1 }
        ensures last { result ≡ length (key_lists self.now.rows) → slice_index self.now.numbers.now (self.now.first + row)
            + 1 ≡ length self.now.ends.now }
    {
        self.ends[self.numbers[self.first + row] as usize] as usize - self.first
    }
}
