//! The values that rows are ordered by, as they are lent.
ghost use Rattle.std.specs.Prelude.{ℕ, ◌≡◌, ◌<◌, ◌≤◌, ◌-◌, ◌*◌, ◌+◌, length, map, slice_index_or, slice_range, take, drop};
ghost use Rattle.wvalues.specs.Meaning.{meaning};
ghost use Rattle.wframe.specs.Cells.{meanings};
ghost use Rattle.wframe.specs.KeyList.{list_placed, list_in};
ghost use Rattle.wframe.specs.KeyLists.{AreListsOf, lists_of, lists_picked, lists_placed, rows_seen};
ghost use Rattle.wframe.specs.Peers.{key_at};

use crate::frame::Span;
use crate::key_list::{KeyList, LentList, PlacedList, WholeList};
use wvalues::Value;

/// The values at some places of rows, of which those of these numbers are told in their order. The values are read where they lie.
#[derive(Clone, Copy)]
pub struct PlacedLists<'a> {
    pub rows: &'a [&'a [Value]],
    pub places: &'a [usize],
    /// What a row has at a place behind its cells.
    pub null: &'a Value,
    pub numbers: &'a [u32],
}

/// Values that are lent one by one, one row after another.
#[derive(Clone, Copy)]
pub struct LaidLists<'a> {
    pub cells: &'a [&'a Value],
}

/// The cells of rows of one width that stand one after another, of which those of these numbers are told in their order.
#[derive(Clone, Copy)]
pub struct PickedLists<'a> {
    pub cells: &'a [Value],
    pub numbers: &'a [u32],
}

/// A list of values for each row.
#[derive(Clone, Copy)]
pub enum KeyLists<'a> {
    /// One row after another, each value lent by itself.
    Laid(LaidLists<'a>),
    /// At places of rows.
    Placed(PlacedLists<'a>),
    /// Rows whole.
    Picked(PickedLists<'a>),
}

// The cells of a span's rows.
fn part_slice<'a>(cells: &'a [&'a Value], width: usize, span: Span) -> &'a [&'a Value]
    requires ordered { span.from * width ≤ span.to * width }
    requires within { span.to * width ≤ length cells.now }
    ensures list { result.now ≡ take (span.to * width - span.from * width) (drop (span.from * width) cells.now) }
    ensures len { length result.now ≡ span.to * width - span.from * width }
{
    &cells[span.from * width..span.to * width]
}

// The numbers of a span's rows.
fn part_numbers<'a>(numbers: &'a [u32], span: Span) -> &'a [u32]
    requires ordered { span.from ≤ span.to }
    requires within { span.to ≤ length numbers.now }
    ensures part { result.now ≡ slice_range numbers.now span.from span.to }
    ensures len { length result.now ≡ span.to - span.from }
{
    &numbers[span.from..span.to]
}

impl<'a> LaidLists<'a> {
    // The list of a row, where each row has so many cells.
    fn list(&self, width: usize, row: usize) -> LentList<'a>
        requires { row * width + width ≤ length self.now.cells.now }
        ensures list { result.cells.now ≡ take width (drop (row * width) self.now.cells.now) }
        ensures len { length result.cells.now ≡ width }
    {
        let from = row * width;
        LentList {
            cells: &self.cells[from..from + width],
        }
    }
}

impl<'a> PlacedLists<'a> {
    // The list of a row.
    fn list(&self, row: usize) -> PlacedList<'a>
        requires { row < length self.now.numbers.now }
        ensures list { list_placed result ≡ key_at (lists_placed self.now) row }
        ensures places { result.places ≡ self.now.places }
    {
        let number = self.numbers[row] as usize;
        let cells = if number < self.rows.len() {
            self.rows[number]
        } else {
            &[]
        };
        PlacedList {
            cells,
            places: self.places,
            null: self.null,
        }
    }
}

impl<'a> PickedLists<'a> {
    // The list of a row, where each row has so many cells.
    fn list(&self, width: usize, row: usize) -> WholeList<'a>
        requires row { row < length self.now.numbers.now }
        requires within { slice_index_or self.now.numbers.now row 0 * width + width ≤ length self.now.cells.now }
        ensures list { map meaning result.cells.now ≡ key_at (lists_picked width self.now) row }
        ensures len { length result.cells.now ≡ width }
    {
        let from = self.numbers[row] as usize * width;
        WholeList {
            cells: &self.cells[from..from + width],
        }
    }
}

/// The list of a row, of so many of this width.
pub fn list_at<'a>(lists: &KeyLists<'a>, width: usize, count: usize, row: usize) -> KeyList<'a>
    requires lists { AreListsOf lists.now width count }
    requires row { row < count }
    ensures list { list_in result ≡ key_at (lists_of lists.now width count) row }
    ensures len { length (list_in result) ≡ width }
{
    match lists {
        KeyLists::Laid(lists) => KeyList::Lent(lists.list(width, row)),
        KeyLists::Placed(lists) => KeyList::Placed(lists.list(row)),
        KeyLists::Picked(lists) => KeyList::Whole(lists.list(width, row)),
    }
}

/// The lists of a span's rows, of so many of this width.
pub fn part_of<'a>(lists: &KeyLists<'a>, width: usize, count: usize, span: Span) -> KeyLists<'a>
    requires lists { AreListsOf lists.now width count }
    requires ordered { span.from ≤ span.to }
    requires within { span.to ≤ count }
    ensures lists { AreListsOf result width (span.to - span.from) }
    ensures part { lists_of result width (span.to - span.from) ≡ slice_range (lists_of lists.now width count) span.from span.to }
{
    match lists {
        KeyLists::Laid(lists) => KeyLists::Laid(LaidLists {
            cells: part_slice(lists.cells, width, span),
        }),
        KeyLists::Placed(lists) => KeyLists::Placed(PlacedLists {
            rows: lists.rows,
            places: lists.places,
            null: lists.null,
            numbers: part_numbers(lists.numbers, span),
        }),
        KeyLists::Picked(lists) => KeyLists::Picked(PickedLists {
            cells: lists.cells,
            numbers: part_numbers(lists.numbers, span),
        }),
    }
}
