//! How a row is laid out.

ghost use Rattle.std.specs.Prelude.{◌≡◌, ◌<◌, ◌≤◌, ◌^◌, [], length};
ghost use Rattle.wquery.specs.Tree.{view_call};
ghost use Rattle.wbinding.specs.Resolving.{cell_of, layout_of, place_among, row_calls, width};
ghost use Rattle.wdistinct.specs.Places.{place_of_same};

use std::alloc::Global;
use wdistinct::CallSet;
use wquery::Call;
use wscope::SourceColumn;

/// The calls whose answers stand behind the cells of a row: aggregates without OVER and GROUPING, then calls with OVER.
#[derive(Drop)]
pub struct RowCalls<'a> {
    pub grouped: CallSet<'a>,
    pub windowed: CallSet<'a>,
}

/// The source's columns; the places of those that the row has, where it is a group's row; and the calls whose answers
/// stand behind these cells.
#[derive(Drop)]
pub struct RowLayout<'a, 'b, 'c> {
    pub columns: &'a [SourceColumn],
    pub grouping: Option<&'a [usize]>,
    pub calls: &'b RowCalls<'c>,
}

fn place_in(places: &[usize], place: usize) -> usize
    ensures { result ≡ place_among place places.now }
{
    let mut at = 0;
    'places: for p in places {
        if *p == place {
            return at;
        }
        at += 1;
    }
    at
}

fn length_of(places: &[usize]) -> usize
    ensures length { result ≡ length places.now }
    ensures small { result < 2 ^ 63 }
{
    places.len()
}

impl<'a, 'b, 'c> RowLayout<'a, 'b, 'c> {
    /// The cell of a column of the source.
    pub fn cell(&self, place: usize) -> usize
        ensures { result ≡ cell_of (layout_of self.now) place }
    {
        match self.grouping {
            None => place,
            Some(places) => place_in(places, place),
        }
    }

    /// How many cells stand before the answers of calls.
    pub(crate) fn width(&self) -> usize
        ensures width { result ≡ width (layout_of self.now) }
        ensures small { result < 2 ^ 63 }
    {
        match self.grouping {
            None => self.columns.len(),
            Some(places) => length_of(places),
        }
    }
}

impl<'a> RowCalls<'a> {
    /// No calls.
    pub fn none(alloc: Global) -> RowCalls<'a>
        ensures { row_calls result ≡ [] }
    {
        RowCalls {
            grouped: CallSet::new(alloc),
            windowed: CallSet::new(alloc),
        }
    }

    /// The place of the call that is equal to this one, or the number of calls.
    pub(crate) fn place(&self, call: &Call) -> usize
        ensures place { result ≡ place_of_same (row_calls self.now) (view_call call.now) }
        ensures small { result ≤ 2 ^ 63 }
    {
        let place = self.grouped.place(call);
        if place < self.grouped.len() {
            return place;
        }
        place + self.windowed.place(call)
    }
}
