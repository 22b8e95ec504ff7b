//! The values that one row is ordered by.
ghost use Rattle.std.specs.Prelude.{◌≡◌, ◌<◌, length, map, slice_index_or};
ghost use Rattle.wvalues.specs.Meaning.{Null, meaning};
ghost use Rattle.wframe.specs.Cells.{meanings};
ghost use Rattle.wframe.specs.KeyList.{list_in, list_placed};

use wvalues::Value;

/// The values at some places of a row's cells, which are read where they lie.
#[derive(Clone, Copy)]
pub struct PlacedList<'a> {
    pub cells: &'a [Value],
    pub places: &'a [usize],
    /// What the row has at a place behind its cells.
    pub null: &'a Value,
}

/// Values that are lent one by one.
#[derive(Clone, Copy)]
pub struct LentList<'a> {
    pub cells: &'a [&'a Value],
}

/// Values that lie side by side.
#[derive(Clone, Copy)]
pub struct WholeList<'a> {
    pub cells: &'a [Value],
}

/// The values of a row, one for each key, as they are lent.
#[derive(Clone, Copy)]
pub enum KeyList<'a> {
    /// Each is lent by itself.
    Lent(LentList<'a>),
    /// They lie at places of a row's cells.
    Placed(PlacedList<'a>),
    /// They lie side by side.
    Whole(WholeList<'a>),
}

impl<'a> PlacedList<'a> {
    // The value of a key.
    fn value(&self, key: usize) -> &'a Value
        requires { key < length self.now.places.now }
        ensures { meaning result.now ≡ slice_index_or (list_placed self.now) key Null }
    {
        let place = self.places[key];
        if place < self.cells.len() {
            &self.cells[place]
        } else {
            self.null
        }
    }
}

impl<'a> LentList<'a> {
    // The value of a key.
    fn value(&self, key: usize) -> &'a Value
        requires { key < length self.now.cells.now }
        ensures { meaning result.now ≡ slice_index_or (meanings self.now.cells.now) key Null }
    {
        self.cells[key]
    }
}

impl<'a> WholeList<'a> {
    // The value of a key.
    fn value(&self, key: usize) -> &'a Value
        requires { key < length self.now.cells.now }
        ensures { meaning result.now ≡ slice_index_or (map meaning self.now.cells.now) key Null }
    {
        &self.cells[key]
    }
}

impl<'a> KeyList<'a> {
    /// The value of a key.
    pub fn value(&self, key: usize) -> &'a Value
        requires { key < length (list_in self.now) }
        ensures { meaning result.now ≡ slice_index_or (list_in self.now) key Null }
    {
        match self {
            KeyList::Lent(list) => list.value(key),
            KeyList::Placed(list) => list.value(key),
            KeyList::Whole(list) => list.value(key),
        }
    }
}
