//! A SELECT whose items stand at some places of its rows.

use wplan::Selection;

/// A SELECT, and the places of its items among the cells of a row and what calls answer behind them (`ReadsPlaces`).
#[derive(Drop)]
pub(crate) struct PlacedSelect<'a> {
    pub(crate) select: &'a Selection,
    pub(crate) places: &'a [usize],
}
