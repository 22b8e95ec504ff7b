//! Calls with OVER that answer a value of another row: `lag`, `lead`, `first_value`, `last_value`, `nth_value`.
ghost use Rattle.std.specs.Prelude.{◌≡◌, ◌≤◌, ◌<◌, ◌^◌, ℕ, Option, All, length, slice_index_or};
ghost use Rattle.wframe.specs.Partition.{Partition};
ghost use Rattle.wplaces.specs.RowPlaces.{lag_place, lead_place, first_place, last_place, nth_place};
ghost use Rattle.wcalls.specs.Kept.{number_read};

use crate::limits::cut;
use crate::row_function::{RowFunction, put_at};
use wframe::Frames;
use wplaces::{first_value_at, lag_at, last_value_at, lead_at, nth_value_at};

// The row at a place, the first row where there is no such place.
fn row_read(rows: &[u32], place: usize) -> u32
    ensures { result ≡ slice_index_or rows.now place 0 }
{
    if place < rows.len() { rows[place] } else { 0 }
}

// The number that is kept for a row: one more than the number of the row that is read for it, or 0 where none is.
fn number_read(rows: &[u32], place: Option<usize>, count: usize) -> u32
    requires below { All (λ i. i < count) rows.now }
    requires few { count < 2 ^ 31 }
    ensures { result ≡ number_read rows.now place }
{
    match place {
        Some(place) => row_read(rows, place) + 1,
        None => 0,
    }
}

/// For a row of a partition the place of a row there, or none.
pub trait RowPlaces {
    /// The place that is read for the row at a place of a partition of so many rows.
    ghost place_read: { Self → ℕ → Partition → ℕ → Option ℕ };

    /// The place that is read for the row at a place.
    fn place_of(&self, frames: &Frames, place: usize) -> Option<usize>
        requires few { length frames.now.keys < 2 ^ 31 }
        requires place { place < length frames.now.keys }
        ensures { result ≡ place_read self.now (length frames.now.keys) frames.now place };
}

/// A call that answers the value of another row, of which it keeps the number.
#[derive(Drop)]
pub struct OtherRow<P> {
    pub places: P,
}

impl<P: RowPlaces> RowFunction for OtherRow<P> {
    ghost number_for = { λ call p rows place. number_read rows (P.place_read call.places (length rows) p place) };

    fn keep(&self, frames: &Frames, rows: &[u32], kept: &mut [u32]) {
        let count = kept.len();
        for place in 0..rows.len() {
            let read = self.places.place_of(frames, place);
            put_at(kept, rows, place, number_read(rows, read, count));
        }
    }
}

/// `lag`, so many rows before.
#[derive(Clone, Copy)]
pub struct Lag {
    pub rows: u128,
}

impl RowPlaces for Lag {
    ghost place_read = { λ lag n p. lag_place lag.rows };

    fn place_of(&self, _frames: &Frames, place: usize) -> Option<usize> {
        lag_at(place, cut(self.rows))
    }
}

/// `first_value`.
#[derive(Clone, Copy)]
pub struct FirstValue;

impl RowPlaces for FirstValue {
    ghost place_read = { λ _ n. first_place };

    fn place_of(&self, frames: &Frames, place: usize) -> Option<usize> {
        first_value_at(frames, place)
    }
}

/// `lead`, so many rows after.
#[derive(Clone, Copy)]
pub struct Lead {
    pub rows: u128,
}

impl RowPlaces for Lead {
    ghost place_read = { λ lead n p. lead_place n lead.rows };

    fn place_of(&self, frames: &Frames, place: usize) -> Option<usize> {
        lead_at(frames, place, cut(self.rows))
    }
}

/// `last_value`.
#[derive(Clone, Copy)]
pub struct LastValue;

impl RowPlaces for LastValue {
    ghost place_read = { λ _ n. last_place };

    fn place_of(&self, frames: &Frames, place: usize) -> Option<usize> {
        last_value_at(frames, place)
    }
}

/// `nth_value`, counted from 1.
#[derive(Clone, Copy)]
pub struct NthValue {
    pub n: u128,
    ghost some: { 1 ≤ n },
}

impl RowPlaces for NthValue {
    ghost place_read = { λ nth n p. nth_place p nth.n };

    fn place_of(&self, frames: &Frames, place: usize) -> Option<usize> {
        nth_value_at(frames, place, cut(self.n))
    }
}
