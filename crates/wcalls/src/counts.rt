//! Calls with OVER that count: `row_number`, `rank`, `dense_rank`, `ntile`.
ghost use Rattle.std.specs.Prelude.{◌≡◌, ◌≤◌, ◌<◌, ◌^◌, ◌+◌, ℕ, length};
ghost use Rattle.wframe.specs.Partition.{Partition};
ghost use Rattle.wplaces.specs.Ranks.{row_number_of, rank_of, dense_rank_of};
ghost use Rattle.wplaces.specs.Tile.{tile_of};

use crate::limits::cut;
use crate::row_function::{RowFunction, put_at};
use wframe::Frames;
use wplaces::{next_dense_rank, ntile_at, rank_at, row_number_at};

/// A count for each row of a partition.
pub trait Counts {
    /// The count of the row at a place of a partition of so many rows.
    ghost count_at: { Self → ℕ → Partition → ℕ → ℕ };

    /// The count of the row at a place, where `before` is that of the row before it. The first row has none before it.
    fn next_count(&self, frames: &Frames, place: usize, before: usize) -> usize
        requires few { length frames.now.keys < 2 ^ 31 }
        requires place { place < length frames.now.keys }
        requires before { (j : ℕ) → place ≡ j + 1 → before ≡ count_at self.now (length frames.now.keys) frames.now j }
        ensures count { result ≡ count_at self.now (length frames.now.keys) frames.now place }
        ensures few { result ≤ length frames.now.keys + 1 };
}

/// A call that counts.
#[derive(Drop)]
pub struct Counted<N> {
    pub counts: N,
}

impl<N: Counts> RowFunction for Counted<N> {
    ghost number_for = { λ call p rows. N.count_at call.counts (length rows) p };

    fn keep(&self, frames: &Frames, rows: &[u32], kept: &mut [u32]) {
        let mut count = 0;
        for place in 0..rows.len() {
            count = self.counts.next_count(frames, place, count);
            put_at(kept, rows, place, count as u32);
        }
    }
}

/// `row_number`.
#[derive(Clone, Copy)]
pub struct RowNumber;

impl Counts for RowNumber {
    ghost count_at = { λ _ n. row_number_of };

    #[tactic(auto, using(crate::proofs::CountFacts::row_number_few))]
    fn next_count(&self, frames: &Frames, place: usize, _before: usize) -> usize {
        row_number_at(frames, place)
    }
}

/// `rank`.
#[derive(Clone, Copy)]
pub struct Rank;

impl Counts for Rank {
    ghost count_at = { λ _ n. rank_of };

    #[tactic(auto, using(crate::proofs::CountFacts::rank_few))]
    fn next_count(&self, frames: &Frames, place: usize, _before: usize) -> usize {
        rank_at(frames, place)
    }
}

/// `dense_rank`.
#[derive(Clone, Copy)]
pub struct DenseRank;

impl Counts for DenseRank {
    ghost count_at = { λ _ n. dense_rank_of };

    #[tactic(auto, using(crate::proofs::CountFacts::dense_rank_few))]
    fn next_count(&self, frames: &Frames, place: usize, before: usize) -> usize {
        next_dense_rank(frames, place, before)
    }
}

/// `ntile`, with at least one tile.
#[derive(Clone, Copy)]
pub struct Tile {
    pub tiles: u128,
    ghost some: { 1 ≤ tiles },
}

impl Counts for Tile {
    ghost count_at = { λ tile n p. tile_of n tile.tiles };

    fn next_count(&self, frames: &Frames, place: usize, _before: usize) -> usize {
        ntile_at(frames, place, cut(self.tiles))
    }
}
