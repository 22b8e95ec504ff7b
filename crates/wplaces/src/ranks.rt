ghost use Rattle.std.specs.Prelude.{◌≡◌, ◌+◌, ◌<◌, ℕ, length, IfOk};
ghost use Rattle.wplaces.specs.EachRow.{each_row};
ghost use Rattle.wplaces.specs.Ranks.{row_number_of, rank_of, dense_rank_of};

use std::alloc::{AllocError, Global};
use wframe::{Frames, group_numbers_step};

/// The number of a row in its partition, from 1.
#[tactic(auto, using(crate::proofs::RowFacts::number_is))]
pub fn row_number_at(frames: &Frames, row: usize) -> usize
    requires { row < length frames.now.keys }
    ensures { result ≡ row_number_of frames.now row }
{
    // It says that there are no more rows than a number tells.
    let _ = frames.count();
    row + 1
}

/// The rank of a row, with gaps: one more than the number of rows before its peers, so 1 for the first peers.
pub fn rank_at(frames: &Frames, row: usize) -> usize
    requires { row < length frames.now.keys }
    ensures { result ≡ rank_of frames.now row }
{
    frames.peers(row).from + 1
}

/// The rank of a row, without gaps, where `before` is that of the row before it. It is the number of its group of
/// peers, from 1. The first row has none before it, and `before` is not looked at.
#[tactic(auto, using(crate::proofs::DenseFacts::dense_first, crate::proofs::DenseFacts::dense_same, crate::proofs::DenseFacts::dense_next))]
pub fn next_dense_rank(frames: &Frames, row: usize, before: usize) -> usize
    requires row { row < length frames.now.keys }
    requires before { (j : ℕ) → row ≡ j + 1 → before ≡ dense_rank_of frames.now j }
    ensures { result ≡ dense_rank_of frames.now row }
{
    // They say that the rows stand in order, and a law: the groups of peers are numbered one after another.
    let _ = frames.count();
    group_numbers_step();
    if row == 0 {
        return 1;
    }
    if row < frames.peers(row - 1).to {
        before
    } else {
        before + 1
    }
}

/// The number of each row in its partition, from 1.
pub fn row_number(alloc: Global, frames: &Frames) -> Result<Vec<usize>, AllocError>
    ensures { IfOk result (λ numbers. numbers.items ≡ each_row frames.now (row_number_of frames.now)) }
{
    (0..frames.count())
        .map(|row| row_number_at(frames, row))
        .collect(alloc)
}

/// The rank of each row, with gaps: one more than the number of rows before its peers, so 1 for the first peers.
pub fn rank(alloc: Global, frames: &Frames) -> Result<Vec<usize>, AllocError>
    ensures { IfOk result (λ ranks. ranks.items ≡ each_row frames.now (rank_of frames.now)) }
{
    (0..frames.count())
        .map(|row| rank_at(frames, row))
        .collect(alloc)
}

/// The rank of each row, without gaps: the number of its group of peers, from 1.
pub fn dense_rank(alloc: Global, frames: &Frames) -> Result<Vec<usize>, AllocError>
    ensures { IfOk result (λ ranks. ranks.items ≡ each_row frames.now (dense_rank_of frames.now)) }
{
    let count = frames.count();
    let mut ranks = Vec::with_capacity(alloc, count)?;
    let mut rank = 0;
    for row in 0..count {
        rank = next_dense_rank(frames, row, rank);
        ranks.push(rank)?;
    }
    Ok(ranks)
}
