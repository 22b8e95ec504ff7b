ghost use Rattle.std.specs.Prelude.{◌≡◌, ◌≤◌, ◌<◌, ◌+◌, length, IfOk};
ghost use Rattle.wplaces.specs.EachRow.{each_row};
ghost use Rattle.wplaces.specs.Tile.{tile_of};

use std::alloc::{AllocError, Global};
use wframe::Frames;

// The number of the tile that has a row, of so many rows cut into so many tiles.
#[tactic(auto, using(crate::proofs::TileFacts::tile_among_larger, crate::proofs::TileFacts::tile_among_others))]
fn tile_at(row: usize, count: usize, tiles: usize) -> usize
    requires tiles { 1 ≤ tiles }
    requires row { row < count }
    ensures tile { result ≡ tile_of count tiles row }
    ensures within { result ≤ row + 1 }
{
    let rows = count / tiles;
    let larger = count % tiles;
    let in_larger = larger * rows + larger;
    if row < in_larger {
        row / (rows + 1) + 1
    } else {
        larger + (row - in_larger) / rows + 1
    }
}

/// The number, from 1, of the tile that has a row, where the partition is cut into so many tiles.
///
/// The first tiles have a row more where the rows cannot be shared evenly. With more tiles than rows the last are empty.
pub fn ntile_at(frames: &Frames, row: usize, tiles: u64) -> usize
    requires tiles { 1 ≤ tiles }
    requires row { row < length frames.now.keys }
    ensures tile { result ≡ tile_of (length frames.now.keys) tiles row }
    ensures within { result ≤ row + 1 }
{
    tile_at(row, frames.count(), tiles as usize)
}

/// The number, from 1, of the tile that has each row, where the partition is cut into so many tiles.
///
/// The first tiles have a row more where the rows cannot be shared evenly. With more tiles than rows the last are empty.
pub fn ntile(alloc: Global, frames: &Frames, tiles: u64) -> Result<Vec<usize>, AllocError>
    requires { 1 ≤ tiles }
    ensures { IfOk result (λ numbers. numbers.items ≡ each_row frames.now (tile_of (length frames.now.keys) tiles)) }
{
    (0..frames.count())
        .map(|row| ntile_at(frames, row, tiles))
        .collect(alloc)
}
