ghost use Rattle.std.specs.Prelude.{◌≡◌, length, IfOk};
ghost use Rattle.wplaces.specs.EachRow.{each_row};
ghost use Rattle.wplaces.specs.RowPlaces.{lag_place, lead_place};

use std::alloc::{AllocError, Global};
use wframe::Frames;

/// The place of the row so many rows before a row, or none where the partition does not go back so far.
///
/// 0 rows before is the row itself.
pub fn lag_at(row: usize, rows: u64) -> Option<usize>
    ensures { result ≡ lag_place rows row }
{
    row.checked_sub(rows as usize)
}

/// The place of the row so many rows after a row, or none where the partition does not go on so far.
///
/// 0 rows after is the row itself.
pub fn lead_at(frames: &Frames, row: usize, rows: u64) -> Option<usize>
    ensures { result ≡ lead_place (length frames.now.keys) rows row }
{
    let count = frames.count();
    let place = row.checked_add(rows as usize)?;
    (place < count).then_some(place)
}

/// The place of the row so many rows before each row, or none where the partition does not go back so far.
///
/// 0 rows before is the row itself.
pub fn lag(alloc: Global, frames: &Frames, rows: u64) -> Result<Vec<Option<usize>>, AllocError>
    ensures { IfOk result (λ found. found.items ≡ each_row frames.now (lag_place rows)) }
{
    (0..frames.count())
        .map(|row| lag_at(row, rows))
        .collect(alloc)
}

/// The place of the row so many rows after each row, or none where the partition does not go on so far.
///
/// 0 rows after is the row itself.
pub fn lead(alloc: Global, frames: &Frames, rows: u64) -> Result<Vec<Option<usize>>, AllocError>
    ensures { IfOk result (λ found. found.items ≡ each_row frames.now (lead_place (length frames.now.keys) rows)) }
{
    (0..frames.count())
        .map(|row| lead_at(frames, row, rows))
        .collect(alloc)
}
