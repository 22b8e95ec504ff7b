//! The numbers that a call with OVER keeps, by the numbers of the rows.
ghost use Rattle.std.specs.Prelude.{◌≡◌, ◌<◌, ◌^◌, [], ℕ, List, All, length, map, set, slice_index_or, IfOk};
ghost use Rattle.wvalues.specs.Meaning.{Meaning};
ghost use Rattle.wframe.specs.Partition.{Partition};
ghost use Rattle.wframe.specs.Places.{places};
ghost use Rattle.wcalls.specs.Windows.{Windowed, partition_at, partition_rows, place_at};
ghost use Rattle.wcalls.specs.Calls.{each_row};
ghost use Rattle.wcalls.specs.Arranged.{IsArranged};
ghost use Rattle.waggregate.specs.Put.{put_all};

use crate::arranged::ArrangedRows;
use std::alloc::AllocError;
use wframe::Frames;

/// Puts something at the number of the row at a place.
pub(crate) fn put_at<T: Drop>(column: &mut [T], rows: &[u32], place: usize, value: T)
    requires place { place < length rows.now }
    requires row { slice_index_or rows.now place 0 < length column.old }
    ensures { column.new ≡ set column.old (slice_index_or rows.now place 0) value }
{
    column[rows[place] as usize] = value;
}

/// A call with OVER that has a number for each row of a partition and is never out of range.
///
/// Rows that follow each other in the order of a window lie far apart, and a number is put there without reading what stood there.
pub trait RowFunction {
    /// The number for the row at a place of a partition, of which the rows are given by number.
    ghost number_for: { Self → Partition → List ℕ → ℕ → ℕ };

    /// Keeps the numbers for the rows of a partition, each at the row's number, whatever numbers mean.
    fn keep(&self, frames: &Frames, rows: &[u32], kept: &mut [u32])
        requires few { length rows.now < 2 ^ 31 }
        requires room { length kept.old < 2 ^ 31 }
        requires len { length rows.now ≡ length frames.now.keys }
        requires below { All (λ i. i < length kept.old) rows.now }
        ensures { (meant : ℕ → Meaning) → map meant kept.new ≡ put_all (map meant kept.old) rows.now
            (map (λ place. meant (number_for self.now frames.now rows.now place)) (places (length rows.now))) };
}

// Keeps the numbers that a call has for the rows of a window, each at the row's number.
fn keep_numbers<T: RowFunction>(call: &T, arranged: &ArrangedRows, kept: &mut [u32])
    requires { length kept.old ≡ length arranged.now.order.now }
    ensures { (w : Windowed) → IsArranged w arranged.now.order.now arranged.now.partitions.now → (meant : ℕ → Meaning)
        → map meant kept.new ≡ each_row w (λ i. meant (T.number_for call.now (partition_at w i) (partition_rows w i) (place_at w i))) }
{
    let partitions = arranged.partitions;
    for number in 0..partitions.count() {
        let span = partitions.span(number);
        let frames = partitions.partition(number);
        call.keep(&frames, &arranged.order[span.from..span.to], kept);
    }
}

/// The numbers that a call has for the rows of a window, by the rows' numbers. They are put into a list that is empty, and may have
/// room for them; it is the one list that is made, whatever the number of partitions.
pub(crate) fn kept_numbers<T: RowFunction>(
    call: &T,
    arranged: &ArrangedRows,
    room: Vec<u32>,
) -> Result<Vec<u32>, AllocError>
    requires { room.items ≡ [] }
    ensures { (w : Windowed) → IsArranged w arranged.now.order.now arranged.now.partitions.now → (meant : ℕ → Meaning)
        → IfOk result (λ kept. map meant kept.items ≡ each_row w
        (λ i. meant (T.number_for call.now (partition_at w i) (partition_rows w i) (place_at w i)))) }
{
    let mut kept = room;
    kept.resize(arranged.order.len(), 0)?;
    keep_numbers(call, arranged, &mut kept);
    Ok(kept)
}
