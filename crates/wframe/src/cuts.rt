//! Ends that move along with the groups of peers and never back, for any test of places.
ghost use Rattle.std.specs.Prelude.{◌≡◌, ◌<◌, ◌≤◌, ◌+◌, ◌^◌, ℕ, Bool, true, length, OnOk};
ghost use Rattle.wvalues.specs.Order.{keys_cmp};
ghost use Rattle.wframe.specs.KeyRows.{key_lists, sort_keys};
ghost use Rattle.wframe.specs.Peers.{are_peers};
ghost use Rattle.wframe.specs.Cuts.{IsCut, CutsAt, HasNumberedCuts, BeginsWith};

use crate::peers::PeerEnds;
use std::alloc::AllocError;

/// A test of the places of a partition, for each of its rows: for a row it passes the first places up to one, where an end of
/// the row's frame lies.
pub trait Cut {
    /// How many rows the partition has.
    ghost row_count: { Self → ℕ };

    /// Whether, for a row, a place passes.
    ghost passes: { Self → ℕ → ℕ → Bool };

    /// Whether, for a row, a place passes.
    fn is_passed(&self, row: usize, place: usize) -> bool
        requires row { row < row_count self.now }
        requires place { place < row_count self.now }
        ensures { result ≡ passes self.now row place };

    /// Where the rows end, from this one on, that the test cannot tell apart.
    fn end_of_equals(&self, row: usize) -> usize
        requires { row < row_count self.now }
        ensures more { row < result }
        ensures within { result ≤ row_count self.now }
        ensures places { (i j : ℕ) → row ≤ j → j < result → passes self.now i j ≡ passes self.now i row }
        ensures rows { (i j : ℕ) → row ≤ i → i < result → passes self.now i j ≡ passes self.now row j };
}

// Where the places that pass for a row end, when all before `from` are known to pass.
fn advance<C: Cut>(cut: &C, rows: usize, row: usize, from: usize) -> usize
    requires rows { rows ≡ C.row_count cut.now }
    requires cut { IsCut rows (C.passes cut.now) }
    requires row { row < rows }
    requires from { from ≤ rows }
    requires before { (j : ℕ) → j < from → C.passes cut.now row j ≡ true }
    ensures { CutsAt rows (C.passes cut.now row) result }
{
    let mut place = from;
    while place < rows {
        if !cut.is_passed(row, place) {
            return place;
        }
        place = cut.end_of_equals(place);
    }
    rows
}

/// Adds, for each group of peers, where the places end that pass for its rows, counted on from the first row's place, for a test
/// that cannot tell peers apart.
///
/// The end moves along with the groups and never back: of each group one row is tested, and once more where it is an end.
pub fn push_group_cuts<C: Cut>(
    cuts: &mut Vec<u32>,
    cut: &C,
    peers: &PeerEnds,
) -> Result<(), AllocError>
    requires rows { length (key_lists peers.now.rows) ≡ C.row_count cut.now }
    requires cut { IsCut (length (key_lists peers.now.rows)) (C.passes cut.now) }
    requires alike { (i k j : ℕ) → are_peers (keys_cmp (sort_keys peers.now.rows)) (key_lists peers.now.rows) i k ≡ true
        → C.passes cut.now i j ≡ C.passes cut.now k j }
    requires first { length cuts.old.items ≡ peers.now.first_group }
    requires room { peers.now.first + length (key_lists peers.now.rows) < 2 ^ 32 }
    ensures cuts { OnOk result (HasNumberedCuts peers.now.first (length (key_lists peers.now.rows)) (C.passes cut.now)
        peers.now.numbers.now cuts.new.items) }
    ensures stays { OnOk result (BeginsWith cuts.old.items cuts.new.items) }
    ensures long { OnOk result (length cuts.new.items ≡ length peers.now.ends.now) }
{
    let rows = peers.rows().count();
    let first = peers.first();
    let mut row = 0;
    let mut end = 0;
    while row < rows {
        end = advance(cut, rows, row, end);
        cuts.push((first + end) as u32)?;
        row = peers.end(row);
    }
    Ok(())
}
