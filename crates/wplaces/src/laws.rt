//! Laws of the definitions, each the contract of a function that does nothing.

ghost use Rattle.std.specs.Prelude.{◌≡◌, ◌<◌, ◌≤◌, ◌-◌, ℕ, length, true};
ghost use Rattle.std.specs.List.{sum};
ghost use Rattle.wvalues.specs.Order.{keys_cmp};
ghost use Rattle.wframe.specs.Partition.{Partition};
ghost use Rattle.wframe.specs.Peers.{AreOrdered, key_at};
ghost use Rattle.wframe.specs.Places.{is_in_span, span_at};
ghost use Rattle.wplaces.specs.Ranks.{row_number_of, rank_of, dense_rank_of, IsFirstPeer};
ghost use Rattle.wplaces.specs.Tile.{tile_sizes, pieces, tile_of};

/// The rank of a row is the number of the first of its peers.
pub fn ranks_tell_first_peers()
    ensures { (p : Partition) (i first : ℕ) → AreOrdered (keys_cmp p.order) p.keys → i < length p.keys
        → IsFirstPeer p i first → rank_of p i ≡ row_number_of p first }
{}

/// The tiles are as many as asked for and share out the rows, and the tile given for a row has it.
pub fn tiles_share_the_rows()
    ensures count { (rows tiles : ℕ) → 1 ≤ tiles → length (tile_sizes rows tiles) ≡ tiles }
    ensures shared { (rows tiles : ℕ) → 1 ≤ tiles → sum (tile_sizes rows tiles) ≡ rows }
    ensures holds { (rows tiles i : ℕ) → 1 ≤ tiles → i < rows
        → is_in_span (span_at (pieces 0 (tile_sizes rows tiles)) (tile_of rows tiles i - 1)) i ≡ true }
{}

/// Rows with the same keys have the same ranks, wherever among their peers they stand. So a finer order may serve.
pub fn ranks_tell_keys_alone()
    ensures rank { (p : Partition) (i k : ℕ) → key_at p.keys i ≡ key_at p.keys k → rank_of p i ≡ rank_of p k }
    ensures dense_rank { (p : Partition) (i k : ℕ) → key_at p.keys i ≡ key_at p.keys k → dense_rank_of p i ≡ dense_rank_of p k }
{}
