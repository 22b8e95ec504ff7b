ghost use Rattle.std.specs.Prelude.{◌≡◌, ◌≤◌, ◌<◌, ◌+◌, ◌^◌, ℕ, List, Bool, Option, All, None, Some, length, map, slice_index_or};
ghost use Rattle.wvalues.specs.Meaning.{Meaning};
ghost use Rattle.wslide.specs.Laws.{rows_fold};
ghost use Rattle.wframe.specs.declared.frame.FrameExclusion.{FrameExclusion};
ghost use Rattle.wslide.specs.Frames.{most, most_by_queue, most_by_tree};
ghost use Rattle.wslide.specs.Height.{height};
ghost use Rattle.wslide.specs.Aggregates.{fed, picked_values, picked_tests, IsInRange, count_of, count_of_rows};
ghost use Rattle.wslide.specs.Aggregates.{sum_of, sum_or_none, by_value, by_value_descending, IsLeast};
ghost use Rattle.wslide.specs.Counts.{counts_joined, count_at};
ghost use Rattle.wslide.specs.Sums.{sums_joined, sum_part};
ghost use Rattle.wslide.specs.Leasts.{leasts_joined, place_at};

/// The height of a number is the least exponent whose power of two is at least the number.
pub fn height_is_least()
    ensures enough { (m : ℕ) → m ≤ 2 ^ height m }
    ensures least { (m exponent : ℕ) → m ≤ 2 ^ exponent → height m ≤ exponent }
{}

/// The fold of `CountRows` is the number of rows whose filter is true, that of `Count` the number of values among them.
pub fn counts_are_exact()
    ensures rows { (filter : Option (List Bool)) (rows : List ℕ) → length rows < 2 ^ 64
        → rows_fold 0 counts_joined (count_at None filter) rows ≡ count_of_rows filter rows }
    ensures values { (values : List Meaning) (filter : Option (List Bool)) (rows : List ℕ) → length rows < 2 ^ 64
        → rows_fold 0 counts_joined (count_at (Some values) filter) rows ≡ count_of (fed values filter) rows }
{}

/// Where fewer than 2^31 numbers are fed, the fold of `Sum` is their sum over the unbounded whole numbers, and none where
/// no number is fed. That is not the sum 0.
pub fn sums_are_exact()
    ensures { (feed : ℕ → Meaning) (rows : List ℕ) → count_of feed rows < 2 ^ 31 → All (λ row. IsInRange (feed row)) rows
        → rows_fold None sums_joined (λ row. sum_part (feed row)) rows ≡ sum_or_none feed rows }
{}

/// The folds of `Extreme` are the places of the least and the greatest value, the leftmost of equal ones.
pub fn places_are_least()
    ensures least { (values : List Meaning) (filter : Option (List Bool)) (rows : List ℕ)
        → IsLeast by_value (fed values filter) rows (rows_fold None (leasts_joined by_value values) (place_at values filter) rows) }
    ensures greatest { (values : List Meaning) (filter : Option (List Bool)) (rows : List ℕ)
        → IsLeast by_value_descending (fed values filter) rows (rows_fold None (leasts_joined by_value_descending values)
        (place_at values filter) rows) }
{}

/// The most joins of the frames of no row to three rows.
pub fn most_of_few_rows()
    ensures by_queue { (most_by_queue 0 ≡ 0) × (most_by_queue 1 ≡ 3) × (most_by_queue 2 ≡ 6) × (most_by_queue 3 ≡ 9) }
    ensures by_tree { (most_by_tree 0 ≡ 0) × (most_by_tree 1 ≡ 16) × (most_by_tree 2 ≡ 44) × (most_by_tree 3 ≡ 84) }
{}

/// A meter that has counted none has room for the folds of the frames of fewer than 2^31 rows.
pub fn most_is_small()
    ensures { (exclusion : FrameExclusion) (rows : ℕ) → rows < 2 ^ 31 → most exclusion rows + rows < 2 ^ 40 }
{}

/// Columns that were picked for some rows feed by place what the whole columns feed by number, and so are folded alike.
pub fn picked_rows_feed_alike()
    ensures feed { (values : List Meaning) (filter : Option (List Bool)) (rows : List ℕ) (place : ℕ) → place < length rows
        → fed (picked_values values rows) (picked_tests filter rows) place ≡ fed values filter (slice_index_or rows place 0) }
    ensures count { (values : List Meaning) (filter : Option (List Bool)) (rows places : List ℕ)
        → All (λ place. place < length rows) places → count_of (fed (picked_values values rows) (picked_tests filter rows))
        places ≡ count_of (fed values filter) (map (λ place. slice_index_or rows place 0) places) }
    ensures rows { (filter : Option (List Bool)) (rows places : List ℕ) → All (λ place. place < length rows) places
        → count_of_rows (picked_tests filter rows) places ≡ count_of_rows filter (map (λ place. slice_index_or rows place 0) places) }
    ensures sum { (values : List Meaning) (filter : Option (List Bool)) (rows places : List ℕ)
        → All (λ place. place < length rows) places → sum_of (fed (picked_values values rows) (picked_tests filter rows))
        places ≡ sum_of (fed values filter) (map (λ place. slice_index_or rows place 0) places) }
{}
