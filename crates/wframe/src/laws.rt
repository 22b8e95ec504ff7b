//! Laws of the definitions, each the contract of a function that does nothing.

ghost use Rattle.std.specs.Prelude.{◌≡◌, ◌<◌, ◌≤◌, ◌+◌, ◌++◌, ◌∷◌, ℕ, List, Bool, All, length, filter, true, false};
ghost use Rattle.std.specs.List.Sorted.{IsSortedBy, IsStableBy};
ghost use Rattle.std.specs.Cmp.{IsTotalOrder};
ghost use Rattle.std.specs.Ordering.{is_eq, is_lt, is_gt};
ghost use Rattle.std.specs.declared.cmp.Ordering.{Ordering};
ghost use Rattle.wvalues.specs.Meaning.{Meaning};
ghost use Rattle.wvalues.specs.declared.key.SortKey.{SortKey};
ghost use Rattle.wvalues.specs.Order.{key_cmp, keys_cmp};
ghost use Rattle.wframe.specs.Peers.{AreOrdered, AreOrderedWithin, key_at, are_peers, group_number};
ghost use Rattle.wframe.specs.declared.frame.Span.{Span};
ghost use Rattle.wframe.specs.Places.{IsRisen, Tiles, span_at};
ghost use Rattle.wframe.specs.Partition.{Partition};
ghost use Rattle.wframe.specs.Frame.{frame_start, frame_end, frame_extent, frame_rows, is_kept};
ghost use Rattle.wframe.specs.Ties.{holds_groups};
ghost use Rattle.wframe.specs.Sorting.{sorted, first_or};
ghost use Rattle.wframe.specs.Gaps.{before_span, within_span, behind_span};

/// Neither end of a frame goes back from one row to a later one, in all modes, with nulls among the keys too.
pub fn starts_and_ends_rise()
    ensures starts { (p : Partition) (i k : ℕ) → AreOrdered (keys_cmp p.order) p.keys → i ≤ k → k < length p.keys
        → frame_start p i ≤ frame_start p k }
    ensures ends { (p : Partition) (i k : ℕ) → AreOrdered (keys_cmp p.order) p.keys → i ≤ k → k < length p.keys
        → frame_end p i ≤ frame_end p k }
{}

/// The extent of a frame is a span of the partition's rows, and neither end lies before that of an earlier row's.
pub fn frames_slide()
    ensures { (p : Partition) (i k : ℕ) → AreOrdered (keys_cmp p.order) p.keys → i ≤ k → k < length p.keys
        → IsRisen (length p.keys) (frame_extent p i) (frame_extent p k) }
{}

/// What an exclusion leaves of a frame before the excluded rows slides along with the rows, and so does what it leaves
/// behind them. Among them it leaves at most one row.
pub fn gaps_slide()
    ensures before { (p : Partition) (i k : ℕ) → AreOrdered (keys_cmp p.order) p.keys → i ≤ k → k < length p.keys
        → IsRisen (length p.keys) (before_span p i) (before_span p k) }
    ensures behind { (p : Partition) (i k : ℕ) → AreOrdered (keys_cmp p.order) p.keys → i ≤ k → k < length p.keys
        → IsRisen (length p.keys) (behind_span p i) (behind_span p k) }
    ensures within { (p : Partition) (i : ℕ) → (within_span p i).to ≤ (within_span p i).from + 1 }
{}

/// The peer groups of ordered rows are numbered one after another, from 0.
pub fn group_numbers_step()
    ensures first { (ks : List SortKey) (keys : List (List Meaning)) → AreOrdered (keys_cmp ks) keys → 0 < length keys
        → group_number (keys_cmp ks) keys 0 ≡ 0 }
    ensures peers { (ks : List SortKey) (keys : List (List Meaning)) (i : ℕ) → AreOrdered (keys_cmp ks) keys
        → i + 1 < length keys → are_peers (keys_cmp ks) keys i (i + 1) ≡ true → group_number (keys_cmp ks) keys (i + 1)
        ≡ group_number (keys_cmp ks) keys i }
    ensures others { (ks : List SortKey) (keys : List (List Meaning)) (i : ℕ) → AreOrdered (keys_cmp ks) keys
        → i + 1 < length keys → are_peers (keys_cmp ks) keys i (i + 1) ≡ false → group_number (keys_cmp ks) keys (i + 1)
        ≡ group_number (keys_cmp ks) keys i + 1 }
{}

/// A frame in RANGE or GROUPS that excludes nothing, or whole peer groups, cannot tell peers apart: peers have one
/// frame, and are in a frame together. So it does not matter to such a frame in which order peers stand.
pub fn peers_share_frames()
    ensures { (p : Partition) (i k j l : ℕ) → holds_groups p.frame ≡ true → are_peers (keys_cmp p.order) p.keys i k ≡ true
        → are_peers (keys_cmp p.order) p.keys j l ≡ true → is_kept p i j ≡ is_kept p k l }
{}

/// Rows that stand by their partition values and keys as one list stand by their partition values, then by their keys.
pub fn order_splits()
    ensures by_values { (vs ks : List SortKey) (all values keys : List (List Meaning)) → length all ≡ length values
        → ((i : ℕ) → i < length all → key_at all i ≡ key_at values i ++ key_at keys i)
        → ((i : ℕ) → i < length all → length (key_at values i) ≡ length vs) → AreOrdered (keys_cmp (vs ++ ks)) all
        → AreOrdered (keys_cmp vs) values }
    ensures by_keys { (vs ks : List SortKey) (all values keys : List (List Meaning)) → length all ≡ length keys
        → ((i : ℕ) → i < length all → key_at all i ≡ key_at values i ++ key_at keys i)
        → ((i : ℕ) → i < length all → length (key_at values i) ≡ length vs) → AreOrdered (keys_cmp (vs ++ ks)) all
        → AreOrderedWithin (keys_cmp vs) values (keys_cmp ks) keys }
{}

/// Values that are equal in a key's order are the same value, and so are lists of them. Lists are totally ordered.
pub fn keys_order_values()
    ensures values { (key : SortKey) (x y : Meaning) → is_eq (key_cmp key x y) ≡ true → x ≡ y }
    ensures lists { (ks : List SortKey) (xs ys : List Meaning) → length xs ≡ length ks → length ys ≡ length ks
        → is_eq (keys_cmp ks xs ys) ≡ true → xs ≡ ys }
    ensures total { (ks : List SortKey) → IsTotalOrder (keys_cmp ks) }
{}

/// The rows of a frame are rows of its partition, each of them once at most.
pub fn frames_are_rows()
    ensures below { (p : Partition) (i : ℕ) → All (λ j. j < length p.keys) (frame_rows p i) }
    ensures few { (p : Partition) (i : ℕ) → length (frame_rows p i) ≤ length p.keys }
{}

/// Spans that leave no place out have each place.
pub fn spans_reach_each_place()
    ensures { (spans : List Span) (rows place : ℕ) → Tiles 0 spans rows → place < rows → (k : ℕ) × (k < length spans)
        × ((span_at spans k).from ≤ place) × (place < (span_at spans k).to) }
{}

/// Rows with the same keys may change places under a frame that holds whole peer groups: where `turn` tells the place
/// that a row's place becomes, and no keys move by it, the row's frame has the same rows. So a finer order may serve.
pub fn peers_may_change_places()
    ensures { (p : Partition) (turn : ℕ → ℕ) (i j : ℕ) → holds_groups p.frame ≡ true
        → ((row : ℕ) → row < length p.keys → key_at p.keys (turn row) ≡ key_at p.keys row) → i < length p.keys
        → j < length p.keys → is_kept p (turn i) (turn j) ≡ is_kept p i j }
{}

/// A stable sort of numbers gives `sorted`; sorting and picking commute; and the element that comes before those to its
/// left, and not after those to its right, is the first of the sorted ones.
pub fn stable_sorts_agree()
    ensures sort { (cmp : ℕ → ℕ → Ordering) (xs ys : List ℕ) → IsTotalOrder cmp → IsSortedBy (λ a b. is_lt (cmp a b)) ys
        → IsStableBy (λ a b. is_lt (cmp a b)) xs ys → ys ≡ sorted cmp xs }
    ensures picked { (cmp : ℕ → ℕ → Ordering) (p : ℕ → Bool) (xs : List ℕ) → IsTotalOrder cmp
        → filter p (sorted cmp xs) ≡ sorted cmp (filter p xs) }
    ensures first { (cmp : Meaning → Meaning → Ordering) (none x : Meaning) (left right : List Meaning) → IsTotalOrder cmp
        → All (λ y. is_lt (cmp x y) ≡ true) left → All (λ y. is_gt (cmp x y) ≡ false) right
        → first_or none (sorted cmp (left ++ x ∷ right)) ≡ x }
{}
