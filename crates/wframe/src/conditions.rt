//! The test of what callers are asked: that rows stand by their partition values, then by their keys.
ghost use Rattle.std.specs.Prelude.{◌≡◌, ◌<◌, ◌+◌, ◌↔◌, length, IsTrue};
ghost use Rattle.wvalues.specs.Order.{keys_cmp};
ghost use Rattle.wframe.specs.KeyRows.{key_lists, sort_keys, AreInOrder, AreInOrderWithin};
ghost use Rattle.wframe.specs.Steps.{is_step};

use crate::key_rows::KeyRows;
use std::cmp::Ordering;

// Whether a row may stand right before the next one.
fn is_in_step(partition_values: &KeyRows, keys: &KeyRows, row: usize, next: usize) -> bool
    requires count { length (key_lists partition_values.now) ≡ length (key_lists keys.now) }
    requires row { row + 1 < length (key_lists keys.now) }
    requires next { next ≡ row + 1 }
    ensures { result ≡ is_step (keys_cmp (sort_keys partition_values.now)) (key_lists partition_values.now)
        (keys_cmp (sort_keys keys.now)) (key_lists keys.now) row }
{
    match partition_values.compare(row, next) {
        Ordering::Less => true,
        Ordering::Equal => !keys.compare(row, next).is_gt(),
        Ordering::Greater => false,
    }
}

/// Whether rows stand by their partition values, then by their keys, as [`crate::Partitions::build`] asks.
///
/// It compares each row with the next one. A caller that has sorted the rows need not ask.
pub fn are_in_order(partition_values: &KeyRows, keys: &KeyRows) -> bool
    requires { length (key_lists partition_values.now) ≡ length (key_lists keys.now) }
    ensures { IsTrue result ↔ (AreInOrder partition_values.now × AreInOrderWithin partition_values.now keys.now) }
{
    for next in 1..keys.count() {
        if !is_in_step(partition_values, keys, next - 1, next) {
            return false;
        }
    }
    true
}
