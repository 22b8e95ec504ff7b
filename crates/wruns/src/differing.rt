//! Rows of which no two share their keys.
ghost use Rattle.std.specs.Prelude.{◌≡◌, ◌↔◌, IsTrue};
ghost use Rattle.wvalues.specs.Meaning.{meaning, Null};
ghost use Rattle.wvalues.specs.Order.{keys_cmp};
ghost use Rattle.wsegment.specs.Rows.{cell};
ghost use Rattle.wruns.specs.Dealing.{segment_rows};
ghost use Rattle.wruns.specs.Differing.{AllDiffer};
ghost use Rattle.wruns.specs.Refs.{ref_keys, refs_by, rows_at};
ghost use Rattle.wruns.specs.Runs.{joined};

use crate::refs::RowRef;
use crate::segment_cells::cell_at;
use std::cmp::Ordering;
use wsegment::Segment;
use wvalues::{SortKey, Value, compare};

// Segments beside the keys that their rows are told apart by.
#[derive(Clone, Copy)]
struct KeyedSegments<'a> {
    segments: &'a [&'a Segment],
    keys: &'a [SortKey],
    null: &'a Value,
    ghost missing: { meaning null.now ≡ Null },
}

impl<'a> KeyedSegments<'a> {
    // The value of a row and a column, null where there is none.
    fn value(&self, row: &RowRef, col: usize) -> &'a Value
        ensures { meaning result.now ≡ cell (rows_at (segment_rows self.now.segments.now) row.now.segment) row.now.row col }
    {
        let number = row.segment as usize;
        if number < self.segments.len() {
            cell_at(self.segments[number], row.row as usize, col, self.null)
        } else {
            self.null
        }
    }

    // The order of two rows by the keys.
    fn compare_keys(&self, a: &RowRef, b: &RowRef) -> Ordering
        ensures { result ≡ keys_cmp self.now.keys.now (ref_keys self.now.keys.now (segment_rows self.now.segments.now) a.now)
            (ref_keys self.now.keys.now (segment_rows self.now.segments.now) b.now) }
    {
        for key in self.keys {
            let order = compare(self.value(a, key.col), self.value(b, key.col), key);
            if order != Ordering::Equal {
                return order;
            }
        }
        Ordering::Equal
    }
}

/// Whether no two rows of several segments share their keys, told from all their rows by these keys, then by segment and place. It
/// compares each row with the next one, up to the first two that share their keys, and takes no memory.
pub fn all_differ(keys: &[SortKey], segments: &[&Segment], rows: &[RowRef]) -> bool
    requires { rows.now ≡ refs_by keys.now (segment_rows segments.now) }
    ensures { IsTrue result ↔ AllDiffer keys.now (joined (segment_rows segments.now)) }
{
    let table = KeyedSegments {
        segments,
        keys,
        null: &Value::Null,
    };
    for place in 1..rows.len() {
        if !table.compare_keys(&rows[place - 1], &rows[place]).is_lt() {
            return false;
        }
    }
    true
}
