ghost use Rattle.std.specs.Prelude.{◌<◌, ℕ, List, Bool, Option, All, length, slice_index_or};
ghost use Rattle.wvalues.specs.Meaning.{meaning, Null};
ghost use Rattle.wframe.specs.Cells.{meanings};
ghost use Rattle.wslide.specs.Aggregates.{fed, IsInRange};

use wvalues::Value;

// A value is in its range.
fn see_range(value: &Value)
    ensures { IsInRange (meaning value.now) }
{
    match value {
        Value::Int(number) => {
            let _ = number.get();
        }
        Value::Null | Value::Short(_) | Value::Shared(_) => {}
    }
}

// The value of a row is in its range.
fn see_range_at(values: &[&Value], row: usize)
    requires { row < length values.now }
    ensures { IsInRange (slice_index_or (meanings values.now) row Null) }
{
    see_range(values[row]);
}

/// Sees that the numbers of a column are in their range, as [`crate::sums_are_exact`] asks of what is fed.
///
/// It reads the column once, and changes nothing.
pub fn see_ranges(values: &[&Value])
    ensures values { All IsInRange (meanings values.now) }
    ensures fed { (filter : Option (List Bool)) (row : ℕ) → IsInRange (fed (meanings values.now) filter row) }
{
    for row in 0..values.len() {
        see_range_at(values, row);
    }
}
