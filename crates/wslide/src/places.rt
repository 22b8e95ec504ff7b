ghost use Rattle.std.specs.Prelude.{◌≡◌, ◌<◌, length, None};
ghost use Rattle.wframe.specs.Cells.{meanings};
ghost use Rattle.std.specs.Ordering.{is_lt};
ghost use Rattle.wvalues.specs.Meaning.{meaning};
ghost use Rattle.wslide.specs.Aggregates.{by_value_in};
ghost use Rattle.wslide.specs.Leasts.{IsPlace, leasts_joined, place_at};

use wvalues::{SortKey, Value, compare};

/// The row's place, if its value is not null.
#[inline(always)]
pub(crate) fn value_place(values: &[&Value], row: usize) -> Option<usize>
    requires { row < length values.now }
    ensures { result ≡ place_at (meanings values.now) None row }
{
    let value = values[row];
    match value {
        Value::Null => None,
        Value::Int(_) | Value::Short(_) | Value::Shared(_) => Some(row),
    }
}

// Whether one value stands before another one, from the least value on or from the greatest. Numbers are most of what is compared,
// so two of them are told apart at once, and not by a key.
#[inline(always)]
fn is_before(a: &Value, b: &Value, greatest: bool) -> bool
    ensures { result ≡ is_lt (by_value_in greatest (meaning a.now) (meaning b.now)) }
{
    if let (Value::Int(x), Value::Int(y)) = (a, b) {
        return if greatest {
            y.cmp(x).is_lt()
        } else {
            x.cmp(y).is_lt()
        };
    }
    let key = SortKey {
        col: 0,
        desc: greatest,
        nulls_first: false,
    };
    compare(a, b, &key).is_lt()
}

/// The one of two places whose value is the least, or the greatest; the left one, if they are equal.
#[inline(always)]
pub(crate) fn first_place(
    values: &[&Value],
    greatest: bool,
    left: Option<usize>,
    right: Option<usize>,
) -> Option<usize>
    requires left { IsPlace (meanings values.now) left }
    requires right { IsPlace (meanings values.now) right }
    ensures place { result ≡ leasts_joined (by_value_in greatest) (meanings values.now) left right }
    ensures within { IsPlace (meanings values.now) result }
{
    match (left, right) {
        (Some(i), Some(j)) if is_before(values[j], values[i], greatest) => Some(j),
        (Some(i), _) => Some(i),
        (None, place) => place,
    }
}
