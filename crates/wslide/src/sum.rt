ghost use Rattle.std.specs.Prelude.{◌≡◌, ◌<◌, None, length, slice_index_or};
ghost use Rattle.std.specs.Option.{ForSome};
ghost use Rattle.wvalues.specs.Meaning.{Null};
ghost use Rattle.wframe.specs.Cells.{meanings};
ghost use Rattle.wslide.specs.Aggregates.{fed, tests};
ghost use Rattle.wslide.specs.Sums.{IsSum, sums_joined, sum_part};
ghost use Rattle.wslide.specs.Lawful.{sum_laws};

use crate::filter::passes;
use crate::fold::Fold;
use crate::meter::Meter;
use crate::partial_sum::PartialSum;
use wvalues::{Value, Whole};

/// Adds up the numbers of the rows whose filter is true, without nulls.
///
/// A part is their sum, or none where no row feeds a number. Of fewer than 2^31 rows it is exact.
#[derive(Clone, Copy, Debug)]
pub struct Sum<'a> {
    /// The column's values in the partition's order.
    pub values: &'a [&'a Value],
    /// Whether each row of the partition is fed; `None` feeds all.
    pub filter: Option<&'a [bool]>,
    ghost one_each: { ForSome filter (λ filter. length filter.now ≡ length values.now) },
}

// What the value of a row adds.
fn number_at(values: &[&Value], row: usize) -> PartialSum
    requires { row < length values.now }
    ensures value { result ≡ sum_part (slice_index_or (meanings values.now) row Null) }
    ensures part { IsSum result }
{
    let value = values[row];
    match value {
        Value::Int(number) => PartialSum::of(*number),
        Value::Short(_) | Value::Shared(_) => PartialSum::of(Whole::from(0)),
        Value::Null => PartialSum::none(),
    }
}

impl<'a> Fold for Sum<'a> {
    type Part = PartialSum;

    type Meter = Meter;

    ghost is_part = { λ _. IsSum };

    ghost neutral = { λ _. None };

    ghost joined = { λ _. sums_joined };

    ghost rows = { λ sum. length sum.values.now };

    ghost part_at = { λ sum row. sum_part (fed (meanings sum.values.now) (tests sum.filter) row) };

    ghost count = { λ meter. meter };

    ghost laws = { λ _. sum_laws };

    fn joins(&self, meter: &Meter) -> u64 {
        meter.joins()
    }

    fn unit(&self) -> PartialSum {
        PartialSum::none()
    }

    fn of(&self, row: usize) -> PartialSum {
        if passes(self.filter, row) {
            number_at(self.values, row)
        } else {
            PartialSum::none()
        }
    }

    fn join(&self, meter: &mut Meter, left: PartialSum, right: PartialSum) -> PartialSum {
        meter.tick();
        left.joined(right)
    }
}
