ghost use Rattle.std.specs.Prelude.{◌≡◌, ◌<◌, length, not, None, Some, slice_index_or};
ghost use Rattle.std.specs.Option.{ForSome};
ghost use Rattle.wvalues.specs.Meaning.{Null};
ghost use Rattle.wframe.specs.Cells.{meanings};
ghost use Rattle.wslide.specs.Aggregates.{is_value, tests};
ghost use Rattle.wslide.specs.Counts.{IsCount, counts_joined, count_at};
ghost use Rattle.wslide.specs.Lawful.{count_laws};

use crate::filter::passes;
use crate::fold::Fold;
use crate::meter::Meter;
use wvalues::Value;

// Whether a row of a column is null.
fn is_null(values: &[&Value], row: usize) -> bool
    requires { row < length values.now }
    ensures { result ≡ not (is_value (slice_index_or (meanings values.now) row Null)) }
{
    let value = values[row];
    match value {
        Value::Null => true,
        Value::Int(_) | Value::Short(_) | Value::Shared(_) => false,
    }
}

// How often a row counts that is fed.
fn value_count(values: &[&Value], row: usize) -> u64
    requires { row < length values.now }
    ensures value { result ≡ count_at (Some (meanings values.now)) None row }
    ensures part { IsCount result }
{
    if is_null(values, row) {
        return 0;
    }
    1
}

/// Counts the rows whose filter is true.
#[derive(Clone, Copy, Debug)]
pub struct CountRows<'a> {
    /// How many rows the partition has.
    pub rows: usize,
    /// Whether each row of the partition is fed; `None` feeds all.
    pub filter: Option<&'a [bool]>,
    ghost one_each: { ForSome filter (λ filter. length filter.now ≡ rows) },
}

impl<'a> Fold for CountRows<'a> {
    type Part = u64;

    type Meter = Meter;

    ghost is_part = { λ _. IsCount };

    ghost neutral = { λ _. 0 };

    ghost joined = { λ _. counts_joined };

    ghost rows = { λ count. count.rows };

    ghost part_at = { λ count. count_at None (tests count.filter) };

    ghost count = { λ meter. meter };

    ghost laws = { λ _. count_laws };

    fn joins(&self, meter: &Meter) -> u64 {
        meter.joins()
    }

    fn unit(&self) -> u64 {
        0
    }

    fn of(&self, row: usize) -> u64 {
        if passes(self.filter, row) { 1 } else { 0 }
    }

    fn join(&self, meter: &mut Meter, left: u64, right: u64) -> u64 {
        meter.tick();
        left.wrapping_add(right)
    }
}

/// Counts the values of the rows whose filter is true, without nulls.
#[derive(Clone, Copy, Debug)]
pub struct Count<'a> {
    /// The column's values in the partition's order.
    pub values: &'a [&'a Value],
    /// Whether each row of the partition is fed; `None` feeds all.
    pub filter: Option<&'a [bool]>,
    ghost one_each: { ForSome filter (λ filter. length filter.now ≡ length values.now) },
}

impl<'a> Fold for Count<'a> {
    type Part = u64;

    type Meter = Meter;

    ghost is_part = { λ _. IsCount };

    ghost neutral = { λ _. 0 };

    ghost joined = { λ _. counts_joined };

    ghost rows = { λ count. length count.values.now };

    ghost part_at = { λ count. count_at (Some (meanings count.values.now)) (tests count.filter) };

    ghost count = { λ meter. meter };

    ghost laws = { λ _. count_laws };

    fn joins(&self, meter: &Meter) -> u64 {
        meter.joins()
    }

    fn unit(&self) -> u64 {
        0
    }

    fn of(&self, row: usize) -> u64 {
        if passes(self.filter, row) {
            value_count(self.values, row)
        } else {
            0
        }
    }

    fn join(&self, meter: &mut Meter, left: u64, right: u64) -> u64 {
        meter.tick();
        left.wrapping_add(right)
    }
}
