ghost use Rattle.std.specs.Prelude.{◌≡◌, None, length};
ghost use Rattle.std.specs.Option.{ForSome};
ghost use Rattle.wframe.specs.Cells.{meanings};
ghost use Rattle.wslide.specs.Aggregates.{by_value_in, tests};
ghost use Rattle.wslide.specs.Leasts.{IsPlace, leasts_joined, place_at};
ghost use Rattle.wslide.specs.Lawful.{least_laws, by_value_in_total};

use crate::filter::passes;
use crate::fold::Fold;
use crate::meter::Meter;
use crate::places::{first_place, value_place};
use wvalues::Value;

/// Finds the least or the greatest value of the rows whose filter is true, without nulls: numbers by size, texts by bytes.
///
/// A part is the value's place in the partition, the leftmost of equal ones, or `None` where no row feeds a value.
#[derive(Clone, Copy, Debug)]
pub struct Extreme<'a> {
    /// The column's values in the partition's order, numbers or texts.
    pub values: &'a [&'a Value],
    /// Whether each row of the partition is fed; `None` feeds all.
    pub filter: Option<&'a [bool]>,
    /// Whether it finds the greatest value, and not the least.
    pub greatest: bool,
    ghost one_each: { ForSome filter (λ filter. length filter.now ≡ length values.now) },
}

impl<'a> Fold for Extreme<'a> {
    type Part = Option<usize>;

    type Meter = Meter;

    ghost is_part = { λ extreme. IsPlace (meanings extreme.values.now) };

    ghost neutral = { λ _. None };

    ghost joined = { λ extreme. leasts_joined (by_value_in extreme.greatest) (meanings extreme.values.now) };

    ghost rows = { λ extreme. length extreme.values.now };

    ghost part_at = { λ extreme. place_at (meanings extreme.values.now) (tests extreme.filter) };

    ghost count = { λ meter. meter };

    ghost laws = { λ extreme. least_laws (by_value_in_total extreme.greatest) (meanings extreme.values.now) };

    fn joins(&self, meter: &Meter) -> u64 {
        meter.joins()
    }

    fn unit(&self) -> Option<usize> {
        None
    }

    #[inline(always)]
    fn of(&self, row: usize) -> Option<usize> {
        if passes(self.filter, row) {
            value_place(self.values, row)
        } else {
            None
        }
    }

    #[inline(always)]
    fn join(&self, meter: &mut Meter, left: Option<usize>, right: Option<usize>) -> Option<usize> {
        meter.tick();
        first_place(self.values, self.greatest, left, right)
    }
}
