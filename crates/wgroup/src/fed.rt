//! Rows with their groups, and aggregates with what feeds them.
ghost use Rattle.std.specs.Prelude.{◌≡◌, ◌<◌, ◌^◌, All, length};
ghost use Rattle.std.specs.Option.{ForSome};
ghost use Rattle.waggregate.specs.Feeding.{rows_of};

use crate::found::Groups;
use waggregate::{Argument, Summaries};
use wplan::AggregateFunction;
use wvalues::Value;

/// Rows, fewer than 2^31, and their groups of each set.
#[derive(Clone, Copy)]
pub(crate) struct GroupedRows<'a> {
    pub(crate) rows: &'a [&'a [Value]],
    pub(crate) sets: &'a [Groups],
    ghost len: { All (λ groups. length groups.numbers.value.items ≡ length rows.now) sets.now },
    ghost few: { length rows.now < 2 ^ 31 },
}

/// An aggregate, and what feeds it on fewer than 2^31 rows.
#[derive(Drop)]
pub(crate) struct FedAggregate<'a> {
    pub(crate) function: AggregateFunction,
    /// What its argument has on each row.
    pub(crate) argument: Argument<'a>,
    /// Whether its filter is true on each row, if it has one.
    pub(crate) filter: Option<Vec<bool>>,
    /// What the rows of each group of each set come to without a filter, where that is known.
    pub(crate) summaries: &'a [Option<Summaries<'a>>],
    ghost tests: { ForSome filter (λ tests. length tests.items ≡ rows_of argument) },
    ghost few: { rows_of argument < 2 ^ 31 },
}
