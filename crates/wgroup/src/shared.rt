//! A plain column that several calls share.
//!
//! Calls that follow each other often have one column for their argument, as a sum, a least and a greatest value of it. It is read
//! where it lies, and what the rows of each group come to is found for all that are fed alike in one pass over the rows. No more than
//! one column is shared at a time, so that many calls take little more memory than one does.
ghost use Rattle.std.specs.Prelude.{◌≡◌, ◌<◌, ◌^◌, All, List, IfOk, IsTrue, None, Ok, Some, length};
ghost use Rattle.std.specs.Option.{ForSome};
ghost use Rattle.wvalues.specs.Meaning.{Meaning};
ghost use Rattle.wplan.specs.Formula.{At, formula};
ghost use Rattle.wplan.specs.Plans.{aggregate_plan};
ghost use Rattle.wrows.specs.Columns.{Row, column_of};
ghost use Rattle.waggregate.specs.Alike.{extremes_alike};
ghost use Rattle.waggregate.specs.Feeding.{rows_of, values_of};
ghost use Rattle.waggregate.specs.Summaries.{AreSummaries};
ghost use Rattle.wgroup.specs.Finer.{AreMade};
ghost use Rattle.wgroup.specs.Held.{row_numbers};
ghost use Rattle.wgroup.specs.Shared.{AllLookFor, AreKnown, Feeds, IsShared, LooksFor};

use crate::fed::GroupedRows;
use crate::found::Groups;
use std::alloc::{AllocError, Global};
use waggregate::{Argument, Extremes, Summaries, extremes_of, is_null, summarize};
use wplan::{Aggregate, AggregateFunction, Expr, GroupCall};
use wrows::place_of;

/// A column of rows, by its place in them, that calls which follow each other share, with what the rows of each group come to.
#[derive(Drop)]
pub(crate) struct SharedColumn<'a> {
    pub(crate) place: usize,
    /// What the rows of each group of each set come to that is made of rows, where calls ask for that, and else none.
    pub(crate) summaries: Vec<Option<Summaries<'a>>>,
}

/// How many calls ahead are searched for one with an argument.
const LOOKED_AT: usize = 64;

// What the first of the calls reads on each row, or where nothing is shared the first of some that reads something; none where it
// reads nothing, as `count(*)` does.
fn argument_of(calls: &[GroupCall], is_shared: bool) -> Option<&Expr> {
    let most = if is_shared { 1 } else { LOOKED_AT };
    for call in &calls[..calls.len().min(most)] {
        let GroupCall::Aggregated(aggregate) = call else {
            continue;
        };
        if !is_null(&aggregate.argument) {
            return Some(&aggregate.argument);
        }
    }
    None
}

/// Summaries are kept where groups have this many rows on average. Where groups are many they would take more memory than a list of the
/// values, and more than what each call answers.
const ROWS_OF_GROUP: usize = 8;

// What the rows of each group of a set come to, if its groups are made of rows and few beside these.
fn set_summaries<'a>(
    alloc: Global,
    argument: Argument<'a>,
    extremes: Extremes,
    groups: &Groups,
) -> Result<Option<Summaries<'a>>, AllocError>
    requires below { groups.now.finer ≡ None → All (λ i. i < groups.now.count) groups.now.numbers.value.items }
    requires len { length groups.now.numbers.value.items ≡ rows_of argument }
    requires few { rows_of argument < 2 ^ 31 }
    ensures known { IfOk result (λ known. ForSome known (AreSummaries (values_of argument.entry) (row_numbers groups.now)
        groups.now.count)) }
    ensures asked { IfOk result (λ known. ForSome known (LooksFor (Some extremes))) }
{
    match &groups.finer {
        None if groups.count <= argument.rows() / ROWS_OF_GROUP => {
            let summaries = summarize(alloc, argument, extremes, &groups.numbers, groups.count)?;
            Ok(Some(summaries))
        }
        _ => Ok(None),
    }
}

// What the rows of each group of each set come to, if extremes are asked for.
fn summaries_of<'a>(
    alloc: Global,
    argument: Argument<'a>,
    extremes: Option<Extremes>,
    sets: &[Groups],
) -> Result<Vec<Option<Summaries<'a>>>, AllocError>
    requires made { AreMade sets.now }
    requires len { All (λ groups. length groups.numbers.value.items ≡ rows_of argument) sets.now }
    requires few { rows_of argument < 2 ^ 31 }
    ensures known { IfOk result (λ summaries. AreKnown (values_of argument.entry) sets.now summaries.items) }
    ensures asked { IfOk result (λ summaries. AllLookFor extremes summaries.items) }
{
    let mut summaries = Vec::new(alloc);
    let Some(extremes) = extremes else {
        return Ok(summaries);
    };
    for groups in sets {
        summaries.push(set_summaries(alloc, argument, extremes, groups)?)?;
    }
    Ok(summaries)
}

// The column of a place, with what the rows of each group come to, where calls ask for that.
fn column_at<'a>(
    alloc: Global,
    place: usize,
    calls: &[GroupCall],
    grouped: &GroupedRows<'a>,
) -> Result<SharedColumn<'a>, AllocError>
    requires { AreMade grouped.now.sets.now }
    ensures shared { IfOk result (IsShared grouped.now.rows.now grouped.now.sets.now) }
    ensures asked { IfOk result (λ column. AllLookFor (extremes_alike place calls.now) column.summaries.items) }
{
    let argument = Argument::Column(grouped.rows, place);
    let extremes = extremes_of(calls, place);
    let summaries = summaries_of(alloc, argument, extremes, grouped.sets)?;
    Ok(SharedColumn { place, summaries })
}

/// Shares the column that the argument of the first of the calls is, if it is a plain one and another one is shared, or that of the
/// first call that has one, if none is shared. Where an argument is evaluated, which takes memory of its own, none is shared any more.
pub(crate) fn share<'a>(
    alloc: Global,
    calls: &[GroupCall],
    grouped: &GroupedRows<'a>,
    shared: &mut Option<SharedColumn<'a>>,
) -> Result<(), AllocError>
    requires shared { ForSome shared.old (IsShared grouped.now.rows.now grouped.now.sets.now) }
    requires made { AreMade grouped.now.sets.now }
    ensures { ForSome shared.new (IsShared grouped.now.rows.now grouped.now.sets.now) }
{
    let Some(argument) = argument_of(calls, shared.is_some()) else {
        return Ok(());
    };
    let Some(place) = place_of(argument) else {
        *shared = None;
        return Ok(());
    };
    match shared {
        Some(column) if column.place == place => return Ok(()),
        _ => {}
    }
    *shared = None;
    let column = column_at(alloc, place, calls, grouped)?;
    *shared = Some(column);
    Ok(())
}

// Whether an argument is this column.
fn is_argument(column: &SharedColumn<'_>, argument: &Expr) -> bool
    ensures { IsTrue result → formula argument.now ≡ At column.now.place }
{
    match place_of(argument) {
        None => false,
        Some(place) => place == column.place,
    }
}

/// Whether this column may feed an aggregate: it is its argument, or rows are counted, at whose values nobody looks.
pub(crate) fn feeds(column: &SharedColumn<'_>, aggregate: &Aggregate) -> bool
    ensures { IsTrue result → (rows : List Row) (values : List Meaning) → column_of (At column.now.place) rows ≡ Ok values
        → Feeds (aggregate_plan aggregate.now) rows values }
{
    if is_argument(column, &aggregate.argument) {
        return true;
    }
    let AggregateFunction::CountRows = aggregate.function else {
        return false;
    };
    is_null(&aggregate.argument)
}
