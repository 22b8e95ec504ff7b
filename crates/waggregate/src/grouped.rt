//! Aggregates of groups.
ghost use Rattle.std.specs.Prelude.{◌≡◌, ◌<◌, ◌^◌, All, IfOk, OnOk, length, map, option_map, slice_index_or};
ghost use Rattle.std.specs.List.{flat_map};
ghost use Rattle.std.specs.Option.{ForSome};
ghost use Rattle.wvalues.specs.Meaning.{meaning};
ghost use Rattle.wframe.specs.Cells.{meanings};
ghost use Rattle.wframe.specs.Places.{places};
ghost use Rattle.wslide.specs.Aggregates.{tests};
ghost use Rattle.wslide.specs.Laws.{rows_fold};
ghost use Rattle.wplan.specs.declared.resolved.AggregateFunction.TheVariants as functions;
ghost use Rattle.wrows.specs.Columns.{in_range};
ghost use Rattle.wrows.specs.Outcomes.{Gives};
ghost use Rattle.waggregate.specs.Aggregating as aggregating;
ghost use Rattle.waggregate.specs.Aggregating.{aggregate_of};
ghost use Rattle.waggregate.specs.Feeding.{fed_by, rows_of};
ghost use Rattle.waggregate.specs.Grouped.{rows_of_group};

use crate::feeding::{Argument, listed};
use crate::folding::{AnsweringFold, extreme, push_values};
use crate::picking::lent;
use std::alloc::{AllocError, Global};
use wframe::stable_sorts_agree;
use wplan::AggregateFunction;
use wrows::AnswerFault;
use wslide::{
    Count, CountRows, Fold, Meter, Sum, counts_are_exact, places_are_least, see_ranges,
    sums_are_exact,
};
use wvalues::Value;

// So many parts of no row.
fn units<F: Fold>(alloc: Global, fold: &F, count: usize) -> Result<Vec<F::Part>, AllocError>
    ensures value { IfOk result (λ parts. parts.items ≡ map (λ g. F.neutral fold.now) (places count)) }
    ensures parts { IfOk result (λ parts. All (F.is_part fold.now) parts.items) }
{
    let mut parts = Vec::with_capacity(alloc, count)?;
    for _ in 0..count {
        parts.push(fold.unit())?;
    }
    Ok(parts)
}

// The fold of each group's rows. Each row is joined once, to the part of its group.
fn group_parts<F: Fold>(
    alloc: Global,
    fold: &F,
    meter: &mut F::Meter,
    groups: &[u32],
    count: usize,
) -> Result<Vec<F::Part>, AllocError>
    requires rows { length groups.now ≡ F.rows fold.now }
    requires below { All (λ g. g < count) groups.now }
    requires few { length groups.now < 2 ^ 31 }
    requires fresh { F.count meter.old ≡ 0 }
    ensures folds { IfOk result (λ parts. parts.items ≡ map (λ g. rows_fold (F.neutral fold.now) (F.joined fold.now)
        (F.part_at fold.now) (rows_of_group groups.now g)) (places count)) }
    ensures parts { IfOk result (λ parts. All (F.is_part fold.now) parts.items) }
    ensures joins { OnOk result (F.count meter.new ≡ length groups.now) }
{
    let mut parts = units(alloc, fold, count)?;
    for row in 0..groups.len() {
        let group = groups[row] as usize;
        parts[group] = fold.join(meter, parts[group], fold.of(row));
    }
    Ok(parts)
}

// The parts of some groups, in their order.
fn parts_in_order<P: Copy>(alloc: Global, parts: &[P], order: &[u32]) -> Result<Vec<P>, AllocError>
    requires { All (λ g. g < length parts.now) order.now }
    ensures { (d : P) → IfOk result (λ ordered. ordered.items ≡ map (λ g. slice_index_or parts.now g d) order.now) }
{
    let mut ordered = Vec::with_capacity(alloc, order.len())?;
    for group in order {
        ordered.push(parts[*group as usize])?;
    }
    Ok(ordered)
}

// The value of the fold of each group's rows, in the order of the groups that are answered, `OutOfRange` where one is so.
fn fold_groups<F: AnsweringFold>(
    alloc: Global,
    fold: &F,
    meter: &mut F::Meter,
    groups: &[u32],
    count: usize,
    order: &[u32],
) -> Result<Vec<Value>, AnswerFault>
    requires rows { length groups.now ≡ F.rows fold.now }
    requires below { All (λ g. g < count) groups.now }
    requires ordered { All (λ g. g < count) order.now }
    requires few { length groups.now < 2 ^ 31 }
    requires fresh { F.count meter.old ≡ 0 }
    ensures gives { Gives (λ column. map meaning column.items) result
        (in_range (map (λ g. F.answer fold.now (rows_fold (F.neutral fold.now) (F.joined fold.now) (F.part_at fold.now)
        (rows_of_group groups.now g))) order.now)) }
    ensures len { IfOk result (λ column. length column.items ≡ length order.now) }
    ensures joins { OnOk result (F.count meter.new ≡ length groups.now) }
{
    let parts = group_parts(alloc, fold, meter, groups, count)?;
    let ordered = parts_in_order(alloc, &parts, order)?;
    let mut column = Vec::with_capacity(alloc, order.len())?;
    push_values(&mut column, fold, &ordered)?;
    Ok(column)
}

/// Values, lent, in their order.
pub(crate) fn lent_values<'a>(
    alloc: Global,
    values: &'a [Value],
) -> Result<Vec<&'a Value>, AllocError>
    ensures value { IfOk result (λ lent. meanings lent.items ≡ map meaning values.now) }
    ensures len { IfOk result (λ lent. length lent.items ≡ length values.now) }
{
    let mut lent = Vec::with_capacity(alloc, values.len())?;
    for value in values {
        lent.push(value)?;
    }
    Ok(lent)
}

/// Lists, one behind the other. The first one is taken as it is, and the others are moved behind it.
pub fn joined_lists(alloc: Global, lists: Vec<Vec<Value>>) -> Result<Vec<Value>, AllocError>
    ensures { IfOk result (λ column. map meaning column.items ≡ flat_map (λ list. map meaning list.items) lists.items) }
{
    let mut lists = lists.into_iter();
    let Some(mut column) = lists.next() else {
        return Ok(Vec::new(alloc));
    };
    for mut list in lists {
        column.append(&mut list)?;
    }
    Ok(column)
}

// How many rows of each group there are on which a filter is true, all if there is none. No row is looked at.
fn count_groups(
    alloc: Global,
    filter: Option<&[bool]>,
    groups: &[u32],
    count: usize,
    order: &[u32],
) -> Result<Vec<Value>, AnswerFault>
    requires tests { ForSome filter (λ tests. length tests.now ≡ length groups.now) }
    requires below { All (λ g. g < count) groups.now }
    requires ordered { All (λ g. g < count) order.now }
    requires few { length groups.now < 2 ^ 31 }
    ensures gives { (feed : aggregating.Feed) → tests filter.entry ≡ feed.filter → Gives (λ column. map meaning column.items) result
        (in_range (map (λ g. aggregate_of functions.CountRows feed (rows_of_group groups.now g)) order.now)) }
    ensures len { IfOk result (λ column. length column.items ≡ length order.now) }
{
    // A law, which does nothing.
    counts_are_exact();
    let fold = CountRows {
        rows: groups.len(),
        filter,
    };
    let mut meter = Meter::new();
    fold_groups(alloc, &fold, &mut meter, groups, count, order)
}

// What an aggregate that is fed these values, in a list, comes to over the rows of each group, `OutOfRange` where a result is so.
fn aggregate_values(
    alloc: Global,
    function: AggregateFunction,
    values: &[&Value],
    filter: &Option<Vec<bool>>,
    groups: &[u32],
    count: usize,
    order: &[u32],
) -> Result<Vec<Value>, AnswerFault>
    requires rows { length groups.now ≡ length values.now }
    requires tests { ForSome filter.now (λ tests. length tests.items ≡ length values.now) }
    requires below { All (λ g. g < count) groups.now }
    requires ordered { All (λ g. g < count) order.now }
    requires few { length groups.now < 2 ^ 31 }
    ensures gives { (feed : aggregating.Feed) → meanings values.now ≡ feed.values
        → option_map (λ tests. tests.items) filter.now ≡ feed.filter
        → Gives (λ column. map meaning column.items) result
        (in_range (map (λ g. aggregate_of function feed (rows_of_group groups.now g)) order.now)) }
    ensures len { IfOk result (λ column. length column.items ≡ length order.now) }
{
    // Laws, which do nothing.
    counts_are_exact();
    sums_are_exact();
    places_are_least();
    stable_sorts_agree();
    let filter = lent(filter);
    let mut meter = Meter::new();
    match function {
        AggregateFunction::CountRows => count_groups(alloc, filter, groups, count, order),
        AggregateFunction::Count => {
            let fold = Count { values, filter };
            fold_groups(alloc, &fold, &mut meter, groups, count, order)
        }
        AggregateFunction::Sum => {
            see_ranges(values);
            let fold = Sum { values, filter };
            fold_groups(alloc, &fold, &mut meter, groups, count, order)
        }
        AggregateFunction::Min => {
            let fold = extreme(values, filter, false);
            fold_groups(alloc, &fold, &mut meter, groups, count, order)
        }
        AggregateFunction::Max => {
            let fold = extreme(values, filter, true);
            fold_groups(alloc, &fold, &mut meter, groups, count, order)
        }
    }
}

/// What an aggregate of an argument comes to over the rows of each group, `OutOfRange` where a result is so. `groups` has the
/// number of each row's group, of 32 bits, of so many groups, and `order` the groups that are answered, in their order. The rows are
/// gone through as often for many groups as for one. What the argument has on them is listed, by 8 bytes a row, unless rows are
/// counted, at which nobody looks.
pub fn aggregate_groups(
    alloc: Global,
    function: AggregateFunction,
    argument: Argument,
    filter: &Option<Vec<bool>>,
    groups: &[u32],
    count: usize,
    order: &[u32],
) -> Result<Vec<Value>, AnswerFault>
    requires rows { length groups.now ≡ rows_of argument }
    requires tests { ForSome filter.now (λ tests. length tests.items ≡ rows_of argument) }
    requires below { All (λ g. g < count) groups.now }
    requires ordered { All (λ g. g < count) order.now }
    requires few { length groups.now < 2 ^ 31 }
    ensures gives { Gives (λ column. map meaning column.items) result
        (in_range (map (λ g. aggregate_of function (fed_by argument.entry filter.now) (rows_of_group groups.now g)) order.now)) }
    ensures len { IfOk result (λ column. length column.items ≡ length order.now) }
{
    if let AggregateFunction::CountRows = function {
        return count_groups(alloc, lent(filter), groups, count, order);
    }
    let null = Value::Null;
    let values = listed(alloc, argument, &null)?;
    aggregate_values(alloc, function, &values, filter, groups, count, order)
}
