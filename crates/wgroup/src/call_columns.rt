//! What the calls of groups answer.
ghost use Rattle.std.specs.Prelude.{◌≡◌, ◌<◌, ◌≤◌, ◌^◌, ◌+◌, ◌*◌, All, length, map, min, option_map, take, if◌then◌else◌, IfOk, Ok, Some};
ghost use Rattle.std.specs.Option.{ForSome};
ghost use Rattle.std.specs.List.{flat_map};
ghost use Rattle.wvalues.specs.Meaning.{meaning};
ghost use Rattle.wplan.specs.Plans.{GroupAggregate, aggregate_plan, group_call_plan};
ghost use Rattle.wrows.specs.Columns.{in_range};
ghost use Rattle.wrows.specs.Outcomes.{Gives, each};
ghost use Rattle.wrows.specs.Laid.{rows_seen};
ghost use Rattle.wgroupby.specs.Sets.{grouping_of};
ghost use Rattle.wgroup.specs.Grouping.{grouping_answer};
ghost use Rattle.waggregate.specs.Aggregating as aggregating;
ghost use Rattle.waggregate.specs.Feeding.{fed_by, rows_of, values_of};
ghost use Rattle.wgroup.specs.Finer.{AreAnswered, AreMade, IsMade, IsMadeOf, function_of_parts};
ghost use Rattle.wgroup.specs.Shared.{AreKnown, column_on, fed_answers, Feeds, IsKnown, IsShared};
ghost use Rattle.wgroup.specs.Held.{all_groups, column_over, columns_in, set_answers, set_grouping};

use crate::fed::{FedAggregate, GroupedRows};
use crate::found::{FinerSet, Groups};
use crate::groups::numbers_at;
use crate::shared::{SharedColumn, feeds, share};
use std::alloc::{AllocError, Global};
use waggregate::{
    Argument, Summaries, aggregate_groups, argument_values, filter_rows, joined_lists,
    plain_argument, summaries_for,
};
use wgroupby::is_among;
use wplan::{Aggregate, AggregateFunction, GroupCall};
use wrows::AnswerFault;
use wvalues::{Value, Whole};

// What puts answers for parts of groups together.
fn function_of_parts(function: AggregateFunction) -> AggregateFunction
    ensures { result ≡ function_of_parts function }
{
    match function {
        AggregateFunction::CountRows => AggregateFunction::Sum,
        AggregateFunction::Count => AggregateFunction::Sum,
        AggregateFunction::Sum => AggregateFunction::Sum,
        AggregateFunction::Min => AggregateFunction::Min,
        AggregateFunction::Max => AggregateFunction::Max,
    }
}

// What an aggregate comes to over the rows of each group of a set, by what it comes to on each group of a finer set.
fn answers_of_parts(
    alloc: Global,
    function: AggregateFunction,
    parts: &[Value],
    set: &Groups,
    finer: &FinerSet,
    groups: &Groups,
) -> Result<Vec<Value>, AnswerFault>
    requires made { IsMadeOf set.now finer.now.numbers.items groups.now }
    requires finer { groups.now.finer ≡ Some finer.now }
    requires len { length parts.now ≡ length set.now.order.items }
    requires few { length groups.now.numbers.value.items < 2 ^ 31 }
    ensures gives { (feed : aggregating.Feed) → in_range (set_answers function feed set.now) ≡ Ok (map meaning parts.now)
        → Gives (λ column. map meaning column.items) result (in_range (set_answers function feed groups.now)) }
    ensures len { IfOk result (λ column. length column.items ≡ length groups.now.order.items) }
{
    let numbers = numbers_at(alloc, &finer.numbers, &set.order)?;
    let function = function_of_parts(function);
    aggregate_groups(
        alloc,
        function,
        Argument::Values(parts),
        &None,
        &numbers,
        groups.count,
        &groups.order,
    )
}

// What an aggregate comes to over the rows of each group of a set, where it was answered for the sets before.
fn made_answers(
    alloc: Global,
    fed: &FedAggregate<'_>,
    sets: &[Groups],
    answered: &[Vec<Value>],
    groups: &Groups,
) -> Result<Vec<Value>, AnswerFault>
    requires made { IsMade (take (length answered.now) sets.now) groups.now }
    requires answered { AreAnswered fed.now.function (fed_by fed.now.argument fed.now.filter) sets.now answered.now }
    requires len { length groups.now.numbers.value.items ≡ rows_of fed.now.argument }
    ensures gives { Gives (λ column. map meaning column.items) result (in_range (fed_answers fed.now groups.now)) }
    ensures len { IfOk result (λ column. length column.items ≡ length groups.now.order.items) }
{
    match &groups.finer {
        None => aggregate_groups(
            alloc,
            fed.function,
            fed.argument,
            &fed.filter,
            &groups.numbers,
            groups.count,
            &groups.order,
        ),
        Some(finer) => {
            let place = finer.place;
            let set = &sets[place];
            answers_of_parts(alloc, fed.function, &answered[place], set, finer, groups)
        }
    }
}

// What an aggregate comes to over the rows of each group of a set, where it was answered for the sets before, or what the rows
// of each group come to is known.
fn group_answers(
    alloc: Global,
    fed: &FedAggregate<'_>,
    sets: &[Groups],
    answered: &[Vec<Value>],
    groups: &Groups,
) -> Result<Vec<Value>, AnswerFault>
    requires made { IsMade (take (length answered.now) sets.now) groups.now }
    requires answered { AreAnswered fed.now.function (fed_by fed.now.argument fed.now.filter) sets.now answered.now }
    requires known { IsKnown (values_of fed.now.argument) fed.now.summaries.now (length answered.now) groups.now }
    requires len { length groups.now.numbers.value.items ≡ rows_of fed.now.argument }
    ensures gives { Gives (λ column. map meaning column.items) result (in_range (fed_answers fed.now groups.now)) }
    ensures len { IfOk result (λ column. length column.items ≡ length groups.now.order.items) }
{
    match summaries_for(fed.summaries, answered.len(), fed.function, &fed.filter) {
        Some(known) => known.answers(alloc, fed.function, &groups.order),
        None => made_answers(alloc, fed, sets, answered, groups),
    }
}

// What an aggregate comes to over the rows of each group of all sets.
fn aggregate_answers(
    alloc: Global,
    fed: &FedAggregate<'_>,
    sets: &[Groups],
) -> Result<Vec<Value>, AnswerFault>
    requires made { AreMade sets.now }
    requires known { AreKnown (values_of fed.now.argument) sets.now fed.now.summaries.now }
    requires len { All (λ groups. length groups.numbers.value.items ≡ rows_of fed.now.argument) sets.now }
    ensures gives { Gives (λ column. map meaning column.items) result (in_range (flat_map (fed_answers fed.now) sets.now)) }
    ensures len { IfOk result (λ column. length column.items ≡ length (all_groups sets.now)) }
{
    let mut answered = Vec::with_capacity(alloc, sets.len())?;
    for groups in sets {
        let answers = group_answers(alloc, fed, sets, &answered, groups)?;
        answered.push(answers)?;
    }
    let column = joined_lists(alloc, answered)?;
    Ok(column)
}

// What an aggregate that this argument feeds comes to over the rows of each group of all sets.
fn fed_column(
    alloc: Global,
    aggregate: &Aggregate,
    grouped: &GroupedRows<'_>,
    argument: Argument<'_>,
    summaries: &[Option<Summaries<'_>>],
) -> Result<Vec<Value>, AnswerFault>
    requires values { Feeds (aggregate_plan aggregate.now) (rows_seen grouped.now.rows.now) (values_of argument) }
    requires wide { rows_of argument ≡ length grouped.now.rows.now }
    requires known { AreKnown (values_of argument) grouped.now.sets.now summaries.now }
    requires made { AreMade grouped.now.sets.now }
    ensures gives { Gives (λ column. map meaning column.items) result (column_on grouped.now
        (GroupAggregate (aggregate_plan aggregate.now))) }
    ensures len { IfOk result (λ column. length column.items ≡ length (all_groups grouped.now.sets.now)) }
{
    let filter = filter_rows(alloc, &aggregate.filter, grouped.rows)?;
    let fed = FedAggregate {
        function: aggregate.function,
        argument,
        filter,
        summaries,
    };
    aggregate_answers(alloc, &fed, grouped.sets)
}

// What an aggregate comes to over the rows of each group of all sets, with its argument evaluated on every row.
fn evaluated_column(
    alloc: Global,
    aggregate: &Aggregate,
    grouped: &GroupedRows<'_>,
) -> Result<Vec<Value>, AnswerFault>
    requires made { AreMade grouped.now.sets.now }
    ensures gives { Gives (λ column. map meaning column.items) result (column_on grouped.now
        (GroupAggregate (aggregate_plan aggregate.now))) }
    ensures len { IfOk result (λ column. length column.items ≡ length (all_groups grouped.now.sets.now)) }
{
    let cells = argument_values(alloc, &aggregate.argument, grouped.rows)?;
    fed_column(alloc, aggregate, grouped, Argument::Values(&cells), &[])
}

// What an aggregate comes to over the rows of each group of all sets, by an argument of its own, which is evaluated on every row
// where it is neither NULL nor a plain column.
fn own_column(
    alloc: Global,
    aggregate: &Aggregate,
    grouped: &GroupedRows<'_>,
) -> Result<Vec<Value>, AnswerFault>
    requires made { AreMade grouped.now.sets.now }
    ensures gives { Gives (λ column. map meaning column.items) result (column_on grouped.now
        (GroupAggregate (aggregate_plan aggregate.now))) }
    ensures len { IfOk result (λ column. length column.items ≡ length (all_groups grouped.now.sets.now)) }
{
    match plain_argument(&aggregate.argument, grouped.rows) {
        Some(argument) => fed_column(alloc, aggregate, grouped, argument, &[]),
        None => evaluated_column(alloc, aggregate, grouped),
    }
}

// What an aggregate comes to over the rows of each group of all sets, by the column that is shared, if that may feed it.
fn aggregate_column(
    alloc: Global,
    aggregate: &Aggregate,
    grouped: &GroupedRows<'_>,
    shared: &Option<SharedColumn<'_>>,
) -> Result<Vec<Value>, AnswerFault>
    requires shared { ForSome shared.now (IsShared grouped.now.rows.now grouped.now.sets.now) }
    requires made { AreMade grouped.now.sets.now }
    ensures gives { Gives (λ column. map meaning column.items) result (column_on grouped.now
        (GroupAggregate (aggregate_plan aggregate.now))) }
    ensures len { IfOk result (λ column. length column.items ≡ length (all_groups grouped.now.sets.now)) }
{
    match shared {
        Some(column) if feeds(column, aggregate) => {
            let argument = Argument::Column(grouped.rows, column.place);
            fed_column(alloc, aggregate, grouped, argument, &column.summaries)
        }
        _ => own_column(alloc, aggregate, grouped),
    }
}

// `GROUPING` saturates here: the least number beyond the range of `Whole`, 2^95.
const LIMIT: u128 = 1 << 95;

// The number with one more bit, no further than the limit.
fn with_bit(number: u128, bit: bool) -> u128
    requires { number ≤ 2 ^ 95 }
    ensures { result ≡ min (2 ^ 95) (number * 2 + (if bit then 1 else 0)) }
{
    let doubled = if bit { number * 2 + 1 } else { number * 2 };
    if doubled < LIMIT { doubled } else { LIMIT }
}

// The bits of those columns that a set lacks, as a number, no further than the limit.
#[tactic(auto, using(crate::proofs::BitFacts::bits_next))]
fn grouping_number(set: &[usize], columns: &[usize]) -> u128
    ensures { result ≡ min (2 ^ 95) (grouping_of set.now columns.now) }
{
    let mut number = 0;
    for column in columns {
        number = with_bit(number, !is_among(*column, set));
    }
    number
}

// GROUPING of columns on a group row of a set, if it is in range.
fn grouping_value(set: &[usize], columns: &[usize]) -> Option<Value>
    ensures { option_map meaning result ≡ grouping_answer columns.now set.now }
{
    let number = grouping_number(set, columns);
    match Whole::new(number as i128) {
        None => None,
        Some(number) => Some(Value::Int(number)),
    }
}

// A value for each group.
fn copies(alloc: Global, value: &Value, order: &[u32]) -> Result<Vec<Value>, AllocError>
    ensures value { IfOk result (λ column. map meaning column.items ≡ map (λ i. meaning value.now) order.now) }
    ensures len { IfOk result (λ column. length column.items ≡ length order.now) }
{
    let mut column = Vec::new(alloc);
    for _ in order {
        column.push(value.duplicate()?)?;
    }
    Ok(column)
}

// GROUPING of columns for each group of a set.
fn set_grouping(
    alloc: Global,
    columns: &[usize],
    groups: &Groups,
) -> Result<Vec<Value>, AnswerFault>
    ensures gives { Gives (λ column. map meaning column.items) result (in_range (set_grouping columns.now groups.now)) }
    ensures len { IfOk result (λ column. length column.items ≡ length groups.now.order.items) }
{
    if groups.order.is_empty() {
        return Ok(Vec::new(alloc));
    }
    match grouping_value(&groups.set, columns) {
        None => Err(AnswerFault::OutOfRange),
        Some(value) => {
            let column = copies(alloc, &value, &groups.order)?;
            Ok(column)
        }
    }
}

// GROUPING of columns for each group of all sets.
fn grouping_column(
    alloc: Global,
    columns: &[usize],
    sets: &[Groups],
) -> Result<Vec<Value>, AnswerFault>
    ensures gives { Gives (λ column. map meaning column.items) result (in_range (flat_map (set_grouping columns.now) sets.now)) }
    ensures len { IfOk result (λ column. length column.items ≡ length (all_groups sets.now)) }
{
    let mut column = Vec::new(alloc);
    for groups in sets {
        let mut answers = set_grouping(alloc, columns, groups)?;
        column.append(&mut answers)?;
    }
    Ok(column)
}

// What a call answers for each group of all sets.
fn column(
    alloc: Global,
    call: &GroupCall,
    grouped: &GroupedRows<'_>,
    shared: &Option<SharedColumn<'_>>,
) -> Result<Vec<Value>, AnswerFault>
    requires shared { ForSome shared.now (IsShared grouped.now.rows.now grouped.now.sets.now) }
    requires made { AreMade grouped.now.sets.now }
    ensures gives { Gives (λ column. map meaning column.items) result (column_on grouped.now (group_call_plan call.now)) }
    ensures len { IfOk result (λ column. length column.items ≡ length (all_groups grouped.now.sets.now)) }
{
    match call {
        GroupCall::Aggregated(aggregate) => aggregate_column(alloc, aggregate, grouped, shared),
        GroupCall::GroupingOf(columns) => grouping_column(alloc, columns, grouped.sets),
    }
}

/// What each call answers for each group of all sets, the first fault where there is one. A plain column that aggregates which
/// follow each other have for their argument is shared by all of these.
#[tactic(auto, using(crate::proofs::ColumnFacts::columns_begin))]
pub(crate) fn call_columns(
    alloc: Global,
    calls: &[GroupCall],
    rows: &[&[Value]],
    sets: &[Groups],
) -> Result<Vec<Vec<Value>>, AnswerFault>
    requires made { AreMade sets.now }
    requires len { All (λ groups. length groups.numbers.value.items ≡ length rows.now) sets.now }
    requires few { length rows.now < 2 ^ 31 }
    ensures gives { Gives (λ columns. columns_in columns.items) result (each (column_over (rows_seen rows.now) sets.now)
        (map group_call_plan calls.now)) }
    ensures len { IfOk result (λ columns. All (λ column. length column.items ≡ length (all_groups sets.now)) columns.items) }
    ensures count { IfOk result (λ columns. length columns.items ≡ length calls.now) }
{
    let grouped = GroupedRows { rows, sets };
    let mut columns = Vec::with_capacity(alloc, calls.len())?;
    let mut shared = None;
    for call in calls {
        share(alloc, &calls[columns.len()..], &grouped, &mut shared)?;
        columns.push(column(alloc, call, &grouped, &shared)?)?;
    }
    Ok(columns)
}
