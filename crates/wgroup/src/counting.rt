//! The row of the group of all rows, where its calls count them and ask nothing else of them.
ghost use Rattle.std.specs.Prelude.{◌≡◌, ◌∷◌, [], ◌+◌, ◌<◌, ◌^◌, List, IfOk, IsTrue, length, map, pos};
ghost use Rattle.std.specs.List.{AllByRecursion, list_all};
ghost use Rattle.wvalues.specs.Meaning.{Int, meaning};
ghost use Rattle.wplan.specs.Plans.{GroupAggregate, aggregate_plan, group_call_plan, grouping_plan};
ghost use Rattle.wrows.specs.Columns.{Row};
ghost use Rattle.wrows.specs.Outcomes.{Gives};
ghost use Rattle.wrows.specs.Laid.{rows_in};
ghost use Rattle.wgroupby.specs.Held.{lists_in};
ghost use Rattle.wgroup.specs.Counting.{CountsRows, counts_rows, is_counted, is_one_empty, is_row_count, row_count};
ghost use Rattle.wgroup.specs.Grouping.{group_rows};

use crate::having::rows_held;
use std::alloc::{AllocError, Global};
use waggregate::{count_value, is_null};
use wplan::{Aggregate, AggregateFunction, GroupCall, Grouping};
use wrows::{AnswerFault, Cells};
use wvalues::Value;

// Whether an aggregate is `count(*)` without FILTER.
#[tactic(auto, unfolding(wplan::specs::Formula::formula))]
fn is_row_count(aggregate: &Aggregate) -> bool
    ensures exact { result ≡ is_row_count aggregate.now }
    ensures counts { IsTrue result → GroupAggregate (aggregate_plan aggregate.now) ≡ row_count }
{
    let AggregateFunction::CountRows = aggregate.function else {
        return false;
    };
    if !is_null(&aggregate.argument) {
        return false;
    }
    aggregate.filter.is_none()
}

// Whether a call is `count(*)` without FILTER.
fn counts(call: &GroupCall) -> bool
    ensures exact { result ≡ is_counted call.now }
    ensures counts { IsTrue result → group_call_plan call.now ≡ row_count }
{
    match call {
        GroupCall::Aggregated(aggregate) => is_row_count(aggregate),
        GroupCall::GroupingOf(_) => false,
    }
}

// Whether all calls are `count(*)` without FILTER.
fn all_count(calls: &[GroupCall]) -> bool
    ensures exact { result ≡ list_all is_counted calls.now }
    ensures counts { IsTrue result → AllByRecursion (λ c. c ≡ row_count) (map group_call_plan calls.now) }
{
    for call in calls {
        if !counts(call) {
            return false;
        }
    }
    true
}

// Whether there is one set, the empty one.
fn is_one_empty(sets: &[Vec<usize>]) -> bool
    ensures exact { result ≡ is_one_empty (lists_in sets.now) }
    ensures empty { IsTrue result → lists_in sets.now ≡ [] ∷ [] }
{
    if sets.len() != 1 {
        return false;
    }
    sets[0].is_empty()
}

/// Whether a grouping counts all rows in one group and asks nothing else of them. HAVING may ask what it likes of the row of
/// the group.
pub fn counts_rows(grouping: &Grouping) -> bool
    ensures exact { result ≡ counts_rows grouping.now }
    ensures counts { IsTrue result → CountsRows (grouping_plan grouping.now) }
{
    if !grouping.columns.is_empty() {
        return false;
    }
    if !is_one_empty(&grouping.sets) {
        return false;
    }
    all_count(&grouping.calls)
}

// A count for each call.
fn counted_cells(alloc: Global, calls: &[GroupCall], count: usize) -> Result<Vec<Value>, AllocError>
    ensures { IfOk result (λ cells. map meaning cells.items ≡ map (λ c. Int (pos count)) calls.now) }
{
    let mut cells = Vec::with_capacity(alloc, calls.len())?;
    for _ in calls {
        cells.push(count_value(count as u64))?;
    }
    Ok(cells)
}

/// What [`group_rows`](crate::group_rows) answers of so many rows, whatever they hold, where the grouping counts them and asks
/// nothing else of them: the row of the one group, if HAVING keeps it.
pub fn counted_row(alloc: Global, grouping: &Grouping, count: usize) -> Result<Cells, AnswerFault>
    requires counts { CountsRows (grouping_plan grouping.now) }
    requires few { count < 2 ^ 31 }
    ensures rows { (rows : List Row) → length rows ≡ count → Gives rows_in result (group_rows (grouping_plan grouping.now) rows) }
    ensures width { IfOk result (λ cells. cells.width ≡ length grouping.now.columns.items + length grouping.now.calls.items) }
{
    let cells = counted_cells(alloc, &grouping.calls, count)?;
    let row = Cells {
        cells,
        width: grouping.calls.len(),
        count: 1,
    };
    rows_held(alloc, &grouping.having, row)
}
